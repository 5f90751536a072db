//! The normal form of a function: definitions alone.
//!
//! The definitions are in `specs/`; the function here has facts over them as its contract, and does nothing when it is
//! called.
#![tactic(auto)]

ghost use Rattle.spv_normal.specs.Facts.{ArmsAreSorted, BlocksAreJoined, LoopsAreSorted, NormalStays};

/// Facts of small functions.
pub fn facts_of_normal_forms()
    ensures joined { BlocksAreJoined }
    ensures arms { ArmsAreSorted }
    ensures loops { LoopsAreSorted }
    ensures stays { NormalStays }
{}
