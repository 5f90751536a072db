//! Bodies of functions as trees of constructs, and the instructions that spell them: definitions alone.
//!
//! The definitions are in `specs/`; the function here has facts over them as its contract, and does nothing when it is
//! called.
#![tactic(auto)]

ghost use Rattle.spv_bodies.specs.Facts.{DepthsAreCounted, LoopIsListed, LoopsArePlaced, SelectionIsListed};

/// Facts of a selection, a loop and a switch.
pub fn facts_of_bodies()
    ensures selection { SelectionIsListed }
    ensures loops { LoopIsListed }
    ensures placed { LoopsArePlaced }
    ensures depths { DepthsAreCounted }
{}
