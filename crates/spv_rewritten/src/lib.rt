//! Modules in which some lines are rewritten, one for one, and what stays the same.
//!
//! The definitions are in `specs/`; the function here has laws over them as its contract, and does nothing when it is
//! called.
#![tactic(auto)]

ghost use Rattle.spv_rewritten.specs.Laws.{
  RewrittenIsAlike,
  RewrittenIsDeclared,
  RewrittenIsEntered,
  InterfacesStay,
  InterfacesWhereListed,
  KindsStay,
  NamesWhereFunctionsStay,
};

/// Where lines of a module are rewritten so that they keep opcodes, results and types and use what is defined, the
/// module and what it becomes are alike; and that breaks none of 301 to 309 where it broke none, and none of 601 to 606
/// where its interfaces fit. They fit where no function names other global variables, and interfaces stay, or lose
/// entries that nothing which is reached names.
pub fn rewritten_law()
    ensures alike { RewrittenIsAlike }
    ensures declared { RewrittenIsDeclared }
    ensures entered { RewrittenIsEntered }
    ensures stay { InterfacesStay }
    ensures listed { InterfacesWhereListed }
    ensures names { NamesWhereFunctionsStay }
    ensures kinds { KindsStay }
{}
