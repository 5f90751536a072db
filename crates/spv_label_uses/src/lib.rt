//! Where the rules find nothing, no instruction uses a label or a string as a value, type, function, set or string.
//!
//! The definitions are in `specs/`; the function here has two laws over them as its contract, and does nothing when it is
//! called.
#![tactic(auto)]

ghost use Rattle.spv_label_uses.specs.Laws.{LabelsAreNoValues, StringsAreNoValues};

/// In a module of which the rules on layout, declarations, bodies, entry points and interfaces find nothing, no instruction
/// but those that name ids, sources and lines uses a label as anything else than a label, or a string as anything else than
/// a label.
pub fn labels_law()
    ensures labels { LabelsAreNoValues }
    ensures strings { StringsAreNoValues }
{}
