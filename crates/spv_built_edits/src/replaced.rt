// The laws of a module that is built and in whose functions uses are replaced.

ghost use Rattle.spv_built_edits.specs.ReplacedLaws.{
  InterfacesWhereReplaced,
  NamesWhereReplaced,
  ReplacedAreInstructions,
  ReplacedIsBuilt,
  ReplacedIsRewritten,
};

/// A module that is built is so again where uses of its functions are replaced by other values of their types that are
/// available there, if its interfaces fit. They do where no function names more, as its listing tells. Its lines are then
/// rewritten as `spv_rewritten` says, and are instructions of the profile.
pub fn replaced_law()
    ensures rewritten { ReplacedIsRewritten }
    ensures instructions { ReplacedAreInstructions }
    ensures built { ReplacedIsBuilt }
    ensures interfaces { InterfacesWhereReplaced }
    ensures names { NamesWhereReplaced }
{}
