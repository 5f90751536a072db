// The laws of a module that is built and in which lines are rewritten.

ghost use Rattle.spv_built_edits.specs.RewrittenLaws.{RewrittenIsBuilt, RewrittenIsLaidOut};

/// A module that is built is so again where lines are rewritten as `spv_rewritten` says, if its functions, each edited,
/// are built there and its interfaces fit. That no rule on layout is broken follows.
pub fn rewritten_law()
    ensures built { RewrittenIsBuilt }
    ensures laid_out { RewrittenIsLaidOut }
{}
