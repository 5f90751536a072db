// Laws over the definitions. Their function does nothing when it is called.

ghost use Rattle.spv_module_rules.specs.Laws.{HasTogether, OneTogether};

/// The functions of a module that break no rule on structured control flow have one number of nested returns together.
pub fn together_law()
    ensures some { HasTogether }
    ensures one { OneTogether }
{}
