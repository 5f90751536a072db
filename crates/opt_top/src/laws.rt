// The laws of answers.

ghost use Rattle.opt_top.specs.Laws.{NoneTooNested, OneAnswer};

/// An input has one answer at most, what is written for it or its refusal, and none where a function nests too deep. Does
/// nothing.
pub fn answer_law()
    ensures one { OneAnswer }
    ensures none { NoneTooNested }
{}
