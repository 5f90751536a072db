// The law of modules in normal form.

ghost use Rattle.spv_norm.specs.Laws.{NormalStays};

/// A module whose functions are in their normal forms, with no line mark outside them, with no name of a label that no
/// function has, and with nothing between functions or behind them, is its own normal form.
pub fn norm_law()
    ensures { NormalStays }
{}
