ghost use Rattle.spv_editing.specs.Facts.{OpcodesAreDropped, UsesAreReplaced, ValuesAreReplaced};

/// Facts of an edit that replaces an id, and of one that drops an opcode. Does nothing.
pub fn facts_of_editing()
    ensures values { ValuesAreReplaced }
    ensures uses { UsesAreReplaced }
    ensures dropped { OpcodesAreDropped }
{}
