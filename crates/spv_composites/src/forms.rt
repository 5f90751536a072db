ghost use Rattle.std.specs.Prelude.{◌≡◌, IfOk};
ghost use Rattle.std.specs.Option.{option_copied};
ghost use Rattle.spv_composites.specs.Forms.{match_types};
ghost use Rattle.spv_composites.specs.Numbering.{same_number};

use crate::numbering::numbers_of;
use spv_module::NoMemory;
use spv_types::Tables;
use std::alloc::Global;
use std::collections::BTreeMap;
use std::marker::Model;

/// The tables of a module, and which of its types match in the sense of OpCopyLogical.
#[derive(Debug, Drop)]
pub struct Forms<'a> {
    tables: &'a Tables<'a>,
    /// A number for the form of each type that has one, by the type's id.
    numbers: BTreeMap<u32, u32>,
}

impl<'a> Model for Forms<'a> {
    ghost use Rattle.std.specs.Prelude.{List};
    ghost use Rattle.spv_module.specs.Instruction.{Instruction};
    ghost use Rattle.spv_composites.specs.Numbering.{TellsMatches};

    ghost Value = { List Instruction };

    ghost view = { λ forms. forms.tables.now };

    ghost invariant = { λ forms. TellsMatches forms.numbers forms.tables.now };
}

/// Whether both are one number.
fn is_same(one: Option<&u32>, other: Option<&u32>) -> bool
    ensures { result ≡ same_number (option_copied one.entry) (option_copied other.entry) }
{
    match (one, other) {
        (Some(one), Some(other)) => one == other,
        _ => false,
    }
}

impl<'a> Forms<'a> {
    /// The forms of the types of a module with these tables.
    pub fn of(alloc: Global, tables: &'a Tables<'a>) -> Result<Forms<'a>, NoMemory>
        ensures { IfOk result (λ forms. forms ≡ tables.now) }
    {
        let numbers = numbers_of(alloc, tables)?;
        Ok(Forms { tables, numbers })
    }

    /// The module's tables.
    pub fn tables(&self) -> &'a Tables<'a>
        ensures { result.now ≡ self.now }
    {
        self.tables
    }

    /// Whether two types match: they are one scalar or vector, arrays of the same length whose elements match, or
    /// structs of as many members that match one by one. It takes as long as looking up two ids.
    pub fn matches(&self, one: u32, other: u32) -> bool
        ensures { result ≡ match_types self.now one other }
    {
        is_same(self.numbers.get(&one), self.numbers.get(&other))
    }
}
