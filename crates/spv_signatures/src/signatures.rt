ghost use Rattle.std.specs.Prelude.{◌≡◌, IfOk};
ghost use Rattle.spv_signatures.specs.Functions.{parameters_of};

use crate::parameters::Parameter;
use crate::rows::Rows;
use spv_module::NoMemory;
use spv_types::Tables;
use std::alloc::Global;
use std::marker::Model;

/// The parameters of the functions of a module, by the functions' ids. It borrows the module's tables.
#[derive(Debug, Drop)]
pub struct Signatures<'t, 'a> {
    tables: &'t Tables<'a>,
    rows: Rows,
}

impl<'t, 'a> Model for Signatures<'t, 'a> {
    ghost use Rattle.std.specs.Prelude.{List, length};
    ghost use Rattle.spv_module.specs.Instruction.{Instruction};
    ghost use Rattle.spv_signatures.specs.Rows.{HasRows};

    ghost Value = { List Instruction };

    ghost view = { λ signatures. signatures.tables.now };

    ghost invariant = { λ signatures. HasRows signatures.rows.rows signatures.rows.parameters.items signatures.tables.now (length signatures.tables.now) };
}

impl<'t, 'a> Signatures<'t, 'a> {
    /// The parameters of the functions of a module.
    pub fn of(alloc: Global, tables: &'t Tables<'a>) -> Result<Signatures<'t, 'a>, NoMemory>
        ensures { IfOk result (λ signatures. signatures ≡ tables.now) }
    {
        let rows = Rows::of(alloc, tables.kinds().definitions().insts())?;
        Ok(Signatures { tables, rows })
    }

    /// What the ids of the module outside functions stand for.
    pub fn tables(&self) -> &'t Tables<'a>
        ensures { result.now ≡ self.now }
    {
        self.tables
    }

    /// The parameters of a function by its id: those directly behind the OpFunction that defines it. None where the
    /// id is no function.
    pub fn parameters(&self, id: u32) -> &[Parameter]
        ensures { result.now ≡ parameters_of self.now id }
    {
        match self.tables.kinds().definitions().place(id) {
            Some(place) => self.rows.row(place as usize),
            None => &[],
        }
    }
}
