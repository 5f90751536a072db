ghost use Rattle.std.specs.Prelude.{◌≡◌, ◌+◌, ◌<◌, ◌^◌, cond, nat_eq, ℕ, OnOk, IfOk, Some, length};
ghost use Rattle.std.specs.BTreeMap.{get};
ghost use Rattle.std.specs.Ordering.{nat_cmp};
ghost use Rattle.spv_module.specs.Code.{is_function};
ghost use Rattle.spv_module.specs.View.{seen};
ghost use Rattle.spv_signatures.specs.Functions as functions;
ghost use Rattle.spv_signatures.specs.Rows.{HasRows, AreWithin};

use crate::parameters::{Parameter, append};
use spv_module::{InstList, NoMemory, View};
use spv_opcodes::op;
use std::alloc::Global;
use std::collections::BTreeMap;

/// Where the parameters of one function stand among all: from `start` up to `end`.
#[derive(Clone, Copy, Debug)]
pub struct Row {
    start: usize,
    end: usize,
}

/// The parameters of all functions of a module one after the other, and where those of each stand.
#[derive(Debug, Drop)]
pub struct Rows {
    /// By the number of the OpFunction among the module's instructions.
    rows: BTreeMap<usize, Row>,
    parameters: Vec<Parameter>,
}

/// Whether the instruction begins a function.
fn begins_function(inst: &View) -> bool
    ensures { result ≡ is_function (seen inst.now) }
{
    inst.opcode() == op::FUNCTION
}

fn put(rows: &mut BTreeMap<usize, Row>, k: usize, row: Row) -> Result<(), NoMemory>
    ensures { OnOk result ((p : ℕ) → get nat_cmp rows.new p ≡ cond (nat_eq k p) (Some row) (get nat_cmp rows.old p)) }
{
    rows.insert(k, row).map_err(|_| NoMemory)?;
    Ok(())
}

impl Rows {
    ghost use Rattle.spv_signatures.specs.Rows.{row_of};

    /// Adds the parameters of the function that the k-th instruction, counted from 0, begins, if it begins one.
    fn add(&mut self, insts: &InstList, k: usize) -> Result<(), NoMemory>
        requires within { k < length insts.now }
        requires room { length insts.now < 2 ^ 64 }
        ensures { OnOk result (HasRows self.old.rows self.old.parameters.items insts.now k → HasRows self.new.rows self.new.parameters.items insts.now (k + 1)) }
    {
        if begins_function(&insts.at(k)) {
            let start = self.parameters.len();
            append(&mut self.parameters, insts, k + 1)?;
            let end = self.parameters.len();
            put(&mut self.rows, k, Row { start, end })?;
        }
        Ok(())
    }

    /// The parameters of all functions.
    pub fn of(alloc: Global, insts: &InstList) -> Result<Rows, NoMemory>
        ensures { IfOk result (λ all. HasRows all.rows all.parameters.items insts.now (length insts.now)) }
    {
        let mut all = Rows {
            rows: BTreeMap::new(alloc),
            parameters: Vec::new(alloc),
        };
        'instructions: for k in 0..insts.count() {
            all.add(insts, k)?;
        }
        Ok(all)
    }

    /// The parameters of the function that the k-th instruction begins, if it begins one.
    pub fn row(&self, k: usize) -> &[Parameter]
        requires { AreWithin self.now.rows self.now.parameters.items }
        ensures { result.now ≡ row_of self.now.rows self.now.parameters.items k }
    {
        match self.rows.get(&k) {
            Some(row) => &self.parameters[row.start..row.end],
            None => &[],
        }
    }
}
