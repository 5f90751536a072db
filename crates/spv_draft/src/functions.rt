ghost use Rattle.std.specs.Prelude.{◌≡◌, ◌+◌, ◌≤◌, ◌^◌, max, OnOk, OnErr};
ghost use Rattle.spv_module.specs.Code.{is_function as begins};
ghost use Rattle.spv_module.specs.View.{seen};
ghost use Rattle.spv_draft.specs.Functions.{next_function as next_in, function_start, with_function};

use crate::lines::Lines;
use spv_base::NoMemory;
use spv_module::{InstList, View};
use spv_opcodes::op;

/// Whether an instruction is OpFunction.
fn is_function(inst: &View) -> bool
    ensures { result ≡ begins (seen inst.now) }
{
    inst.opcode() == op::FUNCTION
}

/// The place of the first OpFunction from a place on, or the end.
fn next_function(lines: &Lines, from: usize) -> usize
    ensures place { result ≡ next_in from lines.now }
    ensures onward { from ≤ result }
    ensures within { result ≤ max from (2 ^ 32) }
{
    let mut at = from;
    'search: while at < lines.count() && !is_function(&lines.at(at)) {
        at += 1;
    }
    at
}

/// The place of the OpFunction of a function, counted from 0.
fn start_of(lines: &Lines, f: u32) -> usize
    ensures place { result ≡ function_start f lines.now }
    ensures within { result ≤ 2 ^ 32 + f }
{
    let mut at = next_function(lines, 0);
    'functions: for _step in 0..f {
        at = next_function(lines, at + 1);
    }
    at
}

/// Replaces the instructions of a function by those of a list. After NoMemory they are as before.
pub fn put_function(lines: &mut Lines, f: u32, list: &InstList) -> Result<(), NoMemory>
    ensures ok { OnOk result (lines.new ≡ with_function f list.now lines.old) }
    ensures err { OnErr result (lines.new ≡ lines.old) }
{
    let start = start_of(lines, f);
    let end = next_function(lines, start + 1);
    lines.put_range(start, end, list)
}
