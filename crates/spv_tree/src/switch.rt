ghost use Rattle.std.specs.Prelude.{◌≡◌, ◌≤◌, ◌++◌, ◌∷◌, [], length, map, IfOk, OnOk};
ghost use Rattle.spv_opcodes.specs.declared.op.TheConstants as op;
ghost use Rattle.spv_bodies.specs.Listing.{instruction, pair_words};
ghost use Rattle.spv_tree.specs.Tree.{case_of, words_of};
ghost use Rattle.spv_tree.specs.Phi.{AddsCases, IsMade};

use crate::body::Case;
use crate::making::{head, push_words};
use spv_base::{Id, NoMemory};
use spv_module::InstList;
use spv_opcodes::op;
use std::alloc::Global;

fn push_case(words: &mut Vec<u32>, case: Case) -> Result<(), NoMemory>
    ensures { OnOk result (AddsCases words.old.items words.new.items (case_of case ∷ [])) }
{
    words.push(case.literal)?;
    words.push(case.target.number())?;
    Ok(())
}

fn push_cases(words: &mut Vec<u32>, cases: &[Case]) -> Result<(), NoMemory>
    ensures { OnOk result (AddsCases words.old.items words.new.items (map case_of cases.now)) }
{
    'cases: for case in cases {
        push_case(words, *case)?;
    }
    Ok(())
}

fn words_of_switch(
    alloc: Global,
    selector: Id,
    default: Id,
    cases: &[Case],
) -> Result<Vec<u32>, NoMemory>
    requires { length cases.now ≤ 16383 }
    ensures { IfOk result (λ words. IsMade words.items (instruction op.SWITCH (selector ∷ default ∷ pair_words (map case_of cases.now)))) }
{
    let mut words = Vec::new(alloc);
    words.push(head(3 + 2 * cases.len() as u16, op::SWITCH))?;
    words.push(selector.number())?;
    words.push(default.number())?;
    push_cases(&mut words, cases)?;
    Ok(words)
}

/// Adds an OpSwitch of at most 16,383 cases.
pub fn push_op_switch(
    alloc: Global,
    insts: &mut InstList,
    selector: Id,
    default: Id,
    cases: &[Case],
) -> Result<(), NoMemory>
    requires { length cases.now ≤ 16383 }
    ensures { OnOk result (words_of insts.new ≡ words_of insts.old ++ instruction op.SWITCH (selector ∷ default ∷ pair_words (map case_of cases.now)) ∷ []) }
{
    let words = words_of_switch(alloc, selector, default, cases)?;
    push_words(alloc, insts, &words)
}
