use crate::modules::module;
use spv_base::{Id, NoMemory};
use spv_draft::Draft;
use spv_module::{Flat, Inst};
use spv_placing::check_size;
use std::alloc::Global;
use std::test::Fail;
use test_texts::numbers;

/// A compute shader that doubles each number of a buffer: one block, 21 ids.
const DOUBLING: &str = "
0x07230203 0x00010600 0 22 0 0x00020011 1 0x0003000e 0 1 0x0007000f 5 1 0x6e69616d 0 2 3
0x00060010 1 17 64 1 1 0x00030003 2 450 0x00040005 1 0x6e69616d 0 0x00040047 2 11 28
0x00040047 3 34 0 0x00040047 3 33 0 0x00030047 4 2 0x00050048 4 0 35 0 0x00040047 5 6 4 0x00020013 6
0x00030021 7 6 0x00040015 8 32 0 0x00040017 9 8 3 0x00040020 10 1 9 0x0003001d 5 8 0x0003001e 4 5
0x00040020 11 12 4 0x00040020 12 12 8 0x00040020 13 1 8 0x0004002b 8 14 0 0x0004002b 8 15 2
0x0004003b 10 2 1 0x0004003b 11 3 12 0x00050036 6 1 0 7 0x000200f8 16 0x00050041 13 17 2 14
0x0004003d 8 18 17 0x00060041 12 19 3 14 18 0x0004003d 8 20 19 0x00050084 8 21 20 15
0x0003003e 19 21 0x000100fd 0x00010038
";

/// A change of a draft.
#[derive(Clone, Copy, Debug)]
enum Edit {
    /// Takes an instruction out.
    Remove(u32),
    /// Puts a copy of an instruction of the shader in, at a place.
    Insert(u32, u32),
    /// Replaces an instruction by a copy of one of the shader.
    Put(u32, u32),
    /// Puts one id for another.
    Replace(u32, u32),
}

/// The shader.
fn shader(alloc: Global) -> Result<Option<Flat>, NoMemory> {
    match numbers(alloc, DOUBLING) {
        Ok(words) => Ok(module(alloc, words.as_slice())),
        Err(_) => Err(NoMemory),
    }
}

/// Makes a change, where its places are there.
fn change(alloc: Global, draft: &mut Draft, flat: &Flat, edit: Edit) -> Result<(), NoMemory> {
    match edit {
        Edit::Remove(k) => {
            if k < draft.count() {
                draft.remove(k);
            }
        }
        Edit::Insert(from, k) => {
            if from < flat.count() && k <= draft.count() {
                draft.insert(k, Inst::new(alloc, flat.at(from).words)?)?;
            }
        }
        Edit::Put(from, k) => {
            if from < flat.count() && k < draft.count() {
                draft.put(k, Inst::new(alloc, flat.at(from).words)?)?;
            }
        }
        Edit::Replace(from, to) => {
            if let (Some(from), Some(to)) = (Id::new(from), Id::new(to)) {
                draft.replace(from, to);
            }
        }
    }
    Ok(())
}

/// What is asked of a draft after edits: its name, the edits, the number of instructions, how often 15 is used, the first
/// fresh id, and the bound.
type Case = (&'static str, &'static [Edit], u32, u32, u32, u32);

const CASES: [Case; 6] = [
    ("as it is", &[], 36, 1, 22, 22),
    ("no multiplication", &[Edit::Remove(32)], 35, 0, 22, 22),
    (
        "nor its store",
        &[Edit::Remove(33), Edit::Remove(32)],
        34,
        0,
        21,
        21,
    ),
    (
        "the multiplication twice",
        &[Edit::Insert(32, 33)],
        37,
        2,
        22,
        22,
    ),
    (
        "the multiplication in place of the load",
        &[Edit::Put(32, 31)],
        36,
        2,
        22,
        22,
    ),
    (
        "15 for 20, and 30 for 21",
        &[Edit::Replace(20, 15), Edit::Replace(21, 30)],
        36,
        2,
        22,
        31,
    ),
];

/// The draft of the shader after the edits of a case, which take instructions from the shader.
fn drafted(alloc: Global, flat: &Flat, edits: &[Edit]) -> Result<Option<Draft>, NoMemory> {
    let Some(own) = shader(alloc)? else {
        return Ok(None);
    };
    check_size(&own)?;
    let mut draft = Draft::of(own);
    for edit in edits {
        change(alloc, &mut draft, flat, *edit)?;
    }
    Ok(Some(draft))
}

/// Whether 15 is used so often.
fn uses(alloc: Global, draft: &Draft, used: u32) -> Result<bool, NoMemory> {
    let uses = draft.uses(alloc)?;
    Ok(Id::new(15).is_some_and(|id| uses.of(id) == used))
}

/// Whether the next fresh id is this.
fn gives(draft: &mut Draft, fresh: u32) -> bool {
    draft.fresh().ok().map(|id| id.number()) == Some(fresh)
}

/// Whether the draft, after two fresh ids, becomes a module of so many instructions under this bound.
fn becomes(draft: Draft, count: u32, bound: u32) -> bool {
    if !draft.is_bounded() {
        return false;
    }
    let made = draft.finish();
    made.count() == count && made.header().bound == bound
}

/// Whether the draft of a case has what is asked of it. Behind the fresh id 21 comes 22, and behind 22 comes 23.
fn is_right(alloc: Global, flat: &Flat, case: &Case) -> Result<bool, NoMemory> {
    let Some(mut draft) = drafted(alloc, flat, case.1)? else {
        return Ok(false);
    };
    if draft.count() != case.2 || !uses(alloc, &draft, case.3)? {
        return Ok(false);
    }
    let second = if case.4 == 21 { 22 } else { 23 };
    if !gives(&mut draft, case.4) || !gives(&mut draft, second) {
        return Ok(false);
    }
    Ok(becomes(draft, case.2, case.5))
}

#[test]
fn changes_are_seen_in_uses_fresh_ids_and_the_bound(rt: HostRuntime) -> Result<(), Fail> {
    let read = shader(rt.alloc())?;
    assert!(rt; read.is_some());
    if let Some(flat) = &read {
        'cases: for case in CASES.as_slice() {
            let name = case.0;
            assert!(rt; is_right(rt.alloc(), flat, case)?, "{name}");
        }
    }
    Ok(())
}
