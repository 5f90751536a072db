ghost use Rattle.std.specs.Prelude.{◌≡◌, ℕ, ◌<◌, [], ◌∷◌, map, IfOk};
ghost use Rattle.std.specs.List.{flat_map};
ghost use Rattle.spv_bodies.specs.Bodies.{Enters};
ghost use Rattle.spv_bodies.specs.Facts.{chosen, of_body, returns};
ghost use Rattle.spv_tree.specs.declared.body.Item.{Choice as AChoice};
ghost use Rattle.spv_tree.specs.Tree.{arm_body, body_of, front_of, item_then};
ghost use Rattle.spv_tree.specs.Sound.{IsSound, opcode_in};
ghost use Rattle.spv_editing.specs.Facts.{dropping, leaving, replacing};
ghost use Rattle.spv_editing.specs.Showing.{ids_shown, words_shown};

use spv_base::{Id, NoMemory};
use spv_editing::{Editor, Visitor, edit, visit};
use spv_module::{Inst, InstList};
use spv_opcodes::op;
use spv_tree::{
    Arm, Block, Body, Case, Choice, Control, End, Entered, Entry, Exit, Front, Item, Leaving, Loop,
    Next, Opening, Parameter, Sequence, Split, Switch, flatten,
};
use sqlite_items::Items;
use std::alloc::Global;
use std::test::Fail;

// ---- editors and a visitor

/// Puts one id in the place of another.
#[derive(Drop)]
struct Replacer {
    old: Id,
    new: Id,
}

impl Editor for Replacer {
    ghost edit = { λ r. replacing r.old r.new };

    fn step(&self, _alloc: Global, inst: Inst, made: &mut Vec<Inst>) -> Result<(), NoMemory> {
        made.push(inst)?;
        Ok(())
    }

    fn used(&self, id: Id) -> Id {
        if id == self.old { self.new } else { id }
    }
}

/// Drops the instructions of one opcode.
#[derive(Drop)]
struct Dropper {
    opcode: u16,
}

impl Editor for Dropper {
    ghost edit = { λ d. dropping d.opcode };

    fn step(&self, _alloc: Global, inst: Inst, made: &mut Vec<Inst>) -> Result<(), NoMemory> {
        if inst.opcode() != self.opcode {
            made.push(inst)?;
        }
        Ok(())
    }

    fn used(&self, id: Id) -> Id {
        id
    }
}

/// The opcodes and the ids that it was shown.
#[derive(Drop)]
struct Collector {
    opcodes: Vec<u16>,
    ids: Vec<u32>,
}

impl Visitor for Collector {
    ghost has_seen = { λ c list. (c.opcodes.items ≡ map opcode_in (flat_map words_shown list)) × (c.ids.items ≡ flat_map ids_shown list) };

    fn step(&mut self, inst: &Inst) -> Result<(), NoMemory> {
        self.opcodes.push(inst.opcode())?;
        Ok(())
    }

    fn used(&mut self, id: Id) -> Result<(), NoMemory> {
        self.ids.push(id.number())?;
        Ok(())
    }
}

// ---- a function with each kind of item

fn id(number: u32) -> Id
    requires { 0 < number }
    ensures { result ≡ number }
{
    let Some(id) = Id::new(number) else {
        unreachable!();
    };
    id
}

fn no_control() -> Control
    ensures { result ≡ 0 }
{
    let Some(control) = Control::new(0) else {
        unreachable!();
    };
    control
}

// %20 = OpUndef %9
#[tactic(auto, using(crate::proofs::Samples::undefined_unbroken))]
fn undefined(alloc: Global) -> Result<Inst, NoMemory> {
    Inst::new(alloc, &[0x0003_0001, 9, 20])
}

// %21 = OpCopyObject %9 %20
#[tactic(auto, using(crate::proofs::Samples::copied_unbroken))]
fn copied(alloc: Global) -> Result<Inst, NoMemory> {
    Inst::new(alloc, &[0x0004_0053, 9, 21, 20])
}

// OpFunction %2 = %1 of the type %3
#[tactic(auto, using(crate::proofs::Samples::function_unbroken))]
fn function(alloc: Global) -> Result<Inst, NoMemory>
    ensures { IfOk result (λ inst. inst.words ≡ 0x0005_0036 ∷ 2 ∷ 1 ∷ 0 ∷ 3 ∷ []) }
{
    Inst::new(alloc, &[0x0005_0036, 2, 1, 0, 3])
}

// A branch that carries a value.
fn exit(alloc: Global, target: u32, value: u32) -> Result<Exit, NoMemory>
    requires target { 0 < target }
    requires value { 0 < value }
{
    Ok(Exit {
        target: id(target),
        values: Items::from_slice(alloc, &[id(value)])?,
    })
}

fn front(alloc: Global, label: u32) -> Front
    requires { 0 < label }
{
    Front {
        label: id(label),
        parameters: Items::new(alloc),
    }
}

// An arm with the two instructions, which leaves with a value.
fn block(alloc: Global, label: u32, target: u32, value: u32) -> Result<Block, NoMemory>
    requires label { 0 < label }
    requires target { 0 < target }
    requires value { 0 < value }
{
    let mut items = Items::new(alloc);
    items.push(Item::Op(undefined(alloc)?))?;
    items.push(Item::Op(copied(alloc)?))?;
    Ok(Block {
        label: id(label),
        body: Sequence {
            items,
            end: End::Exit(exit(alloc, target, value)?),
        },
    })
}

fn choice(alloc: Global) -> Result<Choice, NoMemory> {
    Ok(Choice {
        control: no_control(),
        condition: id(5),
        first: Arm::Block(block(alloc, 6, 7, 10)?),
        second: Arm::Exit(exit(alloc, 7, 11)?),
        merge: front(alloc, 7),
    })
}

fn switch(alloc: Global) -> Result<Switch, NoMemory> {
    let mut others = Items::new(alloc);
    others.push(Arm::Block(block(alloc, 23, 25, 12)?))?;
    others.push(Arm::Loop(entered(alloc)?))?;
    Ok(Switch {
        control: no_control(),
        selector: id(22),
        cases: Items::from_slice(
            alloc,
            &[
                Case {
                    literal: 1,
                    target: id(23),
                },
                Case {
                    literal: 2,
                    target: id(40),
                },
            ],
        )?,
        first: Arm::Exit(exit(alloc, 25, 13)?),
        others,
        merge: front(alloc, 25),
    })
}

// A loop as an arm: its opening leaves conditionally.
fn entered(alloc: Global) -> Result<Entered, NoMemory> {
    let opening = Opening::Split(Leaving {
        condition: id(5),
        on: true,
        exit: exit(alloc, 42, 14)?,
        arm: Arm::Block(block(alloc, 43, 41, 15)?),
    });
    let turn = turn(
        alloc,
        40,
        Entry::Branch(Items::from_slice(alloc, &[id(16)])?),
        opening,
    )?;
    Ok(Entered {
        turn: Box::new(alloc, turn)?,
        rest: Sequence {
            items: Items::new(alloc),
            end: End::Exit(exit(alloc, 25, 17)?),
        },
    })
}

// A loop with this header, the continue target behind it and the merge block behind that. Its header has one instruction.
fn turn(alloc: Global, header: u32, entry: Entry, opening: Opening) -> Result<Loop, NoMemory>
    requires some { 0 < header }
    requires small { header < 1000 }
{
    let mut steps = Items::new(alloc);
    steps.push(copied(alloc)?)?;
    Ok(Loop {
        entry,
        header: front(alloc, header),
        steps,
        control: no_control(),
        opening,
        next: front(alloc, header + 1),
        continuing: Sequence {
            items: Items::new(alloc),
            end: End::Exit(exit(alloc, header, 18)?),
        },
        merge: front(alloc, header + 2),
    })
}

fn split(alloc: Global) -> Result<Split, NoMemory> {
    Ok(Split {
        condition: id(5),
        on: false,
        exit: exit(alloc, 25, 19)?,
        next: Next::Block(id(60)),
    })
}

fn sample(alloc: Global) -> Result<Body, NoMemory> {
    let mut items = Items::new(alloc);
    items.push(Item::Op(undefined(alloc)?))?;
    items.push(Item::Choice(choice(alloc)?))?;
    items.push(Item::Switch(switch(alloc)?))?;
    let opening = Opening::Branch(Arm::Exit(exit(alloc, 26, 27)?));
    items.push(Item::Loop(turn(alloc, 25, Entry::InPlace, opening)?))?;
    items.push(Item::Split(split(alloc)?))?;
    Ok(Body {
        function: function(alloc)?,
        parameters: InstList::new(alloc),
        label: id(4),
        sequence: Sequence {
            items,
            end: End::ReturnValue(id(5)),
        },
    })
}

fn collected(alloc: Global, body: &Body) -> Result<Collector, NoMemory> {
    let mut collector = Collector {
        opcodes: Vec::new(alloc),
        ids: Vec::new(alloc),
    };
    visit(&mut collector, body)?;
    Ok(collector)
}

// ---- down to the instructions

// An arm with this label that leaves for %7 with a value.
fn arm(alloc: Global, label: Id, value: Id) -> Result<Arm, NoMemory>
    ensures { IfOk result (λ arm. arm_body arm ≡ Enters label (leaving value)) }
{
    let values = Items::from_slice(alloc, &[value])?;
    let exit = Exit {
        target: id(7),
        values,
    };
    let body = Sequence {
        items: Items::new(alloc),
        end: End::Exit(exit),
    };
    Ok(Arm::Block(Block { label, body }))
}

// The front %7 with the parameter %8.
fn merging(alloc: Global) -> Result<Front, NoMemory>
    ensures { IfOk result (λ front. front_of front ≡ record { label = 7; parameters = record { type = 9; result_id = 8; parents = 12 ∷ [] } ∷ [] }) }
{
    let mut parameters = Items::new(alloc);
    parameters.push(Parameter {
        type_id: id(9),
        result_id: id(8),
        parents: Items::from_slice(alloc, &[id(12)])?,
    })?;
    Ok(Front {
        label: id(7),
        parameters,
    })
}

fn selection(alloc: Global) -> Result<Choice, NoMemory>
    ensures { IfOk result (λ choice. item_then (AChoice choice) returns ≡ chosen) }
{
    Ok(Choice {
        control: no_control(),
        condition: id(5),
        first: arm(alloc, id(6), id(10))?,
        second: arm(alloc, id(12), id(11))?,
        merge: merging(alloc)?,
    })
}

// A selection whose arms carry %10 and %11 to its merge block.
fn selecting(alloc: Global) -> Result<Body, NoMemory>
    ensures { IfOk result (λ body. body_of body ≡ of_body chosen) }
{
    let mut items = Items::new(alloc);
    items.push(Item::Choice(selection(alloc)?))?;
    Ok(Body {
        function: function(alloc)?,
        parameters: InstList::new(alloc),
        label: id(4),
        sequence: Sequence {
            items,
            end: End::Return,
        },
    })
}

// The same with %50 for %10.
fn replaced(alloc: Global) -> Result<Body, NoMemory>
    ensures { IfOk result (λ body. IsSound (body_of body)) }
{
    let replacer = Replacer {
        old: id(10),
        new: id(50),
    };
    let body = edit(alloc, &replacer, selecting(alloc)?)?;
    Ok(body)
}

// The words of the function's instructions.
fn words_listed(alloc: Global, body: &Body) -> Result<Vec<u32>, NoMemory>
    requires { IsSound (body_of body.now) }
{
    let insts = flatten(alloc, body)?;
    let mut words = Vec::new(alloc);
    for k in 0..insts.count() {
        words.extend_from_slice(insts.at(k).words)?;
    }
    Ok(words)
}

// ---- tests

const OPCODES: [u16; 9] = [
    op::UNDEF,
    op::UNDEF,
    op::COPY_OBJECT,
    op::UNDEF,
    op::COPY_OBJECT,
    op::COPY_OBJECT,
    op::UNDEF,
    op::COPY_OBJECT,
    op::COPY_OBJECT,
];

const IDS: [u32; 17] = [
    5, 10, 11, 22, 13, 12, 16, 5, 14, 15, 18, 17, 27, 18, 5, 19, 5,
];

/// The ids with %50 for %5.
const REPLACED: [u32; 17] = [
    50, 10, 11, 22, 13, 12, 16, 50, 14, 15, 18, 17, 27, 18, 50, 19, 50,
];

/// The words of the function whose branch carries %50.
const LISTED: [u32; 33] = [
    0x0005_0036,
    2,
    1,
    0,
    3,
    0x0002_00f8,
    4,
    0x0003_00f7,
    7,
    0,
    0x0004_00fa,
    5,
    6,
    12,
    0x0002_00f8,
    6,
    0x0002_00f9,
    7,
    0x0002_00f8,
    12,
    0x0002_00f9,
    7,
    0x0002_00f8,
    7,
    0x0007_00f5,
    9,
    8,
    11,
    12,
    50,
    6,
    0x0001_00fd,
    0x0001_0038,
];

/// Whether a visitor is shown instructions of these opcodes and these ids.
fn shows(alloc: Global, body: &Body, opcodes: &[u16], ids: &[u32]) -> Result<bool, NoMemory> {
    let seen = collected(alloc, body)?;
    Ok(seen.opcodes.as_slice() == opcodes && seen.ids.as_slice() == ids)
}

/// Whether it is shown all of the function.
fn shows_all(alloc: Global) -> Result<bool, NoMemory> {
    let body = sample(alloc)?;
    shows(alloc, &body, &OPCODES, &IDS)
}

/// Whether %50 is in the place of %5 wherever %5 is used.
fn shows_replaced(alloc: Global) -> Result<bool, NoMemory> {
    let replacer = Replacer {
        old: id(5),
        new: id(50),
    };
    let body = edit(alloc, &replacer, sample(alloc)?)?;
    Ok(body.label.number() == 4 && body.depth() == 2 && shows(alloc, &body, &OPCODES, &REPLACED)?)
}

/// Whether instructions of one opcode are gone, and all else is there.
fn shows_dropped(alloc: Global) -> Result<bool, NoMemory> {
    let dropper = Dropper { opcode: op::UNDEF };
    let body = edit(alloc, &dropper, sample(alloc)?)?;
    shows(alloc, &body, &[op::COPY_OBJECT; 5], &IDS)
}

/// Whether an edited function is listed with the other id.
fn lists_replaced(alloc: Global) -> Result<bool, NoMemory> {
    let body = replaced(alloc)?;
    let words = words_listed(alloc, &body)?;
    Ok(words.as_slice() == LISTED.as_slice())
}

#[test]
fn functions_are_walked(rt: HostRuntime) -> Result<(), Fail> {
    let alloc = rt.alloc();
    assert!(rt; shows_all(alloc)?, "each item is shown in order");
    assert!(rt;
        shows_replaced(alloc)?,
        "an id is replaced where it is used"
    );
    assert!(rt;
        shows_dropped(alloc)?,
        "instructions of an opcode are dropped"
    );
    assert!(rt; lists_replaced(alloc)?, "an edited function is listed");
    Ok(())
}
