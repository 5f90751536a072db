ghost use Rattle.std.specs.Prelude.{◌≡◌, ◌≤◌};
ghost use Rattle.spv_module.specs.Code.{is_line as line_in, plain_section as section_of_plain};
ghost use Rattle.spv_module.specs.First.{first, least};
ghost use Rattle.spv_module.specs.Layout.{is_terminator as terminator_in, is_memory_model as memory_model_in, is_capability as capability_in, is_entry_point as entry_point_in, behind as place_behind_one, fits_place as fits, group_2, RisesTo};
ghost use Rattle.spv_module.specs.View.{seen};

use crate::list::InstList;
use crate::view::View;
use spv_base::{Refusal, rule};
use spv_grammar::section;
use spv_grammar::table::row_of;
use spv_opcodes::op;

/// Where an instruction stands.
#[derive(Clone, Copy, Debug, PartialEq, Eq)]
pub enum Place {
    /// Outside functions.
    Outside,
    /// Behind an OpFunction and its parameters, before the first block.
    Head,
    /// Between the blocks of a function, or behind the last.
    Between,
    /// In a block.
    Inside,
}

/// What the rules on the layout ask of the instructions before one.
#[derive(Clone, Copy, Debug)]
pub struct Layout {
    /// A function has begun.
    begun: bool,
    /// The last section that has begun.
    section: u8,
    has_capability: bool,
    has_memory_model: bool,
    has_entry_point: bool,
    place: Place,
}

/// Whether the instruction marks a line or the end of such marks.
pub fn is_line(inst: &View) -> bool
    ensures { result ≡ line_in (seen inst.now) }
{
    matches!(inst.opcode(), op::LINE | op::NO_LINE)
}

/// Whether the instruction ends a block.
pub fn is_terminator(inst: &View) -> bool
    ensures { result ≡ terminator_in (seen inst.now) }
{
    matches!(
        inst.opcode(),
        op::BRANCH
            | op::BRANCH_CONDITIONAL
            | op::SWITCH
            | op::RETURN
            | op::RETURN_VALUE
            | op::UNREACHABLE
    )
}

/// The section of an instruction that is no line mark, before or after a function has begun.
pub fn plain_section(begun: bool, inst: &View) -> u8
    ensures { result ≡ section_of_plain begun (seen inst.now) }
{
    let opcode = inst.opcode();
    if begun && matches!(opcode, op::VARIABLE | op::UNDEF) {
        return section::FUNCTIONS;
    }
    match row_of(opcode) {
        Some(row) => row.section,
        None => section::ANYWHERE,
    }
}

/// The place behind an instruction.
fn behind(place: Place, inst: &View) -> Place
    ensures { result ≡ place_behind_one place (seen inst.now) }
{
    match inst.opcode() {
        op::FUNCTION => Place::Head,
        op::FUNCTION_END => Place::Outside,
        op::LABEL => Place::Inside,
        _ if is_terminator(inst) => Place::Between,
        _ => place,
    }
}

/// Whether an instruction of this section may stand at the place.
fn fits_place(place: Place, section: u8, inst: &View) -> bool
    ensures { result ≡ fits place section (seen inst.now) }
{
    match inst.opcode() {
        op::FUNCTION => matches!(place, Place::Outside),
        op::FUNCTION_PARAMETER => matches!(place, Place::Head),
        op::FUNCTION_END => matches!(place, Place::Between | Place::Inside),
        op::LABEL => !matches!(place, Place::Outside),
        _ => section != section::FUNCTIONS || matches!(place, Place::Inside),
    }
}

impl Layout {
    ghost use Rattle.std.specs.Prelude.{◌≡◌, None};
    ghost use Rattle.spv_module.specs.First.{at_place, unless};
    ghost use Rattle.spv_module.specs.Layout.{is_outside};
    ghost use Rattle.spv_module.specs.LayoutSteps.{kept_rules, kept_behind, kept_missing, nothing_kept};

    /// Before the first instruction.
    fn new() -> Layout
        ensures { result ≡ nothing_kept }
    {
        Layout {
            begun: false,
            section: section::ANYWHERE,
            has_capability: false,
            has_memory_model: false,
            has_entry_point: false,
            place: Place::Outside,
        }
    }

    /// The least rule on the layout that the next instruction breaks.
    fn broken_rule(&self, inst: &View) -> Option<u16>
        ensures { result ≡ least (kept_rules self.now (seen inst.now)) }
    {
        let section = plain_section(self.begun, inst);
        if section < self.section {
            Some(rule::LAYOUT_ORDER)
        } else if self.has_memory_model && inst.opcode() == op::MEMORY_MODEL {
            Some(rule::MISSING_MEMORY_MODEL)
        } else if !fits_place(self.place, section, inst) {
            Some(rule::FUNCTION_SHAPE)
        } else {
            None
        }
    }

    /// The same with the place of the instruction.
    fn refusal(&self, inst: &View) -> Option<Refusal>
        ensures { result ≡ at_place inst.now.offset (least (kept_rules self.now (seen inst.now))) None }
    {
        let rule = self.broken_rule(inst)?;
        Some(Refusal {
            rule,
            at: inst.offset,
        })
    }

    /// Behind the next instruction.
    fn behind(&self, inst: &View) -> Layout
        ensures { result ≡ kept_behind self.now (seen inst.now) }
    {
        let opcode = inst.opcode();
        Layout {
            begun: self.begun || opcode == op::FUNCTION,
            section: self.section.max(plain_section(self.begun, inst)),
            has_capability: self.has_capability || opcode == op::CAPABILITY,
            has_memory_model: self.has_memory_model || opcode == op::MEMORY_MODEL,
            has_entry_point: self.has_entry_point || opcode == op::ENTRY_POINT,
            place: behind(self.place, inst),
        }
    }

    /// Refuses where an instruction that each module has is missing, at the place of the first one.
    fn missing(&self) -> Option<Refusal>
        ensures { result ≡ at_place 5 (least (kept_missing self.now)) None }
    {
        let rule = self.missing_rule()?;
        Some(Refusal { rule, at: 5 })
    }

    /// Refuses where the words end inside a function.
    fn open_end(&self, end: u32) -> Option<Refusal>
        ensures { result ≡ at_place end (least (unless (is_outside self.now.place) 205)) None }
    {
        match self.place {
            Place::Outside => None,
            _ => Some(Refusal {
                rule: rule::FUNCTION_SHAPE,
                at: end,
            }),
        }
    }

    /// The least rule of those that ask for an instruction that is missing.
    fn missing_rule(&self) -> Option<u16>
        ensures { result ≡ least (kept_missing self.now) }
    {
        if !self.has_capability {
            Some(rule::MISSING_CAPABILITY)
        } else if !self.has_memory_model {
            Some(rule::MISSING_MEMORY_MODEL)
        } else if !self.has_entry_point {
            Some(rule::MISSING_ENTRY_POINT)
        } else {
            None
        }
    }
}

/// The first rule on the layout that the instructions break. Their places rise from 5 on, and all are below
/// `end`.
pub fn broken_layout(insts: &InstList, end: u32) -> Option<Refusal>
    requires rises { RisesTo end 5 insts.now }
    requires header { 5 ≤ end }
    ensures { result ≡ first (group_2 end insts.now) }
{
    let mut layout = Layout::new();
    let mut broken = None;
    'instructions: for k in 0..insts.count() {
        let inst = insts.at(k);
        if !is_line(&inst) {
            broken = broken.or(layout.refusal(&inst));
            layout = layout.behind(&inst);
        }
    }
    layout.missing().or(broken).or(layout.open_end(end))
}
