ghost use Rattle.std.specs.Prelude.{◌≡◌, cond, [], Some, None, IfOk, slice_index};
ghost use Rattle.spv_module.specs.View.{seen};
ghost use Rattle.spv_repeats.specs.Marks.{AreMarks};
ghost use Rattle.spv_repeats.specs.Repeats.{is_one_of, single_decorations, is_decorate, is_member_decorate, is_spec_id, is_workgroup_size as workgroup_size_in, repeats, repeats_before, repeats_on_member, repeats_on_target, repeats_spec_id, repeats_workgroup_size};
ghost use Rattle.spv_repeats.specs.Steps.{Follows, HasDecorations, HasMembers, HasSpecIds, HasTargets, HasWorkgroupSize};

use crate::keys::add;
use crate::marks::Marks;
use crate::words::word;
use spv_module::{InstList, NoMemory, View};
use spv_opcodes::{builtin, decoration, op};
use std::alloc::Global;
use std::collections::BTreeSet;

/// What is kept of the decorations that were seen.
#[derive(Debug, Drop)]
struct Decorations {
    /// The target and the decoration, of OpDecorate.
    targets: BTreeSet<(u32, u32)>,
    /// The struct, the member and the decoration, of OpMemberDecorate.
    members: BTreeSet<(u32, u32, u32)>,
    /// The SpecIds.
    spec_ids: BTreeSet<u32>,
    /// Whether something is the workgroup size.
    workgroup_size: bool,
}

/// Whether a decoration of this kind may stand only once on a target or a member.
fn is_single(kind: u32) -> bool
    ensures { result ≡ is_one_of single_decorations kind }
{
    matches!(
        kind,
        decoration::OFFSET
            | decoration::ARRAY_STRIDE
            | decoration::SPEC_ID
            | decoration::BUILTIN
            | decoration::BINDING
            | decoration::DESCRIPTOR_SET
    )
}

/// The target and the decoration, of OpDecorate.
fn target_of(inst: &View) -> Option<(u32, u32)>
    ensures { result ≡ cond (is_decorate (seen inst.now)) (Some (slice_index (seen inst.now).words 1, slice_index (seen inst.now).words 2)) None }
{
    if inst.opcode() == op::DECORATE {
        Some((word(inst, 1), word(inst, 2)))
    } else {
        None
    }
}

/// The struct, the member and the decoration, of OpMemberDecorate.
fn member_of(inst: &View) -> Option<(u32, u32, u32)>
    ensures { result ≡ cond (is_member_decorate (seen inst.now)) (Some (slice_index (seen inst.now).words 1, slice_index (seen inst.now).words 2, slice_index (seen inst.now).words 3)) None }
{
    if inst.opcode() == op::MEMBER_DECORATE {
        Some((word(inst, 1), word(inst, 2), word(inst, 3)))
    } else {
        None
    }
}

/// The SpecId that an instruction gives.
fn spec_id_of(inst: &View) -> Option<u32>
    ensures { result ≡ cond (is_spec_id (seen inst.now)) (Some (slice_index (seen inst.now).words 3)) None }
{
    if inst.opcode() == op::DECORATE && word(inst, 2) == decoration::SPEC_ID {
        Some(word(inst, 3))
    } else {
        None
    }
}

/// Whether an instruction says of something that it is the workgroup size.
fn is_workgroup_size(inst: &View) -> bool
    ensures { result ≡ workgroup_size_in (seen inst.now) }
{
    inst.opcode() == op::DECORATE
        && word(inst, 2) == decoration::BUILTIN
        && word(inst, 3) == builtin::WORKGROUP_SIZE
}

/// Adds a decoration of a target. Whether it was there and may be there once.
fn add_target(targets: &mut BTreeSet<(u32, u32)>, inst: &View) -> Result<bool, NoMemory>
    ensures { IfOk result (λ again. Follows HasTargets repeats_on_target targets.old targets.new (seen inst.now) again) }
{
    let known = add(targets, target_of(inst))?;
    Ok(known && is_single(word(inst, 2)))
}

/// Adds a decoration of a member. Whether it was there and may be there once.
fn add_member(members: &mut BTreeSet<(u32, u32, u32)>, inst: &View) -> Result<bool, NoMemory>
    ensures { IfOk result (λ again. Follows HasMembers repeats_on_member members.old members.new (seen inst.now) again) }
{
    let known = add(members, member_of(inst))?;
    Ok(known && is_single(word(inst, 3)))
}

/// Adds a SpecId. Whether it was there.
fn add_spec_id(spec_ids: &mut BTreeSet<u32>, inst: &View) -> Result<bool, NoMemory>
    ensures { IfOk result (λ again. Follows HasSpecIds repeats_spec_id spec_ids.old spec_ids.new (seen inst.now) again) }
{
    add(spec_ids, spec_id_of(inst))
}

/// Takes note of the workgroup size. Whether it was there.
fn add_workgroup_size(known: &mut bool, inst: &View) -> bool
    ensures { Follows HasWorkgroupSize repeats_workgroup_size known.old known.new (seen inst.now) result }
{
    let is_size = is_workgroup_size(inst);
    let again = is_size && *known;
    *known = *known || is_size;
    again
}

impl Decorations {
    /// No decorations.
    fn new(alloc: Global) -> Decorations
        ensures { HasDecorations result [] }
    {
        Decorations {
            targets: BTreeSet::new(alloc),
            members: BTreeSet::new(alloc),
            spec_ids: BTreeSet::new(alloc),
            workgroup_size: false,
        }
    }

    /// Adds what an instruction decorates. Whether it was there and may be there once.
    fn add(&mut self, inst: &View) -> Result<bool, NoMemory>
        ensures { IfOk result (λ again. Follows HasDecorations repeats self.old self.new (seen inst.now) again) }
    {
        let on_target = add_target(&mut self.targets, inst)?;
        let on_member = add_member(&mut self.members, inst)?;
        let spec_id = add_spec_id(&mut self.spec_ids, inst)?;
        let size = add_workgroup_size(&mut self.workgroup_size, inst);
        Ok(on_target || on_member || spec_id || size)
    }
}

/// Marks each decoration that stands before: on its target or member, where one decoration of its kind may
/// stand there; a SpecId on any target; the workgroup size on anything.
pub fn repeated_decorations(alloc: Global, insts: &InstList) -> Result<Marks, NoMemory>
    ensures { IfOk result (λ marks. AreMarks repeats_before insts.now marks) }
{
    let mut seen = Decorations::new(alloc);
    let mut marks = Marks::new(alloc);
    'instructions: for k in 0..insts.count() {
        let again = seen.add(&insts.at(k))?;
        marks.push(again)?;
    }
    Ok(marks)
}
