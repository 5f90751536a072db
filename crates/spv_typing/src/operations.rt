ghost use Rattle.std.specs.Prelude.{◌≡◌};
ghost use Rattle.spv_module.specs.View.{seen};
ghost use Rattle.spv_typing.specs.Operations as operations;
ghost use Rattle.spv_typing.specs.declared.operations.Form.TheVariants as forms;

use crate::kinds::Kinds;
use crate::shapes::{count_of, has_shape};
use spv_ids::{word, words_from};
use spv_module::View;
use spv_opcodes::op;

/// A literal of a shuffle that picks no component.
const NO_COMPONENT: u32 = 0xFFFF_FFFF;

/// What the operands and the result of an operation on constants are. Int(c) is an integer where c is 1, or a
/// vector of c integers, and Bool(c) likewise.
#[derive(Clone, Copy, Debug, PartialEq, Eq)]
pub enum Form {
    /// So many Int(c), and Int(c).
    Ints(usize),
    /// So many Bool(c), and Bool(c).
    Bools(usize),
    /// Two Int(c), and Bool(c).
    Compares,
    /// A condition, and two of the result's type.
    Selects,
    /// Two vectors of the result's component type, and a literal for each component of the result.
    Shuffles,
    /// A composite, and literals that lead to the result's type.
    Extracts,
    /// An object, a composite of the result's type, and literals that lead to the object's type.
    Inserts,
}

/// What an operation takes and gives. None where OpSpecConstantOp may not name it.
fn form_of_opcode(opcode: u16) -> Option<Form>
    ensures { result ≡ operations.form_of opcode }
{
    match opcode {
        op::S_NEGATE | op::NOT => Some(Form::Ints(1)),
        op::I_ADD
        | op::I_SUB
        | op::I_MUL
        | op::U_DIV
        | op::S_DIV
        | op::U_MOD
        | op::S_REM
        | op::S_MOD
        | op::SHIFT_RIGHT_LOGICAL
        | op::SHIFT_RIGHT_ARITHMETIC
        | op::SHIFT_LEFT_LOGICAL
        | op::BITWISE_OR
        | op::BITWISE_XOR
        | op::BITWISE_AND => Some(Form::Ints(2)),
        op::LOGICAL_NOT => Some(Form::Bools(1)),
        op::LOGICAL_EQUAL | op::LOGICAL_NOT_EQUAL | op::LOGICAL_OR | op::LOGICAL_AND => {
            Some(Form::Bools(2))
        }
        op::I_EQUAL
        | op::I_NOT_EQUAL
        | op::U_GREATER_THAN
        | op::S_GREATER_THAN
        | op::U_GREATER_THAN_EQUAL
        | op::S_GREATER_THAN_EQUAL
        | op::U_LESS_THAN
        | op::S_LESS_THAN
        | op::U_LESS_THAN_EQUAL
        | op::S_LESS_THAN_EQUAL => Some(Form::Compares),
        op::SELECT => Some(Form::Selects),
        op::VECTOR_SHUFFLE => Some(Form::Shuffles),
        op::COMPOSITE_EXTRACT => Some(Form::Extracts),
        op::COMPOSITE_INSERT => Some(Form::Inserts),
        _ => None,
    }
}

/// What the operation that a word names takes and gives. None where OpSpecConstantOp may not name it.
pub fn form_of(word: u32) -> Option<Form>
    ensures { result ≡ operations.form_of word }
{
    match u16::try_from(word) {
        Ok(opcode) => form_of_opcode(opcode),
        Err(_) => None,
    }
}

/// Whether each is a constant of so many booleans, or else integers.
fn all_shaped(kinds: &Kinds, is_boolean: bool, count: u32, ids: &[u32]) -> bool
    ensures { result ≡ operations.all_shaped kinds.now is_boolean count ids.now }
{
    ids.iter().all(|id| {
        kinds.is_constant(*id) && has_shape(is_boolean, count, kinds.shape(kinds.type_of(*id)))
    })
}

/// Whether there are so many constants, of booleans or else integers, and the result is of booleans or else
/// integers, all with one number of components.
fn components_fit(
    kinds: &Kinds,
    operands: usize,
    of_booleans: bool,
    gives_booleans: bool,
    t: u32,
    ids: &[u32],
) -> bool
    ensures { result ≡ operations.components_fit kinds.now operands of_booleans gives_booleans t ids.now }
{
    let shape = kinds.shape(t);
    let count = count_of(shape);
    ids.len() == operands
        && has_shape(gives_booleans, count, shape)
        && all_shaped(kinds, of_booleans, count, ids)
}

/// Whether a selection's condition suits a result of so many components.
fn condition_fits(kinds: &Kinds, count: u32, condition: u32) -> bool
    ensures { result ≡ operations.condition_fits kinds.now count condition }
{
    let shape = kinds.shape(kinds.type_of(condition));
    kinds.is_constant(condition) && (has_shape(true, 1, shape) || has_shape(true, count, shape))
}

/// Whether a selection of constants has a result of this type.
fn select_fits(kinds: &Kinds, t: u32, condition: u32, first: u32, second: u32) -> bool
    ensures { result ≡ operations.select_fits kinds.now t condition first second }
{
    let shape = kinds.shape(t);
    shape.is_some()
        && condition_fits(kinds, count_of(shape), condition)
        && kinds.has_type(t, first)
        && kinds.has_type(t, second)
}

/// Whether the id is a constant vector of such components.
fn is_vector_of(kinds: &Kinds, component: u32, id: u32) -> bool
    ensures { result ≡ operations.is_vector_of kinds.now component id }
{
    let t = kinds.type_of(id);
    kinds.is_constant(id) && kinds.is_vector(t) && kinds.component(t) == component
}

/// Whether each literal of a shuffle names one of so many components, or none.
fn all_pick(components: u64, literals: &[u32]) -> bool
    ensures { result ≡ operations.all_pick components literals.now }
{
    literals.iter().all(|literal| u64::from(*literal) < components || *literal == NO_COMPONENT)
}

/// How many components two constant vectors have.
fn components_of(kinds: &Kinds, first: u32, second: u32) -> u64
    ensures { result ≡ operations.components_of kinds.now first second }
{
    u64::from(kinds.component_count(kinds.type_of(first)))
        + u64::from(kinds.component_count(kinds.type_of(second)))
}

/// Whether a shuffle of two constant vectors has a result of this type.
fn shuffle_fits(kinds: &Kinds, t: u32, first: u32, second: u32, literals: &[u32]) -> bool
    ensures { result ≡ operations.shuffle_fits kinds.now t first second literals.now }
{
    let component = kinds.component(t);
    kinds.is_vector(t)
        && is_vector_of(kinds, component, first)
        && is_vector_of(kinds, component, second)
        && literals.len() == kinds.component_count(t) as usize
        && all_pick(components_of(kinds, first, second), literals)
}

/// The type of a composite's part. None where the type has no such part.
fn part_at(kinds: &Kinds, t: u32, index: u32) -> Option<u32>
    ensures { result ≡ operations.part_at kinds.now t index }
{
    if kinds.is_struct(t) {
        kinds.members(t).get(index as usize).copied()
    } else if kinds.is_array(t) {
        Some(kinds.element(t))
    } else if kinds.is_vector(t) && index < kinds.component_count(t) {
        Some(kinds.component(t))
    } else {
        None
    }
}

/// The type of the part of a composite that literals lead to. None where they lead to none.
fn part_along(kinds: &Kinds, literals: &[u32], t: u32) -> Option<u32>
    ensures { result ≡ operations.part_along kinds.now literals.now t }
{
    let mut part = t;
    'literals: for index in literals {
        part = part_at(kinds, part, *index)?;
    }
    Some(part)
}

/// Whether one or more literals lead from one type to the other.
fn literals_lead(kinds: &Kinds, literals: &[u32], from: u32, to: u32) -> bool
    ensures { result ≡ operations.literals_lead kinds.now literals.now from to }
{
    !literals.is_empty() && part_along(kinds, literals, from) == Some(to)
}

/// Whether the part of a constant that literals lead to is a result of this type.
fn extract_fits(kinds: &Kinds, t: u32, composite: u32, literals: &[u32]) -> bool
    ensures { result ≡ operations.extract_fits kinds.now t composite literals.now }
{
    kinds.shape(t).is_some()
        && kinds.is_constant(composite)
        && literals_lead(kinds, literals, kinds.type_of(composite), t)
}

/// Whether a constant with another in place of the part that literals lead to is a result of this type.
fn insert_fits(kinds: &Kinds, t: u32, object: u32, composite: u32, literals: &[u32]) -> bool
    ensures { result ≡ operations.insert_fits kinds.now t object composite literals.now }
{
    kinds.shape(t).is_some()
        && kinds.is_constant(object)
        && kinds.has_type(t, composite)
        && literals_lead(kinds, literals, t, kinds.type_of(object))
}

fn selects_fit(kinds: &Kinds, t: u32, operands: &[u32]) -> bool
    ensures { result ≡ operations.operands_fit kinds.now forms.Selects t operands.now }
{
    match operands {
        [condition, first, second] => select_fits(kinds, t, *condition, *first, *second),
        _ => false,
    }
}

fn shuffles_fit(kinds: &Kinds, t: u32, operands: &[u32]) -> bool
    ensures { result ≡ operations.operands_fit kinds.now forms.Shuffles t operands.now }
{
    match operands {
        [first, second, literals @ ..] => shuffle_fits(kinds, t, *first, *second, literals),
        _ => false,
    }
}

fn extracts_fit(kinds: &Kinds, t: u32, operands: &[u32]) -> bool
    ensures { result ≡ operations.operands_fit kinds.now forms.Extracts t operands.now }
{
    match operands {
        [composite, literals @ ..] => extract_fits(kinds, t, *composite, literals),
        _ => false,
    }
}

fn inserts_fit(kinds: &Kinds, t: u32, operands: &[u32]) -> bool
    ensures { result ≡ operations.operands_fit kinds.now forms.Inserts t operands.now }
{
    match operands {
        [object, composite, literals @ ..] => insert_fits(kinds, t, *object, *composite, literals),
        _ => false,
    }
}

/// Whether the operands are constants that suit the form, and so does the result's type.
fn operands_fit(kinds: &Kinds, form: Form, t: u32, operands: &[u32]) -> bool
    ensures { result ≡ operations.operands_fit kinds.now form t operands.now }
{
    match form {
        Form::Ints(count) => components_fit(kinds, count, false, false, t, operands),
        Form::Bools(count) => components_fit(kinds, count, true, true, t, operands),
        Form::Compares => components_fit(kinds, 2, false, true, t, operands),
        Form::Selects => selects_fit(kinds, t, operands),
        Form::Shuffles => shuffles_fit(kinds, t, operands),
        Form::Extracts => extracts_fit(kinds, t, operands),
        Form::Inserts => inserts_fit(kinds, t, operands),
    }
}

/// Whether an OpSpecConstantOp names an operation that it may, on constants that suit it, with a result that
/// suits it: a scalar or a vector. Every other instruction fits.
#[tactic(auto, unfolding(crate::specs::Operations::spec_op_fits))]
pub fn spec_op_fits(kinds: &Kinds, inst: &View) -> bool
    ensures { result ≡ operations.spec_op_fits kinds.now (seen inst.now) }
{
    if inst.opcode() != op::SPEC_CONSTANT_OP {
        return true;
    }
    match form_of(word(inst, 3)) {
        Some(form) => operands_fit(kinds, form, word(inst, 1), words_from(inst, 4)),
        None => false,
    }
}
