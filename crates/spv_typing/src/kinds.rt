ghost use Rattle.std.specs.Prelude.{◌≡◌, IfOk};
ghost use Rattle.std.specs.List.{position_or_len};
ghost use Rattle.spv_module.specs.Code.{is_function};
ghost use Rattle.spv_module.specs.View.{seen};
ghost use Rattle.spv_typing.specs.Kinds as kinds;
ghost use Rattle.spv_typing.specs.Operations as operations;

use crate::shapes::Shape;
use spv_ids::Definitions;
use spv_module::{Flat, NoMemory, View};
use spv_opcodes::op;
use std::alloc::Global;
use std::marker::Model;

/// What the ids of a module stand for: which are types, and of what, and which are constants and variables. An
/// id that is defined twice stands for what its first definition says. Each word may be asked as an id.
#[derive(Debug, Drop)]
pub struct Kinds<'a> {
    definitions: Definitions<'a>,
    /// How many instructions stand before the first function.
    outside: u32,
}

impl<'a> Model for Kinds<'a> {
    ghost use Rattle.std.specs.Prelude.{◌≡◌, List};
    ghost use Rattle.std.specs.List.{position_or_len};
    ghost use Rattle.spv_module.specs.Code.{is_function};
    ghost use Rattle.spv_module.specs.Instruction.{Instruction};

    ghost Value = { List Instruction };

    ghost view = { λ all. all.definitions };

    ghost invariant = { λ all. all.outside ≡ position_or_len is_function all.definitions };
}

/// Whether the instruction begins a function.
fn begins_function(inst: &View) -> bool
    ensures { result ≡ is_function (seen inst.now) }
{
    inst.opcode() == op::FUNCTION
}

/// How many instructions stand before the first function.
fn count_outside(flat: &Flat) -> u32
    ensures { result ≡ position_or_len is_function flat.now.insts }
{
    'instructions: for k in 0..flat.count() {
        if begins_function(&flat.at(k)) {
            return k;
        }
    }
    flat.count()
}

impl<'a> Kinds<'a> {
    /// What the ids of a module stand for.
    pub fn of(alloc: Global, flat: &'a Flat) -> Result<Kinds<'a>, NoMemory>
        ensures { IfOk result (λ all. all ≡ flat.now.insts) }
    {
        Ok(Kinds {
            definitions: Definitions::of(alloc, flat)?,
            outside: count_outside(flat),
        })
    }

    /// The definitions that all this is read from.
    pub fn definitions(&self) -> &Definitions<'a>
        ensures { result.now ≡ self.now }
    {
        &self.definitions
    }

    /// Whether the id is the type void.
    pub fn is_void(&self, t: u32) -> bool
        ensures { result ≡ kinds.is_void self.now t }
    {
        self.definitions.kind(t) == op::TYPE_VOID
    }

    /// Whether the id is the type of booleans.
    pub fn is_bool(&self, t: u32) -> bool
        ensures { result ≡ kinds.is_bool self.now t }
    {
        self.definitions.kind(t) == op::TYPE_BOOL
    }

    /// Whether the id is a type of integers.
    pub fn is_int(&self, t: u32) -> bool
        ensures { result ≡ kinds.is_int self.now t }
    {
        self.definitions.kind(t) == op::TYPE_INT
    }

    /// Whether the id is a type of vectors.
    pub fn is_vector(&self, t: u32) -> bool
        ensures { result ≡ kinds.is_vector self.now t }
    {
        self.definitions.kind(t) == op::TYPE_VECTOR
    }

    /// Whether the id is a type of arrays with a length.
    pub fn is_array(&self, t: u32) -> bool
        ensures { result ≡ kinds.is_array self.now t }
    {
        self.definitions.kind(t) == op::TYPE_ARRAY
    }

    /// Whether the id is a type of runtime arrays.
    pub fn is_runtime_array(&self, t: u32) -> bool
        ensures { result ≡ kinds.is_runtime_array self.now t }
    {
        self.definitions.kind(t) == op::TYPE_RUNTIME_ARRAY
    }

    /// Whether the id is a type of structs.
    pub fn is_struct(&self, t: u32) -> bool
        ensures { result ≡ kinds.is_struct self.now t }
    {
        self.definitions.kind(t) == op::TYPE_STRUCT
    }

    /// Whether the id is a type of pointers.
    pub fn is_pointer(&self, t: u32) -> bool
        ensures { result ≡ kinds.is_pointer self.now t }
    {
        self.definitions.kind(t) == op::TYPE_POINTER
    }

    /// The type of a vector's components. Of what is no vector, some word or 0; and so below.
    pub fn component(&self, t: u32) -> u32
        ensures { result ≡ kinds.component self.now t }
    {
        self.definitions.word(t, 2)
    }

    /// The number of a vector's components.
    pub fn component_count(&self, t: u32) -> u32
        ensures { result ≡ kinds.component_count self.now t }
    {
        self.definitions.word(t, 3)
    }

    /// The type of an array's or a runtime array's elements.
    pub fn element(&self, t: u32) -> u32
        ensures { result ≡ kinds.element self.now t }
    {
        self.definitions.word(t, 2)
    }

    /// The id of an array's length.
    pub fn length_id(&self, t: u32) -> u32
        ensures { result ≡ kinds.length_id self.now t }
    {
        self.definitions.word(t, 3)
    }

    /// The types of a struct's members.
    pub fn members(&self, t: u32) -> &'a [u32]
        ensures { result.now ≡ kinds.members self.now t }
    {
        self.definitions.words(t, 2)
    }

    /// The storage class of a pointer type, by the names of `storage_class`.
    pub fn pointer_class(&self, t: u32) -> u32
        ensures { result ≡ kinds.pointer_class self.now t }
    {
        self.definitions.word(t, 2)
    }

    /// The type that a pointer points to.
    pub fn pointee(&self, t: u32) -> u32
        ensures { result ≡ kinds.pointee self.now t }
    {
        self.definitions.word(t, 3)
    }

    /// Whether the id is a data type: booleans, integers, vectors, arrays or structs.
    pub fn is_data(&self, t: u32) -> bool
        ensures { result ≡ kinds.is_data self.now t }
    {
        matches!(
            self.definitions.kind(t),
            op::TYPE_BOOL | op::TYPE_INT | op::TYPE_VECTOR | op::TYPE_ARRAY | op::TYPE_STRUCT
        )
    }

    /// The type of a struct's last member; 0 where it has none.
    fn last_member(&self, t: u32) -> u32
        ensures { result ≡ kinds.last_id (kinds.members self.now t) }
    {
        self.members(t).last().copied().unwrap_or(0)
    }

    /// Whether the id is a type of structs that end in a runtime array.
    pub fn ends_open(&self, t: u32) -> bool
        ensures { result ≡ kinds.ends_open self.now t }
    {
        self.is_struct(t) && self.is_runtime_array(self.last_member(t))
    }

    /// Whether the id is a data type without a runtime array.
    pub fn is_closed(&self, t: u32) -> bool
        ensures { result ≡ kinds.is_closed self.now t }
    {
        self.is_data(t) && !self.ends_open(t)
    }

    /// Whether the id is a type of vectors of three integers.
    pub fn is_triple(&self, t: u32) -> bool
        ensures { result ≡ kinds.is_triple self.now t }
    {
        self.is_vector(t) && self.is_int(self.component(t)) && self.component_count(t) == 3
    }

    /// What values of the type have component by component. None where it is no scalar and no vector of
    /// scalars.
    pub fn shape(&self, t: u32) -> Option<Shape>
        ensures { result ≡ operations.shape self.now t }
    {
        if self.is_vector(t) {
            self.of_components(self.component(t), self.component_count(t))
        } else {
            self.of_components(t, 1)
        }
    }

    /// So many components of a type. None where it is no scalar.
    fn of_components(&self, component: u32, count: u32) -> Option<Shape>
        ensures { result ≡ operations.of_components self.now component count }
    {
        if self.is_bool(component) {
            Some(Shape {
                is_boolean: true,
                count,
            })
        } else if self.is_int(component) {
            Some(Shape {
                is_boolean: false,
                count,
            })
        } else {
            None
        }
    }

    /// The type of a constant or a variable.
    pub fn type_of(&self, id: u32) -> u32
        ensures { result ≡ kinds.type_of self.now id }
    {
        self.definitions.word(id, 1)
    }

    /// Whether the id is a constant that an OpSpec instruction defines.
    pub fn is_spec(&self, id: u32) -> bool
        ensures { result ≡ kinds.is_spec self.now id }
    {
        matches!(
            self.definitions.kind(id),
            op::SPEC_CONSTANT_TRUE
                | op::SPEC_CONSTANT_FALSE
                | op::SPEC_CONSTANT
                | op::SPEC_CONSTANT_COMPOSITE
                | op::SPEC_CONSTANT_OP
        )
    }

    /// Whether the id is defined before the first function.
    fn is_outside(&self, id: u32) -> bool
        ensures { result ≡ kinds.is_outside self.now id }
    {
        match self.definitions.place(id) {
            Some(place) => place < self.outside,
            None => false,
        }
    }

    /// Whether the id is a constant. OpUndef outside functions is one.
    pub fn is_constant(&self, id: u32) -> bool
        ensures { result ≡ kinds.is_constant self.now id }
    {
        match self.definitions.kind(id) {
            op::CONSTANT_TRUE
            | op::CONSTANT_FALSE
            | op::CONSTANT
            | op::CONSTANT_COMPOSITE
            | op::CONSTANT_NULL
            | op::SPEC_CONSTANT_TRUE
            | op::SPEC_CONSTANT_FALSE
            | op::SPEC_CONSTANT
            | op::SPEC_CONSTANT_COMPOSITE
            | op::SPEC_CONSTANT_OP => true,
            op::UNDEF => self.is_outside(id),
            _ => false,
        }
    }

    /// Whether the id is a constant of a type.
    pub fn has_type(&self, t: u32, id: u32) -> bool
        ensures { result ≡ kinds.has_type self.now t id }
    {
        self.is_constant(id) && self.type_of(id) == t
    }

    /// Whether the id is a variable of a storage class, by the names of `storage_class`; a global one or a
    /// function's.
    pub fn is_variable_of(&self, class: u32, id: u32) -> bool
        ensures { result ≡ kinds.is_variable_of self.now class id }
    {
        self.definitions.kind(id) == op::VARIABLE && self.definitions.word(id, 3) == class
    }
}
