//! Related meanings of parts give related meanings of the whole: laws over the meaning of trees alone.
//!
//! The definitions are in `specs/`; each function here has laws over them as its contract, and does nothing when it is
//! called. A law ranges over all passes: such a case is a trait's ghost member, so that a law is a function with a type
//! parameter.
#![tactic(auto)]

ghost use Rattle.spv_congruence.specs.Laws.{Pass, CongruenceLaw, MachineLaw, ModulesLaw};
ghost use Rattle.spv_congruence.specs.OneSided.{Selection, TakenLaw, GoneLaw};
ghost use Rattle.spv_congruence.specs.Identity.{SameShapeLaw, IdentityLaw};
ghost use Rattle.spv_congruence.specs.Uniform.{Edited, UniformLaw};
ghost use Rattle.spv_congruence.specs.Operands.{EffectLaw, RenamedLaw};
ghost use Rattle.spv_congruence.specs.Example.{ExampleLaw, ExampleKeeps};
ghost use Rattle.spv_congruence.specs.Small.{small_pass, small_selection, small_edits};
ghost use Rattle.spv_congruence.specs.Once.{OnceLaw, OnceKeeps};
ghost use Rattle.spv_congruence.specs.InPlace.{PlaceLaw, PlaceKeeps};

/// A pass: two programs and what is known of the one beside the other.
pub trait Editing {
    ghost pass: { Pass };
}

/// A selection of one program beside what another does.
pub trait Selecting {
    ghost selection: { Selection };
}

/// Edits that are the same at each place.
pub trait Everywhere {
    ghost edited: { Edited };
}

/// Small cases: each law stands of them too.
pub struct Small;

impl Editing for Small {
    ghost pass = { small_pass };
}

impl Selecting for Small {
    ghost selection = { small_selection };
}

impl Everywhere for Small {
    ghost edited = { small_edits };
}

/// Where a pass proves its steps, and the functions of the second program are those of the first with its edits, the
/// functions keep accesses.
pub fn congruence_law<P: Editing>()
    ensures { CongruenceLaw P.pass }
{}

/// What the trees of two entry points keep, the stated machines keep.
pub fn machine_law<P: Editing>()
    ensures { MachineLaw P.pass }
{}

/// A selection whose condition is decided is the arm that is taken and what is behind it; a selection is gone where
/// either arm leads to the same.
pub fn selection_law<S: Selecting>()
    ensures taken { TakenLaw S.selection }
    ensures gone { GoneLaw S.selection }
{}

/// The pass that changes nothing: a closed body has the shape of itself, and a program keeps its own accesses.
pub fn identity_law()
    ensures shape { SameShapeLaw }
    ensures local { IdentityLaw }
{}

/// What the trees of the entry points of two modules keep, the modules keep.
pub fn modules_law()
    ensures { ModulesLaw }
{}

/// A small pass, which leaves out a load, drops a copy and takes a selection that is decided, proves its steps, and so
/// its function keeps its accesses; and so do one that makes a function return once, and one that has a callee's body in
/// place of its call.
pub fn example_law()
    ensures local { ExampleLaw }
    ensures keeps { ExampleKeeps }
    ensures once_local { OnceLaw }
    ensures once_keeps { OnceKeeps }
    ensures place_local { PlaceLaw }
    ensures place_keeps { PlaceKeeps }
{}

/// An operation does what its operands' values, what is held at their places, types and the depth of the call tell; so it
/// does the same with other operands of the same values.
pub fn operands_law()
    ensures effect { EffectLaw }
    ensures renamed { RenamedLaw }
{}

/// A closed body has the shape of what edits that are the same at each place make of it.
pub fn uniform_law<E: Everywhere>()
    ensures { UniformLaw E.edited }
{}

/// The laws at small cases, as a caller gets them from their contracts.
pub fn laws_of_small()
    ensures congruence { CongruenceLaw small_pass }
    ensures machine { MachineLaw small_pass }
    ensures taken { TakenLaw small_selection }
    ensures gone { GoneLaw small_selection }
    ensures uniform { UniformLaw small_edits }
{
    congruence_law::<Small>();
    machine_law::<Small>();
    selection_law::<Small>();
    uniform_law::<Small>();
}
