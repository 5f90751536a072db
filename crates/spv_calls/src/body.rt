ghost use Rattle.std.specs.Prelude.{◌≡◌, ◌<◌, ◌&&◌, ◌+◌, ◌++◌, ◌∷◌, [], IfOk, OnOk, Some, cond, length, drop, slice_get};
ghost use Rattle.std.specs.List.{zip};
ghost use Rattle.spv_module.specs.View.{seen};
ghost use Rattle.spv_ids.specs.Ids.{is_needed as needed};
ghost use Rattle.spv_calls.specs.Calls.{is_global, callees, calls_at, globals_at, globals_in, globals_of, function_at, up_to_function};
ghost use Rattle.spv_calls.specs.Kept.{kept};

use crate::globals::{Globals, is_function};
use graph::Places;
use spv_base::{NoMemory, Words};
use spv_grammar::kind::Role;
use spv_module::View;
use spv_module::layout::is_line;
use std::alloc::Global;

/// What the instructions of a function call and name.
#[derive(Debug, Drop)]
pub struct Body {
    /// The places of the functions that they call.
    pub callees: Places,
    /// The global variables that they name.
    pub globals: Words,
}

/// Whether the word is the id of the result's type or of an operand.
fn is_needed(role: Role) -> bool
    ensures { result ≡ needed role }
{
    role.is_type_id() || role.is_used_id()
}

/// Adds an id under a condition.
fn add_if(ids: &mut Words, adds: bool, id: u32) -> Result<(), NoMemory>
    ensures { OnOk result (ids.new ≡ ids.old ++ cond adds (id ∷ []) []) }
{
    if adds {
        ids.push(id)?;
    }
    Ok(())
}

/// Whether a word is the id of a global variable as the result's type or as an operand.
fn names_global(globals: &Globals, role: Role, word: u32) -> bool
    ensures { result ≡ (needed role && is_global globals.now word) }
{
    is_needed(role) && globals.has(word)
}

/// Adds those of the words that are such ids.
fn add_named(
    ids: &mut Words,
    globals: &Globals,
    roles: &[Role],
    words: &[u32],
) -> Result<(), NoMemory>
    requires { length roles.now ≡ length words.now }
    ensures { OnOk result (ids.new ≡ ids.old ++ kept (is_global globals.now) (zip roles.now words.now)) }
{
    'words: for k in 0..words.len() {
        let adds = names_global(globals, roles[k], words[k]);
        add_if(ids, adds, words[k])?;
    }
    Ok(())
}

/// Adds the global variables that an instruction names. A line mark names none.
fn add_globals(ids: &mut Words, globals: &Globals, inst: &View) -> Result<(), NoMemory>
    ensures { OnOk result (ids.new ≡ ids.old ++ globals_of globals.now (seen inst.now)) }
{
    if is_line(inst) {
        return Ok(());
    }
    add_named(ids, globals, inst.roles(), inst.words)
}

/// Adds the place of the function that an instruction calls.
fn add_callee(places: &mut Places, globals: &Globals, inst: &View) -> Result<(), NoMemory>
    ensures { OnOk result (places.new ≡ places.old ++ callees globals.now (seen inst.now ∷ [])) }
{
    match globals.callee(inst) {
        Some(place) => places.push(place),
        None => Ok(()),
    }
}

impl Body {
    /// Of no instructions.
    pub fn new(alloc: Global) -> Body
        ensures callees { result.callees ≡ [] }
        ensures globals { result.globals ≡ [] }
    {
        Body {
            callees: Places::new(alloc),
            globals: Words::new(alloc),
        }
    }

    /// Reads one instruction more.
    fn read(&mut self, globals: &Globals, inst: &View) -> Result<(), NoMemory>
        ensures callees { OnOk result (self.new.callees ≡ self.old.callees ++ callees globals.now (seen inst.now ∷ [])) }
        ensures globals { OnOk result (self.new.globals ≡ self.old.globals ++ globals_in globals.now (seen inst.now ∷ [])) }
    {
        add_callee(&mut self.callees, globals, inst)?;
        add_globals(&mut self.globals, globals, inst)
    }

    /// Reads the instructions behind the k-th, up to the next OpFunction.
    fn read_up_to_function(&mut self, globals: &Globals, k: usize) -> Result<(), NoMemory>
        requires { k < length globals.now }
        ensures callees { OnOk result (self.new.callees ≡ self.old.callees ++ callees globals.now (up_to_function (drop (k + 1) globals.now))) }
        ensures globals { OnOk result (self.new.globals ≡ self.old.globals ++ globals_in globals.now (up_to_function (drop (k + 1) globals.now))) }
    {
        let insts = globals.insts();
        let count = insts.count();
        'instructions: for j in k + 1..count {
            let inst = insts.at(j);
            if is_function(&inst) {
                return Ok(());
            }
            self.read(globals, &inst)?;
        }
        Ok(())
    }

    /// Reads the function that begins with the k-th instruction.
    fn read_function(&mut self, globals: &Globals, k: usize, first: &View) -> Result<(), NoMemory>
        requires { slice_get globals.now k ≡ Some (seen first.now) }
        ensures callees { OnOk result (self.new.callees ≡ self.old.callees ++ callees globals.now (function_at globals.now k)) }
        ensures globals { OnOk result (self.new.globals ≡ self.old.globals ++ globals_in globals.now (function_at globals.now k)) }
    {
        if is_function(first) {
            self.read(globals, first)?;
            self.read_up_to_function(globals, k)?;
        }
        Ok(())
    }

    /// Of the function that begins with the k-th instruction. Where that is no OpFunction there is nothing.
    pub fn at(alloc: Global, globals: &Globals, k: usize) -> Result<Body, NoMemory>
        requires { k < length globals.now }
        ensures callees { IfOk result (λ body. body.callees ≡ calls_at globals.now k) }
        ensures globals { IfOk result (λ body. body.globals ≡ globals_at globals.now k) }
    {
        let mut body = Body::new(alloc);
        body.read_function(globals, k, &globals.insts().at(k))?;
        Ok(body)
    }
}
