ghost use Rattle.std.specs.Prelude.{◌≡◌, ◌<◌, ◌≤◌, ◌++◌, ◌∷◌, [], Some, None, length, slice_get, IfOk, OnOk, OnErr, MatchOption};
ghost use Rattle.std.specs.Option.{option_map};
ghost use Rattle.spv_ir.specs.Watching.{entry_of, with_shown};

use crate::holding::{Module, copy};
use spv_base::NoMemory;
use std::alloc::Global;
use std::marker::Model;

/// One who is shown modules: the one that was admitted, and what each pass gives.
///
/// A watcher may tell the list of the modules that it was shown, each with its pass.
pub trait Watcher {
    ghost use Rattle.std.specs.Prelude.{◌≡◌, List, Option, OnOk, OnErr};
    ghost use Rattle.spv_ir.specs.Watching.{Told, with_shown};

    // The modules that were shown, where that is told.
    ghost told: { Self → Option (List Told) };

    /// Is shown a module: `pass` is 0 for the admitted input, and k behind the k-th pass. After NoMemory it is as if nothing
    /// had been shown.
    fn shown(&mut self, pass: u32, m: &Module) -> Result<(), NoMemory>
        ensures ok { OnOk result (told self.new ≡ with_shown pass m.now (told self.old)) }
        ensures err { OnErr result (told self.new ≡ told self.old) };
}

/// A module that was shown, and the pass that gave it.
#[derive(Debug, Drop)]
pub struct Shown {
    pub pass: u32,
    pub entry: Module,
}

/// Keeps a copy of each module that is shown.
#[derive(Debug, Drop)]
pub struct Kept {
    alloc: Global,
    list: Vec<Shown>,
}

impl Model for Kept {
    ghost use Rattle.std.specs.Prelude.{List, map};
    ghost use Rattle.spv_ir.specs.Watching.{Told, entry_of};

    ghost Value = { List Told };

    ghost view = { λ k. map entry_of k.list.items };
}

impl Kept {
    /// Nothing was shown yet.
    pub fn new(alloc: Global) -> Kept
        ensures { result ≡ [] }
    {
        Kept {
            alloc,
            list: Vec::new(alloc),
        }
    }

    /// How many modules were shown.
    pub fn count(&self) -> usize
        ensures { result ≡ length self.now }
    {
        self.list.len()
    }

    /// The k-th module that was shown, counted from 0; None exactly from `count` on.
    pub fn module(&self, k: usize) -> Option<&Module>
        ensures { MatchOption result (length self.now ≤ k) (λ m. option_map (λ shown. shown.1) (slice_get self.now k) ≡ Some m.now) }
    {
        if k < self.list.len() {
            Some(&self.list[k].entry)
        } else {
            None
        }
    }

    /// Adds a copy of a module.
    fn keep(&mut self, pass: u32, m: &Module) -> Result<(), NoMemory>
        ensures ok { OnOk result (self.new ≡ self.old ++ (pass, m.now) ∷ []) }
        ensures err { OnErr result (self.new ≡ self.old) }
    {
        let entry = copy(self.alloc, m)?;
        self.list.push(Shown { pass, entry })?;
        Ok(())
    }
}

impl Watcher for Kept {
    ghost told = { λ kept. Some kept };

    fn shown(&mut self, pass: u32, m: &Module) -> Result<(), NoMemory> {
        self.keep(pass, m)
    }
}

/// Keeps nothing, and tells nothing.
#[derive(Clone, Copy, Debug)]
pub struct Silent;

impl Watcher for Silent {
    ghost told = { λ silent. None };

    fn shown(&mut self, _pass: u32, _m: &Module) -> Result<(), NoMemory> {
        Ok(())
    }
}
