ghost use Rattle.std.specs.Prelude.{◌≡◌, [], OnOk, OnErr};
ghost use Rattle.opt_outside.specs.Calls.{counted, is_doomed, with_failing};

use std::alloc::{AllocFailed, Global};
use std::collections::BTreeSet;
use std::marker::Model;

/// A kind of call of [`Outside`](crate::Outside).
#[derive(Clone, Copy, Debug, PartialEq, Eq)]
pub enum CallKind {
    OpenInput,
    Read,
    OpenOutput,
    Write,
    Tell,
}

/// The calls of one kind: how many were made, and the numbers, from 1, of those that are to fail.
#[derive(Drop)]
pub(crate) struct Calls {
    made: u64,
    failing: BTreeSet<u64>,
}

impl Model for Calls {
    ghost use Rattle.opt_outside.specs.Calls.{Calls as Value_};

    ghost Value = { Value_ };

    ghost view = { λ a. record { made = a.made; failing = a.failing.keys } };
}

impl Calls {
    /// No call was made, and none is to fail.
    pub(crate) fn new(alloc: Global) -> Calls
        ensures { result ≡ record { made = 0; failing = [] } }
    {
        Calls {
            made: 0,
            failing: BTreeSet::new(alloc),
        }
    }

    /// Counts one more call, and says whether it is to fail.
    pub(crate) fn count_next(&mut self) -> bool
        ensures doomed { result ≡ is_doomed self.old }
        ensures counted { self.new ≡ counted self.old }
    {
        self.made = self.made.saturating_add(1);
        self.failing.contains(&self.made)
    }

    /// Makes the call of this number fail, if it is still to come.
    pub(crate) fn add_failing(&mut self, nth: u64) -> Result<(), AllocFailed<u64>>
        ensures ok { OnOk result (self.new ≡ with_failing nth self.old) }
        ensures err { OnErr result (self.new ≡ self.old) }
    {
        if self.made < nth {
            self.failing.insert(nth)?;
        }
        Ok(())
    }
}
