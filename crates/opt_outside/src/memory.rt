ghost use Rattle.std.specs.Prelude.{◌≡◌};
ghost use Rattle.opt_outside.specs.Calls.{one_more};

use crate::calls::{Failed, Outside};
use crate::copying::copy_front;
use crate::files::Files;
use crate::names::Names;
use crate::schedule::{CallKind, Calls};
use std::alloc::{AllocError, AllocFailed, Global};
use std::marker::Model;
use thiserror::Error;

/// Memory ran out.
#[derive(Clone, Copy, Debug, PartialEq, Eq, Error)]
#[error("out of memory")]
pub struct NoMemory;

impl From<AllocError> for NoMemory {
    fn from(_: AllocError) -> NoMemory {
        NoMemory
    }
}

impl<T: Drop> From<AllocFailed<T>> for NoMemory {
    fn from(_: AllocFailed<T>) -> NoMemory {
        NoMemory
    }
}

/// An outside that is kept in memory: inputs are files that were added to it, and what is written and
/// told stays in it. It tells everything.
///
/// A count of it that is below its last value rises in three cases and no other: the call was to fail
/// ([`Memory::fail`]), it opens an input that is not held, or the memory itself wants memory in it.
#[derive(Drop)]
pub struct Memory {
    chunk: u32,
    files: Files,
    input: Option<usize>,
    at: usize,
    written: Vec<u8>,
    opened: bool,
    told: Vec<u8>,
    asked: Names,
    open_inputs: Calls,
    reads: Calls,
    open_outputs: Calls,
    writes: Calls,
    tells: Calls,
    read_faults: u64,
    write_faults: u64,
    tell_faults: u64,
    lacked: u64,
}

impl Model for Memory {
    ghost use Rattle.std.specs.Prelude.{◌<◌, ◌≤◌, drop, length};
    ghost use Rattle.opt_outside.specs.Files.{bytes_at, IsPlace};
    ghost use Rattle.opt_outside.specs.Store.{Store};

    ghost Value = { Store };

    ghost view = { λ a. record {
      chunk = a.chunk;
      files = a.files;
      left = drop a.at (bytes_at a.files a.input);
      written = a.written.items;
      opened = a.opened;
      told = a.told.items;
      asked = a.asked;
      open_inputs = a.open_inputs;
      reads = a.reads;
      open_outputs = a.open_outputs;
      writes = a.writes;
      tells = a.tells;
      read_faults = a.read_faults;
      write_faults = a.write_faults;
      tell_faults = a.tell_faults;
      lacked = a.lacked;
    } };

    ghost invariant = { λ a. (0 < a.chunk) × IsPlace a.files a.input × (a.at ≤ length (bytes_at a.files a.input)) };
}

impl Memory {
    ghost use Rattle.std.specs.Prelude.{◌≡◌, ◌≤◌, OnOk, OnErr, map, string_bytes};
    ghost use Rattle.opt_outside.specs.Store.{empty, AddsFile, fails_too};

    /// Holds no file, and moves at most `chunk` bytes by one call.
    pub fn new(alloc: Global, chunk: u32) -> Memory
        requires { 1 ≤ chunk }
        ensures { result ≡ empty chunk }
    {
        Memory {
            chunk,
            files: Files::new(alloc),
            input: None,
            at: 0,
            written: Vec::new(alloc),
            opened: false,
            told: Vec::new(alloc),
            asked: Names::new(alloc),
            open_inputs: Calls::new(alloc),
            reads: Calls::new(alloc),
            open_outputs: Calls::new(alloc),
            writes: Calls::new(alloc),
            tells: Calls::new(alloc),
            read_faults: 0,
            write_faults: 0,
            tell_faults: 0,
            lacked: 0,
        }
    }

    /// Adds a file, in place of an earlier one of that name. An input that is open stays as it is.
    pub fn add(&mut self, name: &str, bytes: &[u8]) -> Result<(), NoMemory>
        ensures ok { OnOk result (AddsFile name.now bytes.now self.old self.new) }
        ensures err { OnErr result (self.new ≡ self.old) }
    {
        self.files.add(name, bytes)?;
        Ok(())
    }

    /// Makes the `nth` call of a kind fail, counted from 1 since [`Memory::new`]. Where `nth` is 0, or
    /// that call was made already or is to fail already, nothing changes.
    pub fn fail(&mut self, kind: CallKind, nth: u32) -> Result<(), NoMemory>
        ensures ok { OnOk result (self.new ≡ fails_too kind nth self.old) }
        ensures err { OnErr result (self.new ≡ self.old) }
    {
        let nth = u64::from(nth);
        match kind {
            CallKind::OpenInput => self.open_inputs.add_failing(nth)?,
            CallKind::Read => self.reads.add_failing(nth)?,
            CallKind::OpenOutput => self.open_outputs.add_failing(nth)?,
            CallKind::Write => self.writes.add_failing(nth)?,
            CallKind::Tell => self.tells.add_failing(nth)?,
        }
        Ok(())
    }

    /// How many faults came from want of memory of the memory itself.
    pub fn lacked(&self) -> u64
        ensures { result ≡ self.now.lacked }
    {
        self.lacked
    }

    /// What was written since an output was last opened.
    pub fn written(&self) -> &[u8]
        ensures { result.now ≡ self.now.written }
    {
        self.written.as_slice()
    }

    /// What was put on standard error.
    pub fn told(&self) -> &[u8]
        ensures { result.now ≡ self.now.told }
    {
        self.told.as_slice()
    }

    /// Whether an output was opened.
    pub fn opened(&self) -> bool
        ensures { result ≡ self.now.opened }
    {
        self.opened
    }

    /// The names that were asked for by [`Outside::open_input`] and [`Outside::open_output`], in order.
    pub fn asked(&self) -> &[String]
        ensures { map string_bytes result.now ≡ self.now.asked }
    {
        self.asked.as_slice()
    }

    /// How many faults of [`Outside::open_input`] and [`Outside::read`] there were.
    pub fn read_faults(&self) -> u64
        ensures { result ≡ self.now.read_faults }
    {
        self.read_faults
    }

    /// How many faults of [`Outside::open_output`] and [`Outside::write`] there were.
    pub fn write_faults(&self) -> u64
        ensures { result ≡ self.now.write_faults }
    {
        self.write_faults
    }

    /// How many faults of [`Outside::tell`] there were.
    pub fn tell_faults(&self) -> u64
        ensures { result ≡ self.now.tell_faults }
    {
        self.tell_faults
    }
}

/// Counts one more, up to the count's last value.
fn count(total: &mut u64)
    ensures { total.new ≡ one_more total.old }
{
    *total = total.saturating_add(1);
}

impl Outside for Memory {
    ghost use Rattle.std.specs.Prelude.{IfOk, IfErr, OnOk, OnErr, MatchResult, length};
    ghost use Rattle.opt_outside.specs.Seen.{OpensInput, FailsInput, Reads, FailsRead, OpensOutput, FailsOutput, Writes, FailsWrite, Tells, FailsTell};
    ghost use Rattle.opt_outside.specs.Store.{seen_of, OpensHeld, OpensNone, ReadsHeld, ReadsNone, OpensEmpty, OpensNoOutput, WritesHeld, WritesNone, TellsHeld, TellsNone};

    ghost seen = { seen_of };

    /// Fails where this call is to fail, where no file of this name is held, or for want of memory.
    fn open_input(&mut self, name: &str) -> Result<(), Failed>
        ensures ok { OnOk result (OpensInput name.now (seen_of self.old) (seen_of self.new)) }
        ensures err { OnErr result (FailsInput name.now (seen_of self.old) (seen_of self.new)) }
        ensures opened { OnOk result (OpensHeld name.now self.old self.new) }
        ensures failed { OnErr result (OpensNone name.now self.old self.new) }
    {
        if self.open_inputs.count_next() {
            count(&mut self.read_faults);
            return Err(Failed);
        }
        if self.asked.add(name).is_err() {
            count(&mut self.read_faults);
            count(&mut self.lacked);
            return Err(Failed);
        }
        match self.files.place_of(name) {
            Some(place) => {
                self.input = Some(place);
                self.at = 0;
                Ok(())
            }
            None => {
                count(&mut self.read_faults);
                Err(Failed)
            }
        }
    }

    /// Fails where this call is to fail, and takes no memory.
    fn read(&mut self, buf: &mut [u8]) -> Result<usize, Failed>
        ensures ok { IfOk result (λ n. Reads n (length buf.old) buf.new (seen_of self.old) (seen_of self.new)) }
        ensures err { OnErr result (FailsRead (seen_of self.old) (seen_of self.new)) }
        ensures moved { IfOk result (λ n. ReadsHeld n buf.old buf.new self.old self.new) }
        ensures failed { OnErr result (ReadsNone self.old self.new) }
    {
        if self.reads.count_next() {
            count(&mut self.read_faults);
            return Err(Failed);
        }
        let bytes = self.files.bytes_at(self.input);
        let n = copy_front(&bytes[self.at..], buf, self.chunk);
        self.at += n;
        Ok(n)
    }

    /// Fails where this call is to fail, or for want of memory.
    fn open_output(&mut self, name: &str) -> Result<(), Failed>
        ensures ok { OnOk result (OpensOutput name.now (seen_of self.old) (seen_of self.new)) }
        ensures err { OnErr result (FailsOutput name.now (seen_of self.old) (seen_of self.new)) }
        ensures opened { OnOk result (OpensEmpty name.now self.old self.new) }
        ensures failed { OnErr result (OpensNoOutput self.old self.new) }
    {
        if self.open_outputs.count_next() {
            count(&mut self.write_faults);
            return Err(Failed);
        }
        if self.asked.add(name).is_err() {
            count(&mut self.write_faults);
            count(&mut self.lacked);
            return Err(Failed);
        }
        self.written.clear();
        self.opened = true;
        Ok(())
    }

    /// Fails where this call is to fail, or for want of memory.
    fn write(&mut self, piece: &[u8]) -> Result<usize, Failed>
        ensures ok { IfOk result (λ n. Writes n piece.now (seen_of self.old) (seen_of self.new)) }
        ensures err { OnErr result (FailsWrite (seen_of self.old) (seen_of self.new)) }
        ensures moved { IfOk result (λ n. WritesHeld n piece.now self.old self.new) }
        ensures failed { OnErr result (WritesNone self.old self.new) }
    {
        if self.writes.count_next() {
            count(&mut self.write_faults);
            return Err(Failed);
        }
        let n = piece.len().min(self.chunk as usize);
        if self.written.extend_from_slice(&piece[..n]).is_err() {
            count(&mut self.write_faults);
            count(&mut self.lacked);
            return Err(Failed);
        }
        Ok(n)
    }

    /// Fails where this call is to fail, or for want of memory.
    fn tell(&mut self, text: &[u8]) -> Result<usize, Failed>
        ensures ok { IfOk result (λ n. Tells n text.now (seen_of self.old) (seen_of self.new)) }
        ensures err { OnErr result (FailsTell (seen_of self.old) (seen_of self.new)) }
        ensures moved { IfOk result (λ n. TellsHeld n text.now self.old self.new) }
        ensures failed { OnErr result (TellsNone self.old self.new) }
    {
        if self.tells.count_next() {
            count(&mut self.tell_faults);
            return Err(Failed);
        }
        let n = text.len().min(self.chunk as usize);
        if self.told.extend_from_slice(&text[..n]).is_err() {
            count(&mut self.tell_faults);
            count(&mut self.lacked);
            return Err(Failed);
        }
        Ok(n)
    }
}
