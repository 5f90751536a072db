ghost use Rattle.std.specs.Prelude.{◌≡◌, IfOk};
ghost use Rattle.either.specs.Either.{is_left};
ghost use Rattle.opt_outside.specs.Seen.{Rises};
ghost use Rattle.spirv_opt.specs.Opened.{is_file_name};

use crate::streams::{read_once, write_once};
use either::{Either, Left, Right};
use opt_outside::{Failed, Outside};
use std::io::{Input, Printer, Write};
use std::rt::Files;
use std::{fs, io};

/// The name of standard input and of standard output.
const STANDARD: &str = "-";

/// What the open input is read from: a file or standard input.
type Source<R> = Either<<R as Files>::File, <R as Input>::Reader>;

/// What the open output is written to: a file or standard output.
type Sink<'a, R> = Either<<R as Files>::File, Printer<'a, R>>;

/// Files and standard streams. `-` names standard input and standard output, every other name a file.
///
/// It tells nothing of what files and streams hold. It counts its faults: an input or an output that
/// cannot be opened, a read or a write that the system refuses, one with nothing open, and a write that
/// takes nothing of a piece that is not empty.
#[derive(Drop)]
pub(crate) struct Host<'a, R: Files + Input + Print + Drop, E: Print + Drop> {
    rt: &'a R,
    stderr: E,
    input: Option<Source<R>>,
    output: Option<Sink<'a, R>>,
    read_faults: u64,
    write_faults: u64,
    tell_faults: u64,
}

impl<'a, R: Files + Input + Print + Drop, E: Print + Drop> Host<'a, R, E> {
    /// Nothing is open, and no fault was counted.
    pub(crate) fn new(rt: &'a R, stderr: E) -> Host<'a, R, E>
        ensures closed { (result.input ≡ None) × (result.output ≡ None) }
        ensures no_fault { (result.read_faults ≡ 0) × (result.write_faults ≡ 0) × (result.tell_faults ≡ 0) }
    {
        Host {
            rt,
            stderr,
            input: None,
            output: None,
            read_faults: 0,
            write_faults: 0,
            tell_faults: 0,
        }
    }

    /// The input of this name.
    fn source(&self, name: &str) -> io::Result<Source<R>>
        ensures { IfOk result (λ source. is_left source ≡ is_file_name name.now) }
    {
        if name == STANDARD {
            return Ok(Right(self.rt.reader()));
        }
        Ok(Left(fs::open(self.rt, name)?))
    }

    /// The output of this name. A file is emptied, or made where there is none.
    fn sink(&self, name: &str) -> io::Result<Sink<'a, R>>
        ensures { IfOk result (λ sink. is_left sink ≡ is_file_name name.now) }
    {
        if name == STANDARD {
            return Ok(Right(io::writer(self.rt)));
        }
        Ok(Left(fs::create(self.rt, name)?))
    }
}

/// Counts one more fault, up to the count's last value.
fn fault(count: &mut u64) -> Failed
    ensures { Rises count.old count.new }
{
    *count = count.saturating_add(1);
    Failed
}

impl<'a, R: Files + Input + Print + Drop, E: Print + Drop> Outside for Host<'a, R, E> {
    ghost use Rattle.std.specs.Prelude.{◌≡◌, None, IfOk, OnOk, OnErr, IsSomeAnd, length};
    ghost use Rattle.either.specs.Either.{either, is_left};
    ghost use Rattle.opt_outside.specs.Seen.{OpensInput, FailsInput, Reads, FailsRead, OpensOutput, FailsOutput, Writes, FailsWrite};
    ghost use Rattle.spirv_opt.specs.Opened.{is_file_name, ReadsFrom, WritesTo};

    ghost seen = { λ h. record {
      holds = λ _. None;
      left = None;
      written = None;
      opened = None;
      told = None;
      asked = None;
      read_faults = h.read_faults;
      write_faults = h.write_faults;
      tell_faults = h.tell_faults;
    } };

    fn open_input(&mut self, name: &str) -> Result<(), Failed>
        ensures ok { let seen = ⟦<Host<'a, R, E> as Outside>⟧.seen in
            OnOk result (OpensInput name.now (seen self.old) (seen self.new)) }
        ensures err { let seen = ⟦<Host<'a, R, E> as Outside>⟧.seen in
            OnErr result (FailsInput name.now (seen self.old) (seen self.new)) }
        ensures opened { OnOk result (IsSomeAnd self.new.input
            (λ source. is_left source ≡ is_file_name name.now)) }
        ensures kept { OnErr result (self.new.input ≡ self.old.input) }
    {
        match self.source(name) {
            Ok(source) => {
                self.input = Some(source);
                Ok(())
            }
            Err(_) => Err(fault(&mut self.read_faults)),
        }
    }

    fn read(&mut self, buf: &mut [u8]) -> Result<usize, Failed>
        ensures ok { let seen = ⟦<Host<'a, R, E> as Outside>⟧.seen in
            IfOk result (λ n. Reads n (length buf.old) buf.new (seen self.old) (seen self.new)) }
        ensures err { let seen = ⟦<Host<'a, R, E> as Outside>⟧.seen in
            OnErr result (FailsRead (seen self.old) (seen self.new)) }
        ensures source { ReadsFrom (either R.File.remaining R.Reader.remaining)
            self.old.input self.new.input result buf.new }
    {
        let Some(source) = &mut self.input else {
            return Err(fault(&mut self.read_faults));
        };
        match read_once(source, buf) {
            Ok(n) => Ok(n),
            Err(_) => Err(fault(&mut self.read_faults)),
        }
    }

    fn open_output(&mut self, name: &str) -> Result<(), Failed>
        ensures ok { let seen = ⟦<Host<'a, R, E> as Outside>⟧.seen in
            OnOk result (OpensOutput name.now (seen self.old) (seen self.new)) }
        ensures err { let seen = ⟦<Host<'a, R, E> as Outside>⟧.seen in
            OnErr result (FailsOutput name.now (seen self.old) (seen self.new)) }
        ensures opened { OnOk result (IsSomeAnd self.new.output
            (λ sink. is_left sink ≡ is_file_name name.now)) }
        ensures kept { OnErr result (self.new.output ≡ self.old.output) }
    {
        match self.sink(name) {
            Ok(sink) => {
                self.output = Some(sink);
                Ok(())
            }
            Err(_) => Err(fault(&mut self.write_faults)),
        }
    }

    fn write(&mut self, piece: &[u8]) -> Result<usize, Failed>
        ensures ok { let seen = ⟦<Host<'a, R, E> as Outside>⟧.seen in
            IfOk result (λ n. Writes n piece.now (seen self.old) (seen self.new)) }
        ensures err { let seen = ⟦<Host<'a, R, E> as Outside>⟧.seen in
            OnErr result (FailsWrite (seen self.old) (seen self.new)) }
        ensures sink { WritesTo (either R.File.contents ⟦<Printer<'a, R> as Write>⟧.contents)
            self.old.output self.new.output result piece.now }
    {
        let Some(sink) = &mut self.output else {
            return Err(fault(&mut self.write_faults));
        };
        match write_once(sink, piece) {
            Ok(n) if n > 0 || piece.is_empty() => Ok(n),
            _ => Err(fault(&mut self.write_faults)),
        }
    }

    fn tell(&mut self, text: &[u8]) -> Result<usize, Failed> {
        match write_once(&mut io::writer(&self.stderr), text) {
            Ok(n) if n > 0 || text.is_empty() => Ok(n),
            _ => Err(fault(&mut self.tell_faults)),
        }
    }
}
