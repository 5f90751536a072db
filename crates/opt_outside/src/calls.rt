use thiserror::Error;

/// The outside did not do what it was asked. Its count of such faults rose in that call.
#[derive(Clone, Copy, Debug, PartialEq, Eq, Error)]
#[error("the outside failed")]
pub struct Failed;

/// Named inputs and outputs, and standard error.
///
/// An outside may tell what its names hold, what is left of the open input, what was written, whether
/// the output was opened, what was told, and which names were asked for. It also counts its faults of
/// reading, of writing and of telling. Each count is a 64-bit number that never falls and stands still
/// at its last value; a count *rose* in a call where it is greater afterwards or stands at its last
/// value afterwards. A call answers `Failed` only where its own count rose, an `Ok` leaves every count,
/// and no call changes a count of another kind.
pub trait Outside {
    ghost use Rattle.std.specs.Prelude.{IfOk, OnOk, OnErr, length};
    ghost use Rattle.opt_outside.specs.Seen.{Seen, OpensInput, FailsInput, Reads, FailsRead, OpensOutput, FailsOutput, Writes, FailsWrite, Tells, FailsTell};

    // All that this outside tells, and its counts.
    ghost seen: { Self → Seen };

    /// Opens the named input, from its first byte, in place of an input that was open. After
    /// `Failed` the input that was open before still is.
    fn open_input(&mut self, name: &str) -> Result<(), Failed>
        ensures ok { OnOk result (OpensInput name.now (seen self.old) (seen self.new)) }
        ensures err { OnErr result (FailsInput name.now (seen self.old) (seen self.new)) };

    /// Moves the next bytes of the open input to the front of `buf` and says how many. 0 for a
    /// buffer that is not empty is the input's end. After `Failed` nothing was taken from the input.
    fn read(&mut self, buf: &mut [u8]) -> Result<usize, Failed>
        ensures ok { IfOk result (λ n. Reads n (length buf.old) buf.new (seen self.old) (seen self.new)) }
        ensures err { OnErr result (FailsRead (seen self.old) (seen self.new)) };

    /// Opens the named output, empty. After `Failed` what was written before stays.
    fn open_output(&mut self, name: &str) -> Result<(), Failed>
        ensures ok { OnOk result (OpensOutput name.now (seen self.old) (seen self.new)) }
        ensures err { OnErr result (FailsOutput name.now (seen self.old) (seen self.new)) };

    /// Adds the first bytes of `piece` to the output and says how many: at least one of a piece that
    /// is not empty. An outside that can take none answers `Failed`.
    fn write(&mut self, piece: &[u8]) -> Result<usize, Failed>
        ensures ok { IfOk result (λ n. Writes n piece.now (seen self.old) (seen self.new)) }
        ensures err { OnErr result (FailsWrite (seen self.old) (seen self.new)) };

    /// Puts the first bytes of `text` on standard error and says how many: at least one of a text that
    /// is not empty. An outside that can take none answers `Failed`.
    fn tell(&mut self, text: &[u8]) -> Result<usize, Failed>
        ensures ok { IfOk result (λ n. Tells n text.now (seen self.old) (seen self.new)) }
        ensures err { OnErr result (FailsTell (seen self.old) (seen self.new)) };
}
