ghost use Rattle.std.specs.Prelude.{OnOk, OnErr};
ghost use Rattle.opt_top.specs.Moves.{Adds, FaultsWriting, WritesOutput, FaultsOutput, Tellings, FaultsTelling};

use opt_outside::{Failed, Outside};

/// Writes all of a text to the open output.
fn write_all<O: Outside>(out: &mut O, bytes: &[u8]) -> Result<(), Failed>
    ensures ok { OnOk result (Adds bytes.now (O.seen out.old) (O.seen out.new)) }
    ensures err { OnErr result (FaultsWriting bytes.now (O.seen out.old) (O.seen out.new)) }
{
    let mut rest = bytes;
    'pieces: while !rest.is_empty() {
        let taken = out.write(rest)?;
        let (_, after) = rest.split_at(taken);
        rest = after;
    }
    Ok(())
}

/// Opens the named output and writes all bytes to it. It takes no memory.
pub fn write_output<O: Outside>(name: &str, bytes: &[u8], out: &mut O) -> Result<(), Failed>
    ensures ok { OnOk result (WritesOutput name.now bytes.now (O.seen out.old) (O.seen out.new)) }
    ensures err { OnErr result (FaultsOutput name.now bytes.now (O.seen out.old) (O.seen out.new)) }
{
    out.open_output(name)?;
    write_all(out, bytes)
}

/// Puts all of a text on standard error. It takes no memory.
pub fn tell_all<O: Outside>(out: &mut O, text: &[u8]) -> Result<(), Failed>
    ensures ok { OnOk result (Tellings text.now (O.seen out.old) (O.seen out.new)) }
    ensures err { OnErr result (FaultsTelling text.now (O.seen out.old) (O.seen out.new)) }
{
    let mut rest = text;
    'pieces: while !rest.is_empty() {
        let taken = out.tell(rest)?;
        let (_, after) = rest.split_at(taken);
        rest = after;
    }
    Ok(())
}
