ghost use Rattle.std.specs.Prelude.{◌≡◌, ◌<◌, ◌≤◌, ◌+◌, ◌^◌, [], IfOk, IfErr, length, vec_len};
ghost use Rattle.std.specs.Bool.{OnTrue, OnFalse};
ghost use Rattle.opt_top.specs.Moves.{Moves, IsAtEnd, ReadsInput};
ghost use Rattle.opt_top.specs.Stops.{IsStop, IsInputStop};

use opt_outside::Outside;
use std::alloc::Global;

/// The most bytes of a file.
pub const MOST_BYTES: usize = 4_194_304;

/// The bytes that are asked for at a time.
const ROOM: usize = 4096;

/// Why a file was not read.
#[derive(Clone, Copy, Debug, PartialEq, Eq)]
pub enum Stop {
    Failed,
    NoMemory,
}

/// Reads one piece behind what was read, and says whether there was one.
fn read_piece<O: Outside>(out: &mut O, buf: &mut [u8], bytes: &mut Vec<u8>) -> Result<bool, Stop>
    requires { 0 < length buf.old }
    ensures moved { IfOk result (λ _. Moves bytes.old.items bytes.new.items (O.seen out.old) (O.seen out.new)) }
    ensures more { IfOk result (λ more. OnTrue more (vec_len bytes.old < vec_len bytes.new)) }
    ensures room { IfOk result (λ _. vec_len bytes.new ≤ vec_len bytes.old + length buf.old) }
    ensures end { IfOk result (λ more. OnFalse more (IsAtEnd (O.seen out.new))) }
    ensures err { IfErr result (λ stop. IsStop (length buf.old) stop (O.seen out.old) (O.seen out.new)) }
{
    let n = match out.read(buf) {
        Ok(n) => n,
        Err(_) => return Err(Stop::Failed),
    };
    match bytes.extend_from_slice(&buf[..n]) {
        Ok(()) => Ok(n > 0),
        Err(_) => Err(Stop::NoMemory),
    }
}

/// Reads the open input to its end, or until there is one byte more than a file may have.
fn read_rest<O: Outside>(alloc: Global, out: &mut O) -> Result<Vec<u8>, Stop>
    ensures moved { IfOk result (λ bytes. Moves [] bytes.items (O.seen out.old) (O.seen out.new)) }
    ensures most { IfOk result (λ bytes. vec_len bytes ≤ 4194305) }
    ensures end { IfOk result (λ bytes. vec_len bytes ≤ 4194304 → IsAtEnd (O.seen out.new)) }
    ensures err { IfErr result (λ stop. IsStop 4194305 stop (O.seen out.old) (O.seen out.new)) }
{
    let mut bytes = Vec::new(alloc);
    let mut buf = [0; ROOM];
    'pieces: while bytes.len() <= MOST_BYTES {
        let room = (MOST_BYTES + 1 - bytes.len()).min(ROOM);
        let (front, _) = buf.split_at_mut(room);
        if !read_piece(out, front, &mut bytes)? {
            return Ok(bytes);
        }
    }
    Ok(bytes)
}

/// Reads the named input to its end, or until there is one byte more than a file may have.
pub fn read_input<O: Outside>(alloc: Global, name: &str, out: &mut O) -> Result<Vec<u8>, Stop>
    ensures ok { IfOk result (λ bytes. ReadsInput name.now bytes.items (O.seen out.old) (O.seen out.new)) }
    ensures err { IfErr result (λ stop. IsInputStop name.now stop (O.seen out.old) (O.seen out.new)) }
{
    match out.open_input(name) {
        Ok(()) => read_rest(alloc, out),
        Err(_) => Err(Stop::Failed),
    }
}
