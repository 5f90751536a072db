use opt_outside::{CallKind, Memory, NoMemory, Outside};
use std::alloc::Global;
use std::test::Fail;

/// A memory that holds one file under the name `in`.
fn with_input(alloc: Global, chunk: u32, bytes: &[u8]) -> Result<Memory, NoMemory> {
    let mut memory = Memory::new(alloc, chunk.max(1));
    memory.add("in", bytes)?;
    Ok(memory)
}

fn opens<O: Outside>(out: &mut O, name: &str) -> bool {
    out.open_input(name).is_ok()
}

fn reads<O: Outside>(out: &mut O, buf: &mut [u8]) -> Option<usize> {
    out.read(buf).ok()
}

fn creates<O: Outside>(out: &mut O, name: &str) -> bool {
    out.open_output(name).is_ok()
}

fn writes<O: Outside>(out: &mut O, piece: &[u8]) -> Option<usize> {
    out.write(piece).ok()
}

fn tells<O: Outside>(out: &mut O, text: &[u8]) -> Option<usize> {
    out.tell(text).ok()
}

fn counts(memory: &Memory) -> (u64, u64, u64, u64) {
    (
        memory.read_faults(),
        memory.write_faults(),
        memory.tell_faults(),
        memory.lacked(),
    )
}

/// Makes one call of a kind, and says whether it failed.
fn fails(memory: &mut Memory, kind: CallKind) -> bool {
    match kind {
        CallKind::OpenInput => !opens(memory, "in"),
        CallKind::Read => reads(memory, &mut [0]).is_none(),
        CallKind::OpenOutput => !creates(memory, "out"),
        CallKind::Write => writes(memory, b"w").is_none(),
        CallKind::Tell => tells(memory, b"t").is_none(),
    }
}

/// What `fails` says of four calls of a kind, one after another.
fn four_calls(memory: &mut Memory, kind: CallKind) -> [bool; 4] {
    let first = fails(memory, kind);
    let second = fails(memory, kind);
    let third = fails(memory, kind);
    [first, second, third, fails(memory, kind)]
}

/// What four calls of a kind do where the `nth` is to fail, and the counts after them.
fn failing(
    alloc: Global,
    kind: CallKind,
    nth: u32,
) -> Result<([bool; 4], (u64, u64, u64, u64)), NoMemory> {
    let mut memory = with_input(alloc, 64, b"input")?;
    memory.fail(kind, nth)?;
    memory.fail(kind, nth)?;
    memory.fail(kind, 0)?;
    let answers = four_calls(&mut memory, kind);
    Ok((answers, counts(&memory)))
}

/// What four calls of one kind do where calls of another kind are to fail.
fn spared(alloc: Global, kind: CallKind, other: CallKind) -> Result<[bool; 4], NoMemory> {
    let mut memory = with_input(alloc, 64, b"input")?;
    memory.fail(other, 1)?;
    memory.fail(other, 2)?;
    Ok(four_calls(&mut memory, kind))
}

/// What four calls of a kind do where the first and the third are listed after the second call.
fn listed_late(alloc: Global, kind: CallKind) -> Result<[bool; 4], NoMemory> {
    let mut memory = with_input(alloc, 64, b"input")?;
    let first = fails(&mut memory, kind);
    let second = fails(&mut memory, kind);
    memory.fail(kind, 1)?;
    memory.fail(kind, 3)?;
    let third = fails(&mut memory, kind);
    Ok([first, second, third, fails(&mut memory, kind)])
}

/// What two reads, a write and a telling of five bytes move at this chunk.
fn moved(alloc: Global, chunk: u32) -> Result<[Option<usize>; 4], NoMemory> {
    let mut memory = with_input(alloc, chunk, b"hello")?;
    let mut buf = [0; 8];
    let _ = opens(&mut memory, "in");
    let first = reads(&mut memory, &mut buf);
    let second = reads(&mut memory, &mut buf);
    let written = writes(&mut memory, b"hello");
    Ok([first, second, written, tells(&mut memory, b"hello")])
}

#[test]
fn moves_bytes_by_chunks(rt: HostRuntime) -> Result<(), Fail> {
    let one = Some(1);
    let three = Some(3);
    assert!(rt;
        moved(rt.alloc(), 1)? == [one, one, one, one]
            && moved(rt.alloc(), 3)? == [three, Some(2), three, three]
            && moved(rt.alloc(), 64)? == [Some(5), Some(0), Some(5), Some(5)]
    );
    Ok(())
}

/// Whether an input is read by three bytes, the second time to its end.
fn is_read(alloc: Global) -> Result<bool, NoMemory> {
    let mut memory = with_input(alloc, 3, b"hello")?;
    let mut buf = *b"........";
    let opened = opens(&mut memory, "in");
    let _ = reads(&mut memory, &mut buf);
    let first = buf;
    let _ = reads(&mut memory, &mut buf);
    Ok(
        opened
            && first.as_slice() == b"hel.....".as_slice()
            && buf.as_slice() == b"lol.....".as_slice(),
    )
}

#[test]
fn reads_an_input_to_its_end(rt: HostRuntime) -> Result<(), Fail> {
    assert!(rt; is_read(rt.alloc())?);
    Ok(())
}

/// Whether of two outputs the last is kept.
fn is_last_kept(alloc: Global) -> Result<bool, NoMemory> {
    let mut memory = with_input(alloc, 3, b"")?;
    let before = memory.opened();
    let _ = creates(&mut memory, "first");
    let _ = writes(&mut memory, b"gone");
    let _ = creates(&mut memory, "second");
    let _ = writes(&mut memory, b"kept here");
    let _ = writes(&mut memory, b"!");
    Ok(!before && memory.opened() && memory.written() == b"kep!".as_slice())
}

#[test]
fn keeps_the_output_opened_last(rt: HostRuntime) -> Result<(), Fail> {
    assert!(rt; is_last_kept(rt.alloc())?);
    Ok(())
}

/// Whether what is told and asked is kept.
fn is_told_kept(alloc: Global) -> Result<bool, NoMemory> {
    let mut memory = with_input(alloc, 2, b"")?;
    let _ = opens(&mut memory, "in");
    let _ = creates(&mut memory, "out");
    let _ = tells(&mut memory, b"not");
    let _ = tells(&mut memory, b"te");
    let asked = memory.asked();
    Ok(
        memory.told() == b"note".as_slice()
            && memory.written() == b"".as_slice()
            && asked.len() == 2
            && asked[0].as_str() == "in"
            && asked[1].as_str() == "out",
    )
}

#[test]
fn keeps_what_is_told_and_asked(rt: HostRuntime) -> Result<(), Fail> {
    assert!(rt; is_told_kept(rt.alloc())?);
    Ok(())
}

/// Whether an absent input is refused, and the one before it is read on.
fn is_absent_refused(alloc: Global) -> Result<bool, NoMemory> {
    let mut memory = with_input(alloc, 1, b"ab")?;
    let mut buf = [0; 2];
    let _ = opens(&mut memory, "in");
    let _ = reads(&mut memory, &mut buf);
    let absent = opens(&mut memory, "absent");
    let told = counts(&memory);
    let _ = reads(&mut memory, &mut buf);
    Ok(!absent && told == (1, 0, 0, 0) && buf.as_slice() == b"b\0".as_slice())
}

#[test]
fn refuses_an_absent_input(rt: HostRuntime) -> Result<(), Fail> {
    assert!(rt; is_absent_refused(rt.alloc())?);
    Ok(())
}

/// Whether a file that is added takes the place of an earlier one, once it is opened.
fn is_in_place(alloc: Global) -> Result<bool, NoMemory> {
    let mut memory = with_input(alloc, 64, b"old")?;
    let mut buf = [0; 3];
    let _ = opens(&mut memory, "in");
    memory.add("in", b"new")?;
    let _ = reads(&mut memory, &mut buf);
    let first = buf;
    let _ = opens(&mut memory, "in");
    let _ = reads(&mut memory, &mut buf);
    Ok(first.as_slice() == b"old".as_slice() && buf.as_slice() == b"new".as_slice())
}

#[test]
fn adds_in_place_of_an_earlier_file(rt: HostRuntime) -> Result<(), Fail> {
    assert!(rt; is_in_place(rt.alloc())?);
    Ok(())
}

/// Whether of the calls of a kind that one fails that is to fail, with these counts after it.
fn is_failing(
    alloc: Global,
    kind: CallKind,
    wanted: (u64, u64, u64, u64),
) -> Result<bool, NoMemory> {
    Ok(
        failing(alloc, kind, 1)? == ([true, false, false, false], wanted)
            && failing(alloc, kind, 3)? == ([false, false, true, false], wanted)
            && listed_late(alloc, kind)? == [false, false, true, false],
    )
}

#[test]
fn fails_the_call_of_that_number(rt: HostRuntime) -> Result<(), Fail> {
    for (kind, wanted) in [
        (CallKind::OpenInput, (1, 0, 0, 0)),
        (CallKind::Read, (1, 0, 0, 0)),
        (CallKind::OpenOutput, (0, 1, 0, 0)),
        (CallKind::Write, (0, 1, 0, 0)),
        (CallKind::Tell, (0, 0, 1, 0)),
    ] {
        assert!(rt; is_failing(rt.alloc(), kind, wanted)?, "{kind:?}");
    }
    Ok(())
}

#[test]
fn fails_no_call_of_another_kind(rt: HostRuntime) -> Result<(), Fail> {
    for (kind, other) in [
        (CallKind::OpenInput, CallKind::OpenOutput),
        (CallKind::Read, CallKind::OpenInput),
        (CallKind::OpenOutput, CallKind::Write),
        (CallKind::Write, CallKind::Tell),
        (CallKind::Tell, CallKind::Read),
    ] {
        assert!(rt;
            spared(rt.alloc(), kind, other)? == [false; 4],
            "{kind:?} {other:?}"
        );
    }
    Ok(())
}

/// Whether what was written is kept where a later call fails.
fn is_written_kept(alloc: Global) -> Result<bool, NoMemory> {
    let mut memory = with_input(alloc, 64, b"")?;
    memory.fail(CallKind::OpenOutput, 2)?;
    memory.fail(CallKind::Write, 2)?;
    let _ = creates(&mut memory, "out");
    let _ = writes(&mut memory, b"kept");
    let lost = writes(&mut memory, b"lost").is_none() && !creates(&mut memory, "out");
    Ok(lost && memory.written() == b"kept".as_slice() && counts(&memory) == (0, 2, 0, 0))
}

#[test]
fn keeps_what_was_written_when_a_call_fails(rt: HostRuntime) -> Result<(), Fail> {
    assert!(rt; is_written_kept(rt.alloc())?);
    Ok(())
}
