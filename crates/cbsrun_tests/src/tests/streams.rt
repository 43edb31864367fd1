//! Readers and writers that fail.

use super::fakes::{Letters, Memory, Outcome};
use super::files::good_file;
use super::{FIRST, FIRST_LINES, same};
use cbsrun_commands::{
    ByteOutput, FromRead, MAX_BYTES, ReadError, RunError, ToWrite, Verb, read_all, replay,
    run_bytes, write_text,
};
use std::alloc::Global;
use std::process::Abort;
use std::thread::Threads;
use std::time::Clock;

/// Replays the first example into a writer with this much room, which takes at most `step` bytes a call. Tests the
/// fault, and what is written.
fn writes(
    rt: &impl Abort,
    alloc: Global,
    label: &str,
    room: usize,
    step: usize,
    text: &[u8],
    fault: Option<RunError>,
) {
    let mut out = Memory::new(alloc, room, step);
    let answer = replay(alloc, good_file(rt, alloc, FIRST), &mut out);
    same(rt, label, (answer.err(), out.holds(text)), (fault, true));
}

#[test]
fn a_writer_that_fails_has_the_front(rt: HostRuntime) {
    let alloc = rt.alloc();
    let fault = Some(RunError::WriteFault);
    let lines = FIRST_LINES.as_bytes();
    for room in 0..lines.len() {
        let front = &lines[..room];
        writes(&rt, alloc, "whole calls", room, usize::MAX, front, fault);
        writes(&rt, alloc, "a byte a call", room, 1, front, fault);
    }
    writes(&rt, alloc, "no byte a call", usize::MAX, 0, b"", fault);
    writes(&rt, alloc, "all, a byte a call", usize::MAX, 1, lines, None);
}

/// Replays a file. The output takes 20 bytes, and the error output takes `room` bytes. Returns the status, and what
/// they took.
fn into_small<R: Threads + Clock + Sync>(
    rt: &R,
    alloc: Global,
    file: &str,
    room: usize,
) -> Outcome {
    let mut out = Memory::new(alloc, 20, usize::MAX);
    let mut err = Memory::new(alloc, room, usize::MAX);
    let status = run_bytes(rt, alloc, Verb::Replay, file.as_bytes(), &mut out, &mut err);
    Outcome { status, out, err }
}

#[test]
fn a_failing_output_has_its_status(rt: HostRuntime) {
    let alloc = rt.alloc();
    let front = "@0 submit 0 job 0 ac";
    let failed = into_small(&rt, alloc, FIRST, usize::MAX);
    failed.leaves(&rt, "output", 4, front, "cbsrun: run fault 2 WriteFault\n");
    let both_failed = into_small(&rt, alloc, FIRST, 7);
    both_failed.leaves(&rt, "both", 4, front, "cbsrun:");
    let unsaid = into_small(&rt, alloc, "format = 3", 0);
    unsaid.leaves(&rt, "error output", 3, "", "");
}

/// Reads all of a text, and tests that it came whole.
fn reads_text(rt: &impl Abort, alloc: Global, label: &str, text: &str) {
    let mut reader = FromRead::new(text.as_bytes());
    let bytes = read_all(alloc, &mut reader).ok().expect(rt, label);
    assert!(rt; bytes.as_slice() == text.as_bytes(), "{label}: other bytes");
}

/// Reads this many letters, while the call with the number `bad` fails, and tests how many came.
fn reads(
    rt: &impl Abort,
    alloc: Global,
    letters: usize,
    bad: u64,
    wanted: Result<usize, ReadError>,
) {
    let count = match read_all(alloc, &mut Letters::new(letters, bad)) {
        Ok(bytes) => Ok(bytes.len()),
        Err(error) => Err(error),
    };
    same(rt, "letters", count, wanted);
}

#[test]
fn a_reader_gives_all_its_bytes(rt: HostRuntime) {
    let alloc = rt.alloc();
    reads_text(&rt, alloc, "three letters", "abc");
    reads_text(&rt, alloc, "nothing", "");
    reads(&rt, alloc, MAX_BYTES, 0, Ok(MAX_BYTES));
    reads(&rt, alloc, MAX_BYTES + 1, 0, Err(ReadError::TooLarge));
    // Four pieces of up to 65536 bytes, and the read that finds the end.
    for bad in 1..6 {
        reads(&rt, alloc, 200_000, bad, Err(ReadError::ReadFault));
    }
    reads(&rt, alloc, 200_000, 6, Ok(200_000));
}

#[test]
fn a_reader_gives_more_than_a_mebibyte(rt: HostRuntime) {
    let alloc = rt.alloc();
    let mut text = String::new(alloc);
    // 16 bytes each: 1.5 MiB in all.
    for _ in 0..98_304 {
        add(&rt, &mut text, "0123456789abcde\n");
    }
    reads_text(&rt, alloc, "1.5 MiB", text.as_str());
    reads(&rt, alloc, 1_572_864, 0, Ok(1_572_864));
}

/// Adds a text after another.
fn add(rt: &impl Abort, whole: &mut String, part: &str) {
    whole.push_str(part).expect(rt, "memory");
}

#[test]
fn a_library_writer_is_written_to(rt: HostRuntime) {
    let alloc = rt.alloc();
    let mut out = ToWrite::new(Vec::new(alloc));
    assert!(rt; write_text(&mut out, b"abc").is_ok());
    assert!(rt; matches!(out.write(b""), Ok(0)));
    let (memory, large) = (RunError::OutOfMemory, ReadError::TooLarge);
    is_named(&rt, (memory.number(), memory.name()), (1, "OutOfMemory"));
    is_named(&rt, (large.number(), large.name()), (3, "TooLarge"));
}

/// Tests the number and the name of an error.
fn is_named(rt: &impl Abort, named: (u8, &str), wanted: (u8, &str)) {
    same(rt, "error", named, wanted);
}
