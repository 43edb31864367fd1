//! The bound on the memory that a file may need.

use super::fakes::{Memory, Outcome, replays};
use super::{FIRST, FIRST_LINES, same};
use cbsrun_commands::{Verb, memory_bound, run_bytes_within};
use cbsrun_tasks::{Bounded, FileKind, TaskFile, read_file, read_file_within, wants_within};
use std::alloc::Global;
use std::process::Abort;
use std::thread::Threads;
use std::time::Clock;

/// Bytes, and how much memory they need. That is 1400 for a dot, 750 for a `[`, 700 for a `=`, 500 for a `{`, 100 for a
/// comma, and 4 for any other.
static WANTED: [(&str, u64); 6] = [
    ("ab\n", 12),
    ("a=1", 708),
    ("[a.b]", 2162),
    ("{a=1},", 1312),
    ("[[],[]]", 2362),
    ("# a.b\n", 1420),
];

/// The first example with its `ring` after the steps. So it has to be read as one document.
const RING_LAST: &str = "\
format = 1
mode = \"soft\"
bound = [1, 1]
backlog = 4
server = [{ budget = 2, period = 5 }]
step = [
  { op = \"submit\", server = 0, job = \"sum\", units = [1, 2, 3] },
  { op = \"run\" },
  { op = \"run\" },
  { op = \"run\" },
]
ring = 4
";

/// How much memory the first example needs as one document, wherever its `ring` stands: 16 times 700, 5 times 500, 4 times
/// 750, 11 times 100, and 193 times 4.
const FIRST_WANTS: u64 = 18_572;

#[test]
fn bytes_want_the_sum_of_their_charges(rt: HostRuntime) {
    for (bytes, wanted) in &WANTED {
        want(&rt, bytes, *wanted);
    }
}

/// Tests that the bytes need this much memory, and not less.
fn want(rt: &impl Abort, bytes: &str, wanted: u64) {
    let enough = wants_within(bytes.as_bytes(), wanted);
    let too_little = wants_within(bytes.as_bytes(), wanted.saturating_sub(1));
    same(rt, bytes, (enough, too_little), (true, false));
}

/// A file, and what comes of its replay within a bound on memory.
struct Case {
    file: &'static str,
    memory: u64,
    way: &'static str,
    status: u8,
    out: &'static str,
    err: &'static str,
}

const NO_MEMORY: &str = "cbsrun: file fault 7 OutOfMemory at top\n";

static CASES: [Case; 3] = [
    Case {
        file: FIRST,
        memory: 0,
        way: "in pieces",
        status: 0,
        out: FIRST_LINES,
        err: "",
    },
    Case {
        file: RING_LAST,
        memory: FIRST_WANTS - 1,
        way: "too large",
        status: 3,
        out: "",
        err: NO_MEMORY,
    },
    Case {
        file: RING_LAST,
        memory: FIRST_WANTS,
        way: "whole",
        status: 0,
        out: FIRST_LINES,
        err: "",
    },
];

#[test]
fn the_bound_is_asked_for_a_whole_document(rt: HostRuntime) {
    let alloc = rt.alloc();
    for case in &CASES {
        let read = read_file_within(alloc, case.memory, case.file.as_bytes());
        same(&rt, case.way, way_of(&read), case.way);
        same(&rt, case.way, read.into_result().is_ok(), case.status == 0);
        let outcome = ran_within(&rt, alloc, case.memory, case.file);
        outcome.leaves(&rt, case.way, case.status, case.out, case.err);
    }
}

/// Returns how a file was read.
fn way_of(read: &Bounded<TaskFile>) -> &'static str {
    match read {
        Bounded::InPieces(_) => "in pieces",
        Bounded::Whole(_) => "whole",
        Bounded::TooLarge => "too large",
    }
}

/// Replays a file that may need `memory` bytes of memory as one document. Returns the outcome.
fn ran_within<R: Threads + Clock + Sync>(
    rt: &R,
    alloc: Global,
    memory: u64,
    file: &str,
) -> Outcome {
    let mut out = Memory::ample(alloc);
    let mut err = Memory::ample(alloc);
    let (verb, bytes) = (Verb::Replay, file.as_bytes());
    let status = run_bytes_within(rt, alloc, memory, verb, bytes, &mut out, &mut err);
    Outcome { status, out, err }
}

/// How many dots a comment after the first example has, so that the file needs just less than the bound.
///
/// The bound is 1006632960. The first example needs 18572 of it, and the `#` needs 4. So 1006614384 are left, which are
/// 719010 times 1400, and 384.
const DOTS: usize = 719_010;

/// How many letters use the rest: 384 is 96 times 4.
const LETTERS: usize = 96;

/// Returns a file that needs as much memory as the first example, with a comment after it that uses the rest of the
/// bound.
fn longest(rt: &impl Abort, alloc: Global, file: &str) -> Vec<u8> {
    let mut file = Vec::from_slice(alloc, file.as_bytes()).expect(rt, "memory");
    for (byte, count) in [(b'#', 1), (b'.', DOTS), (b'x', LETTERS)] {
        for _ in 0..count {
            file.push(byte).ok().expect(rt, "memory");
        }
    }
    file
}

#[test]
fn a_document_may_want_960_mib(rt: HostRuntime) {
    let alloc = rt.alloc();
    let mut file = longest(&rt, alloc, RING_LAST);
    same(&rt, "at 960 MiB", read_file(alloc, &file).is_ok(), true);
    replays(&rt, alloc, "at 960 MiB", &file, 0, FIRST_LINES, "");
    // One more letter needs 4 more bytes.
    file.push(b'x').ok().expect(&rt, "memory");
    let kind = read_file(alloc, &file).err().map(|fault| fault.kind);
    same(&rt, "past 960 MiB", kind, Some(FileKind::OutOfMemory));
    replays(&rt, alloc, "past 960 MiB", &file, 3, "", NO_MEMORY);
}

#[test]
fn the_dots_of_a_comment_refuse_no_file_that_is_read_in_pieces(rt: HostRuntime) {
    let alloc = rt.alloc();
    let mut file = longest(&rt, alloc, FIRST);
    file.push(b'.').ok().expect(&rt, "memory");
    replays(&rt, alloc, "dots", &file, 0, FIRST_LINES, "");
}

/// Texts, and the bound that each is, if it is one.
static BOUNDS: [(&str, Option<u64>); 8] = [
    ("0", Some(0)),
    ("1", Some(1_048_576)),
    ("2048", Some(2_147_483_648)),
    ("18446744073709551615", Some(u64::MAX)),
    ("18446744073709551616", None),
    ("", None),
    ("-1", None),
    ("2 GiB", None),
];

#[test]
fn a_bound_is_a_whole_number_of_mebibytes(rt: HostRuntime) {
    for &(text, bound) in &BOUNDS {
        same(&rt, text, memory_bound(text).ok(), bound);
    }
}
