//! Task files: the content of a good one, and the place of a fault. What comes of files, good and faulty, is in
//! `tests/traces.txt` and `tests/faults.txt`, at the top of the repository.

use super::fakes::ran;
use super::{FIRST, same, says};
use cbs_core::Step;
use cbs_rules::Mode;
use cbsrun_commands::{BAD_FILE, Verb};
use cbsrun_tasks::{FileFault, FileKind, Place, TaskFile, read_file};
use std::alloc::Global;
use std::process::Abort;
use std::thread::Threads;
use std::time::Clock;

/// Ends the test unless the file is refused with a fault and nothing is written to the output.
fn has_a_fault<R: Abort + Threads + Clock + Sync>(rt: &R, alloc: Global, file: &[u8]) {
    let outcome = ran(rt, alloc, Verb::Replay, file);
    let told = outcome.err.taken.starts_with(b"cbsrun: file fault ");
    let left = (outcome.status, outcome.out.taken.len(), told);
    same(rt, "a file cut short", left, (BAD_FILE, 0, true));
}

#[test]
fn a_file_cut_short_has_a_fault(rt: HostRuntime) {
    let alloc = rt.alloc();
    let file = FIRST.as_bytes();
    // The last bytes are the bracket that ends the steps, and a line feed.
    let open = file.len() - 2;
    for end in 0..open + 1 {
        has_a_fault(&rt, alloc, &file[..end]);
    }
}

/// Returns the task file of a text without a fault.
pub fn good_file(rt: &impl Abort, alloc: Global, text: &str) -> TaskFile {
    read_file(alloc, text.as_bytes())
        .ok()
        .expect(rt, "a good file")
}

/// A file of format 1 with one server.
const SPELT: &str = "\
format = 1
mode = \"throttled\"
bound = [2, 3]
backlog = 7
ring = 9
server = [{ budget = 2, period = 5 }]
step = [
  { op = \"submit\", server = 0, job = \"peak\", units = [5] },
  { op = \"close\", server = 0 },
]
";

#[test]
fn a_file_holds_what_it_spells(rt: HostRuntime) {
    let file = good_file(&rt, rt.alloc(), SPELT);
    same(&rt, "modes", file.modes().len(), 1);
    same(&rt, "mode", file.modes().get(0), Some(Mode::Throttled));
    same(
        &rt,
        "backlog and ring",
        (file.backlog(), file.ring()),
        (7, 9),
    );
    same(&rt, "servers", file.plan().len(), 1);
    assert!(rt; matches!(file.plan().get(0), Some(r) if r.budget() == 2 && r.period() == 5));
    assert!(rt;
        matches!(file.steps(), [Step::Submit(0, task), Step::Close(0)] if task.left() == 1)
    );
}

/// Returns the fault of a value that is out of range at a place.
fn out_of_range(place: Place) -> FileFault {
    FileFault {
        kind: FileKind::OutOfRange,
        place,
    }
}

/// The text of that fault at each place.
static AT_PLACES: [(Place, &str); 3] = [
    (Place::Top, "a value is out of range, at top"),
    (Place::Server(1), "a value is out of range, at server 1"),
    (Place::Source(1), "a value is out of range, at source 1"),
];

#[test]
fn a_fault_has_its_place(rt: HostRuntime) {
    let alloc = rt.alloc();
    let fault = read_file(alloc, b"format = 3").err();
    same(&rt, "fault", fault, Some(out_of_range(Place::Top)));
    for &(place, text) in &AT_PLACES {
        says(&rt, alloc, &out_of_range(place), text);
    }
}
