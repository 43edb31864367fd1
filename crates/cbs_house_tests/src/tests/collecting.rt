//! Tests of completions in a collector.

use super::{filled, same_at};
use cbs_house::{CollectError, Collector};
use cbs_job::Completion;
use linked_list_allocator::LocalHeap;
use std::alloc::Global;
use std::process::Abort;

/// A call of a collector, with the result that a test checks.
#[derive(Clone, Copy)]
enum Row {
    /// A place for one more result.
    MakeRoom(u16, Result<(), CollectError>),
    /// The announcement of a completion.
    Expect(u16, Result<(), CollectError>),
    /// The completion of a job: its server, number and result.
    Take(u16, u64, u64, Result<(), CollectError>),
    /// The results of a server.
    Results(u16, Option<&'static [u64]>),
    /// The results of a server, handed out.
    TakeResults(u16, Result<&'static [u64], CollectError>),
}

/// Makes the calls of these rows in turn, and checks each result.
fn plays(rt: &impl Abort, name: &str, collector: &mut Collector<&LocalHeap>, rows: &[Row]) {
    for (place, &row) in rows.iter().enumerate() {
        play(rt, (name, place), collector, row);
    }
}

/// Calls of a collector in a heap, in rows.
#[derive(Clone, Copy)]
struct Phase {
    name: &'static str,
    /// Whether the heap is full meanwhile.
    full: bool,
    rows: &'static [Row],
}

/// Makes the calls of these phases of a new collector for so many servers, and checks each result. All its memory is
/// that of a heap.
fn plays_in_heap(rt: &impl Abort, alloc: Global, servers: u16, phases: &[Phase]) {
    let heap = LocalHeap::new(alloc, 1 << 12).expect(rt, "a heap");
    let Ok(mut collector) = Collector::new(&heap, servers) else {
        panic!(rt; "a collector");
    };
    for phase in phases {
        if phase.full {
            plays_full(rt, alloc, &heap, &mut collector, phase);
        } else {
            plays(rt, phase.name, &mut collector, phase.rows);
        }
    }
}

/// Makes the calls of a phase while this heap is full, and checks each result.
fn plays_full(
    rt: &impl Abort,
    alloc: Global,
    heap: &LocalHeap,
    collector: &mut Collector<&LocalHeap>,
    phase: &Phase,
) {
    let ballast = filled(rt, alloc, heap);
    plays(rt, phase.name, collector, phase.rows);
    drop(ballast);
}

/// Makes the call of a row, which stands at this place of the rows of this name, and checks the result.
fn play(rt: &impl Abort, at: (&str, usize), collector: &mut Collector<&LocalHeap>, row: Row) {
    match row {
        Row::MakeRoom(server, wanted) => {
            same_at(rt, at, "make_room", collector.make_room(server), wanted);
        }
        Row::Expect(server, wanted) => {
            same_at(rt, at, "expect", collector.expect(server), wanted);
        }
        Row::Take(server, seq, result, wanted) => {
            let done = Completion {
                server,
                seq,
                result,
            };
            same_at(rt, at, "take", collector.take(done), wanted);
        }
        Row::Results(server, wanted) => {
            same_at(rt, at, "results", collector.results(server), wanted);
        }
        Row::TakeResults(server, wanted) => hands_out(rt, at, collector, server, wanted),
    }
}

/// Hands out the results of a server, and checks them.
fn hands_out(
    rt: &impl Abort,
    at: (&str, usize),
    collector: &mut Collector<&LocalHeap>,
    server: u16,
    wanted: Result<&[u64], CollectError>,
) {
    match collector.take_results(server) {
        Ok(results) => same_at(rt, at, "take_results", Ok(results.as_slice()), wanted),
        Err(error) => same_at(rt, at, "take_results", Err(error), wanted),
    }
}

/// There is room for two completions, and one is announced.
const ROOM: [Row; 3] = [
    Row::MakeRoom(0, Ok(())),
    Row::Expect(0, Ok(())),
    Row::MakeRoom(0, Ok(())),
];

/// The calls after that.
const NEXT: [Row; 11] = [
    Row::Expect(0, Ok(())),
    Row::Take(0, 0, 6, Ok(())),
    Row::Take(0, 0, 6, Err(CollectError::Double)),
    Row::Take(9, 0, 1, Err(CollectError::Stranger)),
    Row::Take(0, 5, 1, Err(CollectError::Early)),
    Row::Take(0, 1, 7, Ok(())),
    Row::Take(0, 2, 8, Err(CollectError::Early)),
    Row::Results(0, Some(&[6, 7])),
    Row::Expect(9, Err(CollectError::Stranger)),
    Row::MakeRoom(9, Err(CollectError::Stranger)),
    Row::Results(9, None),
];

/// Once there is room, no memory can be had, and none is needed.
static ONLY_NEXT: [Phase; 2] = [
    Phase {
        name: "there is room",
        full: false,
        rows: &ROOM,
    },
    Phase {
        name: "only the next is taken",
        full: true,
        rows: &NEXT,
    },
];

#[test]
fn only_the_next_completion_is_taken(rt: HostRuntime) {
    plays_in_heap(&rt, rt.alloc(), 1, &ONLY_NEXT);
}

/// A completion of the second of two servers is announced.
const SECOND: [Row; 10] = [
    Row::MakeRoom(1, Ok(())),
    Row::Expect(1, Ok(())),
    Row::Take(0, 0, 3, Err(CollectError::Early)),
    Row::Take(1, u64::MAX, 3, Err(CollectError::Early)),
    Row::Take(65535, 0, 3, Err(CollectError::Stranger)),
    Row::Take(2, 0, 3, Err(CollectError::Stranger)),
    Row::Take(1, 0, 3, Ok(())),
    Row::Take(1, 0, 4, Err(CollectError::Double)),
    Row::Results(0, Some(&[])),
    Row::Results(1, Some(&[3])),
];

static OF_TWO: [Phase; 1] = [Phase {
    name: "two servers",
    full: false,
    rows: &SECOND,
}];

static OF_NONE: [Phase; 1] = [Phase {
    name: "no server",
    full: false,
    rows: &[Row::Take(0, 0, 1, Err(CollectError::Stranger))],
}];

#[test]
fn each_server_has_its_own_results(rt: HostRuntime) {
    let alloc = rt.alloc();
    plays_in_heap(&rt, alloc, 2, &OF_TWO);
    plays_in_heap(&rt, alloc, 0, &OF_NONE);
}

/// Four completions are announced, and one is taken.
const FOUR: [Row; 5] = [
    Row::Expect(0, Ok(())),
    Row::Expect(0, Ok(())),
    Row::Expect(0, Ok(())),
    Row::Expect(0, Ok(())),
    Row::Take(0, 0, 6, Ok(())),
];

/// The results handed out while no memory can be had.
const REFUSED: [Row; 3] = [
    Row::TakeResults(1, Err(CollectError::Stranger)),
    Row::TakeResults(0, Err(CollectError::OutOfMemory)),
    Row::Results(0, Some(&[6])),
];

/// The results handed out when memory can be had again.
const HANDED: [Row; 2] = [Row::TakeResults(0, Ok(&[6])), Row::Results(0, Some(&[]))];

/// Four completions are announced and one result was handed out.
const BEHIND: [Row; 11] = [
    Row::Take(0, 0, 6, Err(CollectError::Double)),
    Row::Take(0, 2, 8, Err(CollectError::Early)),
    Row::Take(0, 1, 7, Ok(())),
    Row::Take(0, 1, 7, Err(CollectError::Double)),
    Row::Take(0, 2, 8, Ok(())),
    Row::Take(0, 4, 9, Err(CollectError::Early)),
    Row::Results(0, Some(&[7, 8])),
    Row::Take(0, 3, 9, Ok(())),
    // No completion is awaited any more.
    Row::TakeResults(0, Ok(&[7, 8, 9])),
    Row::TakeResults(0, Ok(&[])),
    Row::Take(0, 4, 1, Err(CollectError::Early)),
];

static NUMBERED_ON: [Phase; 4] = [
    Phase {
        name: "four are announced",
        full: false,
        rows: &FOUR,
    },
    Phase {
        name: "no memory is found",
        full: true,
        rows: &REFUSED,
    },
    Phase {
        name: "memory is found",
        full: false,
        rows: &HANDED,
    },
    // The three announced completions have their places.
    Phase {
        name: "one was handed out",
        full: true,
        rows: &BEHIND,
    },
];

#[test]
fn completions_are_numbered_on_behind_results_handed_out(rt: HostRuntime) {
    plays_in_heap(&rt, rt.alloc(), 1, &NUMBERED_ON);
}
