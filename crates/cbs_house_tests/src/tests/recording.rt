//! Tests of houses whose steps are told to a tape, and of cores that make them again.

use super::calls::sends;
use super::rows::{Case, Opened, Row, does_all};
use super::{house_of, same, same_at, setup_of};
use cbs_core::{Core, Ran};
use cbs_house::{House, Poll};
use cbs_job::{SumJob, Task};
use cbs_rules::Mode;
use cbs_tape::{Ending, Entry, Tape, read};
use cbs_units::CountJob;
use std::alloc::Global;
use std::process::Abort;

/// A soft and a throttled server with 2 ticks in every 5 each.
static SERVERS: [(Mode, u64, u64); 2] = [(Mode::Soft, 2, 5), (Mode::Throttled, 2, 5)];

/// Calls of a house of these servers. The client of each sent a sum of three ones, and is gone.
static ROWS: [Row; 20] = [
    Row::Poll(0, Poll::Took(0)),
    Row::Poll(1, Poll::Took(0)),
    Row::Unit(0, 0),
    Row::Charge(1, Ok(())),
    // The deadline of server 0 is now the later one.
    Row::Unit(1, 0),
    Row::Charge(0, Ok(())),
    Row::Charge(1, Ok(())),
    Row::State(1, 0, 5, true),
    Row::Unit(0, 0),
    Row::Done(0, 0, 3),
    Row::Unit(1, 0),
    Row::ChargeServer(1, 2, Ok(())),
    Row::Now(9),
    // The drain waits for a tick, and runs the last unit.
    Row::Drain(Ok(())),
    Row::Now(11),
    Row::Run(Ran::Idle),
    Row::Advance(3, Ok(())),
    Row::Poll(1, Poll::Closed),
    Row::Now(14),
    Row::Results(1, Ok(&[3])),
];

/// Their steps: the Run with nobody ready and the charge of 0 ticks are not told.
static BYTES: [u8; 21] = [
    // The jobs, and a unit of each with its charge.
    0x40, 0x03, 0x41, 0x03, 0xC0, 0x80, 0x01, 0xC0, 0x81, 0x01,
    // Three units, the charge of the last, a tick, a unit, three ticks, the close, the mark.
    0xC2, 0x81, 0x02, 0x02, 0x01, 0xC0, 0x02, 0x03, 0x03, 0x01, 0x04,
];

/// Returns a tape with this much memory.
fn tape_of(rt: &impl Abort, alloc: Global, bytes: u32) -> Option<Box<Tape>> {
    let tape = Tape::new(alloc, bytes).ok().expect(rt, "memory");
    Some(Box::new(alloc, tape).ok().expect(rt, "memory"))
}

/// Takes the tape from a house, and returns whether it is whole, and its bytes.
fn taken(rt: &impl Abort, house: &mut House<SumJob>) -> (bool, Vec<u8>) {
    let tape = Box::into_inner(house.record(None).expect(rt, "a tape"));
    (tape.is_whole(), tape.end())
}

/// Makes the steps of an entry, each of which is accepted.
fn makes(rt: &impl Abort, core: &mut Core<CountJob>, entry: Entry) {
    match entry {
        Entry::Accepted { server, units } => {
            let task = Task::new(CountJob { units }).ok().expect(rt, "a task");
            core.submit(u16::from(server), task)
                .ok()
                .expect(rt, "a job");
        }
        Entry::Units(units) => {
            for _unit in 0..units {
                core.run();
            }
        }
        Entry::Advanced(ticks) => core.advance(ticks).expect(rt, "an advance"),
        Entry::Charged { server, ticks } => {
            core.charge(u16::from(server), ticks).expect(rt, "a charge");
        }
        Entry::Closed(server) => core.close(u16::from(server)).expect(rt, "a close"),
    }
}

/// Returns a core of the servers that made the steps of a tape.
fn replayed(rt: &impl Abort, alloc: Global, bytes: &[u8]) -> Core<CountJob> {
    let (plan, modes) = setup_of(rt, &SERVERS);
    let mut core = Core::new(alloc, plan, modes, 4).ok().expect(rt, "a core");
    let tape = read(alloc, bytes).ok().expect(rt, "memory");
    for &entry in &tape.entries {
        makes(rt, &mut core, entry);
    }
    core
}

/// Checks that a core shows what the house shows.
fn shows_the_same(rt: &impl Abort, core: &Core<CountJob>, house: &House<SumJob>) {
    same(rt, "now", core.now(), house.now());
    for server in 0..2 {
        let at = ("server", usize::from(server));
        same_at(
            rt,
            at,
            "view",
            core.view(server).ok(),
            house.view(server).ok(),
        );
        let charges = core.charges(server).ok().map(|it| (it.total, it.most));
        let wanted = house.charges(server).ok().map(|it| (it.total, it.most));
        same_at(rt, at, "charges", charges, wanted);
    }
}

#[test]
fn a_core_makes_the_steps_of_a_house(rt: HostRuntime) {
    let alloc = rt.alloc();
    let (mut house, mut clients) = house_of(&rt, alloc, &SERVERS, (4, 4));
    same(&rt, "no tape before", house.record(None).is_none(), true);
    house.record(tape_of(&rt, alloc, 100));
    for client in &mut clients {
        sends(&rt, alloc, ("two servers", 0), client, &[1, 1, 1], 0);
    }
    drop(clients);
    does_all(&rt, "a house with a tape", &mut house, &ROWS);
    let (whole, bytes) = taken(&rt, &mut house);
    same(&rt, "is_whole", whole, true);
    same(&rt, "bytes", bytes.as_slice(), &BYTES);
    let core = replayed(&rt, alloc, bytes.as_slice());
    shows_the_same(&rt, &core, &house);
}

/// A house of one soft server, whose job of four units gets two.
const TWO_UNITS: [Row; 4] = [
    Row::Send(&[1, 2, 3, 4], 0),
    Row::Poll(0, Poll::Took(0)),
    Row::Unit(0, 0),
    Row::Unit(0, 0),
];

/// The job ends early, and a tick passes.
static ENDED: Case = Case {
    name: "an early end is lost",
    mode: Mode::Soft,
    rate: (2, 5),
    limits: (4, 4),
    rows: &[Row::Finish(0, Ok((0, 3))), Row::Advance(1, Ok(()))],
};

/// A tick passes.
static FULL: Case = Case {
    name: "a step that finds no room is lost",
    mode: Mode::Soft,
    rate: (2, 5),
    limits: (4, 4),
    rows: &[Row::Advance(1, Ok(())), Row::Unit(0, 0)],
};

/// Makes the two units and then the calls of a case, of a house with a tape of so many bytes, which has the job and its
/// two units in the end.
fn loses(rt: &impl Abort, alloc: Global, bytes: u32, case: &Case) {
    let mut opened = Opened::new(rt, alloc, case.mode, case.rate, case.limits);
    opened.house.record(tape_of(rt, alloc, bytes));
    opened.plays(rt, alloc, case.name, &TWO_UNITS);
    opened.plays(rt, alloc, case.name, case.rows);
    let (whole, bytes) = taken(rt, &mut opened.house);
    same(rt, case.name, whole, false);
    same(rt, case.name, bytes.as_slice(), &[0x40, 0x04, 0xC1]);
    let tape = read(alloc, bytes.as_slice()).ok().expect(rt, "memory");
    same(rt, case.name, tape.ending, Ending::Cut);
}

#[test]
fn a_tape_that_loses_a_step_has_the_first_ones(rt: HostRuntime) {
    let alloc = rt.alloc();
    loses(&rt, alloc, 100, &ENDED);
    loses(&rt, alloc, 0, &FULL);
}

#[test]
fn a_tape_is_taken_from_a_house_in_pieces(rt: HostRuntime) {
    let alloc = rt.alloc();
    let (mut house, _clients) = house_of::<SumJob, Global>(&rt, alloc, &SERVERS, (4, 4));
    let mut out = [0; 31];
    same(&rt, "no tape", house.take_tape(&mut out), None);
    same(&rt, "no tape", house.tape_is_whole(), None);
    // This memory has room for one entry.
    house.record(tape_of(&rt, alloc, 0));
    for _piece in 0..50 {
        same(&rt, "advance", house.advance(7), Ok(()));
        same(&rt, "a short place", house.take_tape(&mut [0; 30]), None);
        same(&rt, "a piece", house.take_tape(&mut out), Some(2));
    }
    same(&rt, "bytes", out.get(..2).expect(&rt, "bytes"), &[2, 7]);
    same(&rt, "is_whole", house.tape_is_whole(), Some(true));
}
