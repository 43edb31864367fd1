//! Tests of a pacer: what the host of a house does next, by a list of readings. A tick is 1000 nanoseconds.

use super::calls::sends;
use super::{house_of, same_at};
use cbs_core::Ran;
use cbs_house::{Client, House};
use cbs_job::{Completion, SumJob};
use cbs_pacer::{Counts, Next, Pacer, Rounding, Tick};
use cbs_rules::{LIMIT, Mode};
use std::alloc::Global;
use std::process::Abort;

/// A call of the pacer, or of the client, with its result.
#[derive(Clone, Copy)]
enum Call {
    /// A question at a reading: how many messages are taken, and what is next.
    Ask(u64, u32, Next),
    /// A question at a reading, after a unit that took so long by another measure.
    Measured(u64, u64, Next),
    /// The end of a unit at a reading.
    Done(u64),
    /// The client's end, which is sent.
    End,
    /// Ticks that the host lets pass by itself.
    Advance(u64),
}

/// Calls of the pacer of a new house of one server, whose client has sent a job.
struct Case {
    name: &'static str,
    /// The mode, the budget and the period of the server.
    server: (Mode, u64, u64),
    rounding: Rounding,
    /// The reading at which the time begins.
    begun: u64,
    /// The numbers of the job, one for each unit.
    numbers: &'static [u32],
    calls: &'static [Call],
    /// What was counted in the end: units, overruns, the longest unit, the ticks charged, and the most by which the
    /// clock was behind. It is not behind in the end.
    counts: [u64; 5],
}

/// A unit of the job, not its last.
const UNIT: Next = Next::Do(Ran::Unit { server: 0, seq: 0 });

/// The last unit of the job, whose numbers have the sum 3.
const LAST: Next = Next::Do(Ran::Done(Completion {
    server: 0,
    seq: 0,
    result: 3,
}));

static CASES: [Case; 7] = [
    Case {
        name: "an overrun is rounded up, and charged",
        server: (Mode::Soft, 2, 5),
        rounding: Rounding::Up,
        begun: 5000,
        numbers: &[1, 2],
        calls: &[
            Call::Ask(5000, 1, UNIT),
            // The clock is at 1, and its tick comes at 5000 + 1000.
            Call::Ask(5300, 0, Next::SleepUntil(6000)),
            Call::Ask(6000, 0, LAST),
            // 2500 beyond the reading before: 2 ticks are charged, so the clock is at 4. 3500 are over.
            Call::Ask(8500, 0, Next::Listen),
            // Nobody holds a job: until the clock's end, 10^12 ticks of 1000 after 5000.
            Call::Ask(8500, 0, Next::WaitUntil(1_000_000_000_005_000)),
            Call::End,
            Call::Ask(9700, 1, Next::Over),
        ],
        counts: [2, 1, 2500, 2, 0],
    },
    Case {
        name: "ticks pass while the server is throttled",
        server: (Mode::Throttled, 1, 5),
        rounding: Rounding::Up,
        begun: 0,
        numbers: &[1, 2],
        calls: &[
            Call::Ask(0, 1, UNIT),
            Call::Ask(1000, 0, Next::Listen),
            // It is replenished at tick 5.
            Call::Ask(1000, 0, Next::WaitUntil(5000)),
            Call::Ask(5200, 0, LAST),
            Call::Ask(6100, 0, Next::Listen),
        ],
        counts: [2, 0, 1000, 0, 0],
    },
    Case {
        name: "less than a tick is carried",
        server: (Mode::Soft, 2, 5),
        rounding: Rounding::Carry,
        begun: 0,
        numbers: &[1, 1, 1],
        calls: &[
            Call::Ask(0, 1, UNIT),
            // 600 are carried.
            Call::Ask(1600, 0, UNIT),
            // 600 and 500: a tick is charged, and 100 are carried.
            Call::Ask(3100, 0, LAST),
            Call::Ask(4000, 0, Next::Listen),
        ],
        counts: [3, 2, 1600, 1, 0],
    },
    Case {
        name: "a unit pays for what it took by another measure",
        server: (Mode::Soft, 2, 5),
        rounding: Rounding::Up,
        begun: 0,
        numbers: &[1, 2],
        calls: &[
            Call::Ask(0, 1, UNIT),
            // 800 of 5000: nothing is charged, and the clock, at 1, is 4 ticks behind.
            Call::Measured(5000, 800, LAST),
            // At most the 500 since the last reading. The 3 ticks that are over pass.
            Call::Measured(5500, 9000, Next::Listen),
        ],
        counts: [2, 0, 800, 0, 4],
    },
    Case {
        name: "a step back of the clock is no time",
        server: (Mode::Soft, 2, 5),
        rounding: Rounding::Up,
        begun: 1000,
        numbers: &[1, 2],
        calls: &[
            Call::Ask(1000, 1, UNIT),
            Call::Ask(400, 0, Next::SleepUntil(1400)),
            Call::Ask(1400, 0, LAST),
        ],
        counts: [1, 0, 0, 0, 0],
    },
    Case {
        name: "a host that stops ends its unit",
        server: (Mode::Soft, 2, 5),
        rounding: Rounding::Up,
        begun: 0,
        numbers: &[1, 2],
        calls: &[
            Call::Ask(0, 1, UNIT),
            // 2 ticks are charged, so the clock is at 3.
            Call::Done(3000),
            Call::Ask(3000, 0, LAST),
        ],
        counts: [1, 1, 3000, 2, 0],
    },
    Case {
        name: "the clock's end",
        server: (Mode::Soft, 2, 5),
        rounding: Rounding::Up,
        begun: 0,
        numbers: &[1],
        calls: &[Call::Advance(LIMIT), Call::Ask(0, 1, Next::ClockEnd)],
        counts: [0, 0, 0, 0, 0],
    },
];

/// Makes a call, and checks its result.
fn calls(
    rt: &impl Abort,
    at: (&str, usize),
    (house, client): (&mut House<SumJob>, &mut Client<SumJob>),
    pacer: &mut Pacer,
    call: Call,
) {
    match call {
        Call::Ask(reading, taken, next) => {
            let answer = pacer.next(house, reading);
            same_at(rt, at, "next", (pacer.taken(), answer), (taken, next));
        }
        Call::Measured(reading, took, next) => {
            let answer = pacer.next_measured(house, reading, took);
            same_at(rt, at, "next_measured", answer, next);
        }
        Call::Done(reading) => pacer.done(house, reading),
        Call::End => same_at(rt, at, "end", client.end().is_ok(), true),
        Call::Advance(ticks) => same_at(rt, at, "advance", house.advance(ticks).is_ok(), true),
    }
}

/// Makes the calls of a case.
fn plays(rt: &impl Abort, alloc: Global, case: &Case) {
    let (mut house, mut clients) = house_of(rt, alloc, &[case.server], (4, 4));
    let client = clients.get_mut(0).expect(rt, "a client");
    sends(rt, alloc, (case.name, 0), client, case.numbers, 0);
    let tick = Tick::new(1000).expect(rt, "a tick");
    let mut pacer = Pacer::begin(tick, case.rounding, house.now(), case.begun);
    for (place, &call) in case.calls.iter().enumerate() {
        let at = (case.name, place);
        calls(rt, at, (&mut house, client), &mut pacer, call);
    }
    let at = (case.name, case.calls.len());
    let [units, overruns, longest, charged, most_behind] = case.counts;
    let counts = Counts {
        units,
        overruns,
        longest,
        charged,
        behind: 0,
        most_behind,
    };
    same_at(rt, at, "counts", pacer.counts(), counts);
}

#[test]
fn pacers_tell_what_is_next(rt: HostRuntime) {
    for case in &CASES {
        plays(&rt, rt.alloc(), case);
    }
}
