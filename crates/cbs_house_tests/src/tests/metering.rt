//! Tests of meters: what a server is charged whose units take longer than a tick.

ghost use Rattle.std.specs.Prelude.{◌≡◌, ◌-◌, refl};
ghost use Rattle.cbs_clients.specs.Houses.{rings_of};

use super::calls::sends;
use super::meeting::Shut;
use super::polling::one_client;
use super::rows::{Opened, Row, does_all};
use super::serving::opened;
use super::{house_of, same};
use cbs_core::Ran;
use cbs_house::{
    Client, ClockMeter, Feed, House, Meter, NoMeter, NoSink, OpenGate, Poll, serve_metered,
    serve_round_metered,
};
use cbs_job::{Completion, SumJob, Task, Work};
use cbs_rules::{LIMIT, Mode};
use std::alloc::Global;
use std::io;
use std::process::Abort;
use std::slice::from_mut;
use std::sync::atomic::{AtomicU64, Ordering};
use std::thread::Threads;
use std::time::{Clock, Duration};

/// A meter that returns two ticks after the first for each unit. It counts its calls of `begin` and of `beyond`.
#[derive(Drop)]
struct TwoBeyond {
    begun: u64,
    asked: u64,
}

impl TwoBeyond {
    const NEW: TwoBeyond = TwoBeyond { begun: 0, asked: 0 };
}

impl Meter for TwoBeyond {
    fn begin(&mut self) {
        self.begun = self.begun.saturating_add(1);
    }

    fn beyond(&mut self, _server: u16) -> u64 {
        self.asked = self.asked.saturating_add(1);
        2
    }
}

/// A call with a meter, with its result.
#[derive(Clone, Copy)]
enum Call {
    /// Calls without a meter.
    Rows(&'static [Row]),
    Run(Ran),
    /// A turn that takes this many messages, and does not advance.
    Turn(u64),
    Drain,
    /// A run until the client has ended.
    Close,
}

/// Calls with a meter of a new house of a soft server with 2 ticks in every 5.
struct Metered {
    name: &'static str,
    calls: &'static [Call],
}

/// A unit of the job, not its last.
const UNIT: Ran = Ran::Unit { server: 0, seq: 0 };

/// The last unit of a job of three ones.
const DONE: Ran = Ran::Done(Completion {
    server: 0,
    seq: 0,
    result: 3,
});

/// Runs a job of three units, unit by unit.
static RUNS: Metered = Metered {
    name: "run_metered",
    calls: &[
        Call::Rows(&[Row::Send(&[1, 1, 1], 0), Row::Poll(0, Poll::Took(0))]),
        Call::Run(UNIT),
        Call::Run(UNIT),
        Call::Run(DONE),
        Call::Run(Ran::Idle),
    ],
};

/// Takes three turns.
static TURNS: Metered = Metered {
    name: "turn_metered",
    calls: &[
        Call::Rows(&[Row::Send(&[1, 1, 1], 0)]),
        Call::Turn(1),
        Call::Turn(0),
        Call::Turn(0),
    ],
};

/// Drains the house.
static DRAINS: Metered = Metered {
    name: "drain_metered",
    calls: &[
        Call::Rows(&[Row::Send(&[1, 1, 1], 0), Row::Poll(0, Poll::Took(0))]),
        Call::Drain,
    ],
};

/// Runs until the client has ended.
static CLOSES: Metered = Metered {
    name: "run_until_closed_metered",
    calls: &[
        Call::Rows(&[Row::Send(&[1, 1, 1], 0), Row::End(Ok(()))]),
        Call::Close,
    ],
};

/// The state after three units of three ticks each: after these 9 ticks the last budget has 1 left.
static LONG: [Row; 4] = [
    Row::Now(9),
    Row::State(0, 1, 25, false),
    Row::Charges(0, Ok((6, 2))),
    Row::Results(0, Ok(&[3])),
];

/// The state after three units of one tick each.
static SHORT: [Row; 4] = [
    Row::Now(3),
    Row::State(0, 1, 10, false),
    Row::Charges(0, Ok((0, 0))),
    Row::Results(0, Ok(&[3])),
];

/// Makes the calls of a table, and checks the state behind them.
fn meters<R: Clock + Abort, M: Meter>(
    rt: &R,
    alloc: Global,
    meter: &mut M,
    table: &Metered,
    rows: &[Row],
) {
    let mut opened = Opened::new(rt, alloc, Mode::Soft, (2, 5), (4, 4));
    for &call in table.calls {
        makes_opened(rt, alloc, table.name, &mut opened, meter, call);
    }
    opened.plays(rt, alloc, table.name, rows);
}

/// Makes a call of a table, and checks the result.
fn makes_opened<R: Clock + Abort, M: Meter>(
    rt: &R,
    alloc: Global,
    name: &str,
    opened: &mut Opened,
    meter: &mut M,
    call: Call,
) {
    match call {
        Call::Rows(rows) => opened.plays(rt, alloc, name, rows),
        _ => makes(rt, &mut opened.house, meter, call),
    }
}

/// Makes a call with a meter, and checks the result.
fn makes<R: Clock + Abort, M: Meter>(rt: &R, house: &mut House<SumJob>, meter: &mut M, call: Call)
    ensures { rings_of house.new ≡ rings_of house.old }
{
    match call {
        Call::Run(wanted) => same(rt, "run_metered", house.run_metered(meter), wanted),
        Call::Turn(took) => {
            let turn = house.turn_metered(meter);
            same(rt, "turn_metered", (turn.took, turn.advanced), (took, 0));
        }
        Call::Drain => same(rt, "drain_metered", house.drain_metered(meter), Ok(())),
        Call::Close => closes(rt, house, meter),
        Call::Rows(_) => {}
    }
}

/// Runs until the client has ended.
fn closes<R: Clock + Abort, M: Meter>(rt: &R, house: &mut House<SumJob>, meter: &mut M)
    ensures { rings_of house.new ≡ rings_of house.old }
{
    let answer = house.run_until_closed_metered(rt, &mut NoSink, meter, 1);
    same(rt, "run_until_closed_metered", answer, Ok(()));
}

/// Serves a round of three turns.
fn rounds<R: Threads + Clock + Sync + Abort, M: Meter>(
    rt: &R,
    alloc: Global,
    meter: &mut M,
    rows: &[Row],
) {
    let (mut house, mut client) = one_client(rt, alloc, Mode::Soft, (2, 5), (4, 4));
    sends(rt, alloc, ("a round", 0), &mut client, &[1, 1, 1], 0);
    let mut feed = Feed::new(client, Vec::new(alloc));
    let round = serve_round_metered(rt, &mut house, from_mut(&mut feed), 3, &Shut, meter);
    same(rt, "serve_round_metered", (round.sent, round.took), (0, 1));
    does_all(rt, "serve_round_metered", &mut house, rows);
}

/// Serves a feed of the job.
fn serves<R: Threads + Clock + Sync + Abort, M: Meter>(
    rt: &R,
    alloc: Global,
    meter: &mut M,
    rows: &[Row],
) {
    let (mut house, mut feeds) = opened(rt, alloc, &[(Mode::Soft, 2, 5)], 4, &[&[&[1, 1, 1]]]);
    let answer = serve_metered(rt, &mut house, &mut feeds, &OpenGate, meter);
    same(rt, "serve_metered", answer, Ok(()));
    does_all(rt, "serve_metered", &mut house, rows);
}

#[test]
fn units_are_charged_what_a_meter_tells(rt: HostRuntime) {
    let alloc = rt.alloc();
    let mut meter = TwoBeyond::NEW;
    meters(&rt, alloc, &mut meter, &RUNS, &LONG);
    // Four runs, of which the last finds no unit.
    same(&rt, "begun, asked", (meter.begun, meter.asked), (4, 3));
    meters(&rt, alloc, &mut meter, &TURNS, &LONG);
    meters(&rt, alloc, &mut meter, &DRAINS, &LONG);
    same(&rt, "begun, asked", (meter.begun, meter.asked), (10, 9));
}

#[test]
fn serving_charges_what_a_meter_tells(rt: HostRuntime) {
    let alloc = rt.alloc();
    let mut meter = TwoBeyond::NEW;
    meters(&rt, alloc, &mut meter, &CLOSES, &LONG);
    rounds(&rt, alloc, &mut meter, &LONG);
    serves(&rt, alloc, &mut meter, &LONG);
    same(&rt, "asked", meter.asked, 9);
}

#[test]
fn no_meter_charges_nothing(rt: HostRuntime) {
    let alloc = rt.alloc();
    for table in [&RUNS, &TURNS, &DRAINS, &CLOSES] {
        meters(&rt, alloc, &mut NoMeter, table, &SHORT);
    }
    rounds(&rt, alloc, &mut NoMeter, &SHORT);
    serves(&rt, alloc, &mut NoMeter, &SHORT);
}

/// The job is taken two ticks before the clock's end, and a unit is run.
static AT_THE_END: Metered = Metered {
    name: "at the clock's end",
    calls: &[
        Call::Rows(&[
            Row::Send(&[1, 1, 1], 0),
            Row::Advance(LIMIT - 2, Ok(())),
            Row::Poll(0, Poll::Took(0)),
        ]),
        Call::Run(UNIT),
    ],
};

/// The unit was charged the last tick.
static CHARGED: [Row; 3] = [
    Row::Now(LIMIT),
    Row::Charges(0, Ok((1, 1))),
    Row::Run(Ran::ClockEnd),
];

#[test]
fn a_unit_is_charged_what_the_clock_can_hold(rt: HostRuntime) {
    meters(&rt, rt.alloc(), &mut TwoBeyond::NEW, &AT_THE_END, &CHARGED);
}

/// A clock that is later by `step` nanoseconds each time that it is read, and by what a unit adds.
#[derive(Drop)]
struct Steady {
    now: AtomicU64,
    step: u64,
}

impl Clock for Steady {
    fn monotonic(&self) -> io::Result<Duration> {
        let now = self.now.fetch_add(self.step, Ordering::SeqCst);
        Ok(Duration::from_nanos(now))
    }

    fn since_1970(&self) -> io::Result<Duration> {
        Ok(Duration::ZERO)
    }
}

/// The nanoseconds that each unit takes, its charge in ticks of 10 microseconds after the first, and the clock.
static TOOK: [(u64, &[Row]); 7] = [
    (0, &[Row::Charges(0, Ok((0, 0))), Row::Now(1)]),
    (1, &[Row::Charges(0, Ok((0, 0))), Row::Now(1)]),
    (10_000, &[Row::Charges(0, Ok((0, 0))), Row::Now(1)]),
    (10_001, &[Row::Charges(0, Ok((1, 1))), Row::Now(2)]),
    (20_000, &[Row::Charges(0, Ok((1, 1))), Row::Now(2)]),
    (30_000, &[Row::Charges(0, Ok((2, 2))), Row::Now(3)]),
    (30_001, &[Row::Charges(0, Ok((3, 3))), Row::Now(4)]),
];

/// The job is taken, and a unit is run.
static ONE_UNIT: Metered = Metered {
    name: "one unit",
    calls: &[
        Call::Rows(&[Row::Send(&[1, 1, 1], 0), Row::Poll(0, Poll::Took(0))]),
        Call::Run(UNIT),
    ],
};

/// Runs a unit that takes `step` nanoseconds, and checks what it is charged.
fn is_charged<R: Clock + Abort>(rt: &R, alloc: Global, step: u64, rows: &[Row]) {
    let clock = Steady {
        now: AtomicU64::new(7),
        step,
    };
    let mut meter = ClockMeter::new(&clock, Duration::from_micros(10)).expect(rt, "a meter");
    meters(rt, alloc, &mut meter, &ONE_UNIT, rows);
}

#[test]
fn a_clock_meter_charges_each_further_tick_that_was_begun(rt: HostRuntime) {
    for &(step, rows) in &TOOK {
        is_charged(&rt, rt.alloc(), step, rows);
    }
}

#[test]
fn a_unit_that_takes_no_time_is_charged_nothing(rt: HostRuntime) {
    let alloc = rt.alloc();
    let clock = Steady {
        now: AtomicU64::new(7),
        step: 0,
    };
    let tick = Duration::from_nanos(1);
    let mut meter = ClockMeter::new(&clock, tick).expect(&rt, "a meter");
    meters(&rt, alloc, &mut meter, &DRAINS, &SHORT);
    meters(&rt, alloc, &mut meter, &CLOSES, &SHORT);
    let none = ClockMeter::new(&clock, Duration::ZERO).is_none();
    same(&rt, "a tick of no length is refused", none, true);
}

/// A clock that cannot be read.
#[derive(Drop)]
struct Broken;

impl Clock for Broken {
    fn monotonic(&self) -> io::Result<Duration> {
        Err(io::Error::from(io::ErrorKind::Unsupported))
    }

    fn since_1970(&self) -> io::Result<Duration> {
        Ok(Duration::ZERO)
    }
}

#[test]
fn a_clock_that_cannot_be_read_charges_nothing(rt: HostRuntime) {
    let tick = Duration::from_nanos(1);
    let mut meter = ClockMeter::new(&Broken, tick).expect(&rt, "a meter");
    meters(&rt, rt.alloc(), &mut meter, &DRAINS, &SHORT);
}

/// A job whose units each take 25 microseconds of a clock.
#[derive(Drop)]
struct SlowJob<'a> {
    units: u32,
    clock: &'a Steady,
}

impl<'a> Work for SlowJob<'a> {
    ghost meaning = { record { left = λ j. j.units; output = λ j. 0; after = λ j. record j { units = j.units - 1 } } };

    ghost lowers = { λ j some. refl };

    fn left(&self) -> u32 {
        self.units
    }

    fn step(&mut self) {
        self.units -= 1;
        self.clock.now.fetch_add(25_000, Ordering::SeqCst);
    }

    fn output(&self) -> u64 {
        0
    }
}

/// Returns a house of a soft server with 2 ticks in every 5. Its client sent a job of two such units, and is gone.
fn slow_house<'a>(rt: &impl Abort, alloc: Global, clock: &'a Steady) -> House<SlowJob<'a>> {
    let (house, mut clients) = house_of(rt, alloc, &[(Mode::Soft, 2, 5)], (4, 4));
    let mut client = clients.pop().expect(rt, "a client");
    sends_slow(rt, &mut client, clock);
    house
}

/// Sends a job of two such units.
fn sends_slow<'a>(rt: &impl Abort, client: &mut Client<SlowJob<'a>>, clock: &'a Steady) {
    let task = Task::new(SlowJob { units: 2, clock }).ok();
    let sent = client.send(task.expect(rt, "a task"));
    same(rt, "send", sent.is_ok(), true);
}

/// Takes a turn, and checks the clock.
fn turns_until<W: Work, M: Meter>(rt: &impl Abort, house: &mut House<W>, meter: &mut M, now: u64) {
    house.turn_metered(meter);
    same(rt, "now", house.now(), now);
}

#[test]
fn a_clock_meter_takes_the_time_of_the_unit(rt: HostRuntime) {
    let clock = Steady {
        now: AtomicU64::new(7),
        step: 0,
    };
    let mut house = slow_house(&rt, rt.alloc(), &clock);
    let mut meter = ClockMeter::new(&clock, Duration::from_micros(10)).expect(&rt, "a meter");
    // One turn each: a unit of 25 microseconds takes three ticks.
    turns_until(&rt, &mut house, &mut meter, 3);
    turns_until(&rt, &mut house, &mut meter, 6);
    let charges = house.charges(0).map(|it| (it.total, it.most));
    same(&rt, "charges", charges, Ok((4, 2)));
}
