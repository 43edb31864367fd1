//! Small loads, from their terms to the steps that are seen, worked out by hand.

ghost use Rattle.std.specs.Prelude.{◌≤◌, ◌<◌, All, length};
ghost use Rattle.cbsrun_simulate.specs.Drawing.{IsLawful};

use crate::tests::same;
use cbs_job::Completion;
use cbs_rate::{Bound, Reservation};
use cbs_rules::{Mode, Setup};
use cbs_steps::Ran;
use cbsrun_events::{Event, Seen, View};
use cbsrun_simulate::{Range, Release, Releases, Source, SourceTerms, load_of, simulate_plan};
use rand_pcg::Pcg64;
use std::alloc::{AllocError, Global};
use std::process::Abort;

/// The event of a step, and the clock after it.
#[derive(Clone, Copy, Debug, PartialEq, Eq)]
struct Moment {
    clock: u64,
    event: Event,
}

/// A view that keeps the moment of each step.
#[derive(Drop)]
struct Moments {
    seen: Vec<Moment>,
}

impl View<()> for Moments {
    ghost saw = { λ first moments seen. Unit {0} };

    fn see(&mut self, _lent: &mut (), seen: Seen) -> Result<(), AllocError> {
        self.seen.push(Moment {
            clock: seen.clock,
            event: seen.event,
        })?;
        Ok(())
    }
}

/// Returns the terms of a source that draws nothing.
fn source(server: u16, first: u64, every: u64, units: u32, jobs: u64, overrun: u64) -> SourceTerms
    requires units { (0 < units) × (units ≤ 1000000) }
    requires every { (0 < every) × (every ≤ 1000000000000) }
    ensures { IsLawful result }
{
    SourceTerms {
        server,
        first,
        every: Range::fixed(every),
        jitter: 0,
        units: Range::fixed(u64::from(units)),
        jobs: Some(jobs),
        within: None,
        overrun: Range::fixed(overrun),
    }
}

/// Returns the moments of a load on soft servers with these budgets and periods.
fn shown(
    rt: &impl Abort,
    alloc: Global,
    servers: &[(u64, u64)],
    terms: &[SourceTerms],
    until: u64,
) -> Vec<Moment>
    requires lawful { All IsLawful terms.now }
    requires few { length terms.now ≤ 65536 }
    requires end { until ≤ 1000000000000 }
{
    let mut setup = Setup::new(Bound::new(1, 1).ok().expect(rt, "bound"));
    for (budget, period) in servers {
        let reservation = Reservation::new(*budget, *period)
            .ok()
            .expect(rt, "reservation");
        setup
            .admit(reservation, Mode::Soft)
            .ok()
            .expect(rt, "admitted");
    }
    let mut load = load_of(alloc, terms, &[], until, 0)
        .ok()
        .expect(rt, "memory");
    let mut moments = Moments {
        seen: Vec::new(alloc),
    };
    let core = simulate_plan(
        alloc,
        setup.plan(),
        setup.modes(),
        8,
        &mut load,
        until,
        &mut moments,
        &mut (),
    )
    .ok()
    .expect(rt, "simulated");
    assert!(rt; core.now() == until);
    moments.seen
}

/// The ticks after which jobs are finished, and their servers.
static DONE: [(u64, u16); 10] = [
    (2, 0),
    (7, 0),
    (10, 1),
    (12, 0),
    (17, 0),
    (22, 0),
    (27, 0),
    (30, 1),
    (32, 0),
    (37, 0),
];

// Control has 2 units in every 5 ticks, on a server with 2 in 5. Vision has 6 units in every 20 ticks, on a server with
// 3 in 10. From tick 0, control runs until 2, vision until 5, control again until 7, and vision until 10. This repeats
// every 20 ticks.
#[test]
fn robot(rt: HostRuntime) {
    let alloc = rt.alloc();
    let terms = [source(0, 0, 5, 2, 100, 0), source(1, 0, 20, 6, 100, 0)];
    let moments = shown(&rt, alloc, &[(2, 5), (3, 10)], &terms, 40);
    let mut count = 0;
    for moment in &moments {
        if let Event::Ran(Ran::Done(Completion { server, .. })) = moment.event {
            let wanted = DONE.get(count).copied().expect(&rt, "one more is done");
            same(&rt, "a job that ends", (moment.clock, server), wanted);
            count += 1;
        }
    }
    same(&rt, "jobs that end", count, DONE.len());
}

/// A job of two units at tick 0. Each unit takes 3 ticks beyond its first.
const LONG: Release = Release {
    tick: 0,
    source: 0,
    server: 0,
    units: 2,
    overrun: 3,
    within: None,
};

/// A job of one unit at tick 2, which takes one tick.
const SHORT: Release = Release {
    tick: 2,
    source: 1,
    server: 1,
    units: 1,
    overrun: 0,
    within: None,
};

/// Returns the moment at which a server accepts its first job.
fn submitted(clock: u64, release: Release, promised: u128) -> Moment {
    let event = Event::Accepted {
        job: release.arrival(),
        number: 0,
        promised: Some(promised),
    };
    Moment { clock, event }
}

/// Returns the moment of the last unit of a server's first job.
fn done(clock: u64, server: u16, output: u64) -> Moment {
    let completion = Completion {
        server,
        seq: 0,
        result: output,
    };
    Moment {
        clock,
        event: Event::Ran(Ran::Done(completion)),
    }
}

fn charged(clock: u64, ticks: u64) -> Moment {
    Moment {
        clock,
        event: Event::Charged { server: 0, ticks },
    }
}

/// The moment of a unit of the long job that is not its last.
const FIRST_UNIT: Moment = Moment {
    clock: 1,
    event: Event::Ran(Ran::Unit { server: 0, seq: 0 }),
};

// Server 0 has 2 in 5, and server 1 has 1 in 10. After the first unit of the long job and its charge, at tick 4, the
// deadline of its server is 15. The short job waits for that. Its deadline is then 14, so it runs first.
#[test]
fn overrun(rt: HostRuntime) {
    let alloc = rt.alloc();
    let terms = [source(0, 0, 10, 2, 1, 3), source(1, 2, 10, 1, 1, 0)];
    let moments = shown(&rt, alloc, &[(2, 5), (1, 10)], &terms, 12);
    let wanted = [
        submitted(0, LONG, 5),
        FIRST_UNIT,
        charged(4, 3),
        submitted(4, SHORT, 14),
        done(5, 1, 0),
        done(6, 0, 3),
        charged(9, 3),
        Moment {
            clock: 12,
            event: Event::Advanced(3),
        },
    ];
    same(&rt, "moments", moments.as_slice(), wanted.as_slice());
}

// Up to tick 3, the charge is cut to two ticks. The short job is submitted at the end.
#[test]
fn overrun_cut(rt: HostRuntime) {
    let alloc = rt.alloc();
    let terms = [source(0, 0, 10, 2, 1, 3), source(1, 2, 10, 1, 1, 0)];
    let moments = shown(&rt, alloc, &[(2, 5), (1, 10)], &terms, 3);
    let wanted = [
        submitted(0, LONG, 5),
        FIRST_UNIT,
        charged(3, 2),
        submitted(3, SHORT, 13),
    ];
    same(&rt, "moments", moments.as_slice(), wanted.as_slice());
}

// PCG's published words for the state 42 and the stream 54. A range of all numbers draws each word as it is.
const WORDS: [u64; 6] = [
    0x86b1_da1d_7206_2b68,
    0x1304_aa46_c985_3d39,
    0xa367_0e9e_0dd5_0358,
    0xf909_0e52_9a7d_ae00,
    0xc85b_9fd8_3799_6f2c,
    0x6061_21f8_e391_9196,
];

#[test]
fn published_words(rt: HostRuntime) {
    let mut draws = Pcg64::new(42, 54);
    let all = Range::new(0, u64::MAX).expect(&rt, "range");
    for word in WORDS {
        same(&rt, "a draw", all.draw(&mut draws), word);
    }
}

/// Returns the next release and passes it, or returns `None` if there is none.
fn take<R: Releases>(releases: &mut R) -> Option<Release> {
    let release = releases.first()?;
    releases.pass();
    Some(release)
}

/// Tests that a source at place 54, for server 3, releases these next: each with its tick, its units and its overrun.
fn releases(rt: &impl Abort, source: &mut Source, rows: &[(u64, u32, u64)]) {
    for (tick, units, overrun) in rows {
        let release = Release {
            tick: *tick,
            source: 54,
            server: 3,
            units: *units,
            overrun: *overrun,
            within: None,
        };
        same(rt, "a release", take(source), Some(release));
    }
}

// The same words, as a source at place 54 draws them with the seed 42: units, overrun, and ticks to the next job.
#[test]
fn drawn_releases(rt: HostRuntime) {
    let terms = SourceTerms {
        server: 3,
        first: 5,
        every: Range::new(1, 1_000_000_000_000).expect(&rt, "every"),
        jitter: 0,
        units: Range::new(1, 1_000_000).expect(&rt, "units"),
        jobs: None,
        within: None,
        overrun: Range::new(0, 1_000_000_000).expect(&rt, "overrun"),
    };
    let mut source = Source::new(54, &terms, &[], 1_000_000_000_000, 42);
    let rows = [
        (5, 526_152, 74_289_934),
        (638_291_276_544, 972_795, 782_648_078),
    ];
    releases(&rt, &mut source, &rows);
}

// The same generator, with a jitter: units, overrun, by how much a job comes later, and ticks to the next nominal tick.
// Another program drew these. The nominal ticks are 5, 65, 121, 162, 210, 255 and 311.
#[test]
fn drawn_releases_with_a_jitter(rt: HostRuntime) {
    let terms = SourceTerms {
        server: 3,
        first: 5,
        every: Range::new(40, 60).expect(&rt, "every"),
        jitter: 25,
        units: Range::new(1, 9).expect(&rt, "units"),
        jobs: None,
        within: None,
        overrun: Range::new(0, 3).expect(&rt, "overrun"),
    };
    let mut source = Source::new(54, &terms, &[], 320, 42);
    let rows = [
        (21, 5, 0),
        (77, 8, 1),
        (122, 5, 2),
        (173, 4, 3),
        (213, 2, 1),
        (275, 1, 2),
        (316, 7, 0),
    ];
    releases(&rt, &mut source, &rows);
    same(&rt, "the end", source.first(), None);
}

// The nominal ticks are those that are listed, and each job comes at its own.
#[test]
fn listed_releases(rt: HostRuntime) {
    let terms = SourceTerms {
        server: 3,
        first: 5,
        every: Range::new(7, 8).expect(&rt, "every"),
        jitter: 0,
        units: Range::fixed(2),
        jobs: Some(3),
        within: None,
        overrun: Range::fixed(0),
    };
    let mut source = Source::new(54, &terms, &[5, 12, 20], 100, 42);
    releases(&rt, &mut source, &[(5, 2, 0), (12, 2, 0), (20, 2, 0)]);
    same(&rt, "the end", source.first(), None);
}
