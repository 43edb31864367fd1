//! Load files: the content of a good one, and what a load comes to. Faults are in `tests/load_faults.txt`, at the top
//! of the repository.

use super::same;
use crate::tests::sample_loads::ROBOT;
use cbs_rules::Mode;
use cbsrun_events::{Seen, View};
use cbsrun_loads::{Load, read_load};
use cbsrun_simulate::{Range, SourceTerms, simulate_plan};
use std::alloc::{AllocError, Global};
use std::process::Abort;

/// The text before the servers.
const TOP: &str = "load = 1\nbound = [1, 1]\nbacklog = 4\nuntil = 200\n";

/// A server.
const CONTROL: &str = "[[server]]\nname = \"control\"\nmode = \"soft\"\nbudget = 1\nperiod = 5\n";

/// Another server.
const LIDAR: &str =
    "[[server]]\nname = \"lidar-2\"\nmode = \"throttled\"\nbudget = 2\nperiod = 10\n";

/// A source with all keys.
const FULL: &str =
    "[[source]]\nserver = \"lidar-2\"\nfirst = 3\nevery = [4, 12]\nunits = [1, 5]\njobs = 7\nwithin = 20\noverrun = [0, 2]\njitter = 3\n";

/// A source without the keys that may be left out.
const BARE: &str = "[[source]]\nserver = \"control\"\nevery = 5\nunits = 1\n";

/// A source that lists its ticks.
const LISTED: &str = "[[source]]\nserver = \"control\"\nat = [2, 9, 14]\nunits = 1\njitter = 4\n";

/// Returns the bytes of these texts, one after another.
fn bytes_of(rt: &impl Abort, alloc: Global, texts: &[&str]) -> Vec<u8> {
    let mut bytes = Vec::new(alloc);
    for text in texts {
        bytes
            .extend_from_slice(text.as_bytes())
            .ok()
            .expect(rt, "memory");
    }
    bytes
}

/// Returns the load that these texts spell.
fn load_of(rt: &impl Abort, alloc: Global, texts: &[&str]) -> Load {
    let bytes = bytes_of(rt, alloc, texts);
    read_load(alloc, &bytes).ok().expect(rt, "a load")
}

/// Returns the range of numbers from `least` to `greatest`.
fn range(rt: &impl Abort, least: u64, greatest: u64) -> Range {
    Range::new(least, greatest).expect(rt, "a range")
}

#[test]
fn a_load_holds_what_its_file_says(rt: HostRuntime) {
    let alloc = rt.alloc();
    let load = load_of(&rt, alloc, &[TOP, "seed = 7\n", CONTROL, LIDAR, BARE, FULL]);
    assert!(rt; load.backlog() == 4);
    assert!(rt; load.until() == 200);
    assert!(rt; load.seed() == 7);
    assert!(rt; load.plan().len() == 2);
    assert!(rt; load.names()[1].as_str() == "lidar-2");
    assert!(rt; load.modes().get(0) == Some(Mode::Soft));
    assert!(rt; load.modes().get(1) == Some(Mode::Throttled));
    let bare = SourceTerms {
        server: 0,
        first: 0,
        every: Range::fixed(5),
        jitter: 0,
        units: Range::fixed(1),
        jobs: None,
        within: Some(5),
        overrun: Range::fixed(0),
    };
    let full = SourceTerms {
        server: 1,
        first: 3,
        every: range(&rt, 4, 12),
        jitter: 3,
        units: range(&rt, 1, 5),
        jobs: Some(7),
        within: Some(20),
        overrun: range(&rt, 0, 2),
    };
    assert!(rt; load.sources() == [bare, full].as_slice());
}

#[test]
fn a_source_lists_its_ticks(rt: HostRuntime) {
    let load = load_of(&rt, rt.alloc(), &[TOP, CONTROL, BARE, LISTED]);
    let listed = SourceTerms {
        server: 0,
        first: 2,
        every: range(&rt, 5, 7),
        jitter: 4,
        units: Range::fixed(1),
        jobs: Some(3),
        within: Some(5),
        overrun: Range::fixed(0),
    };
    assert!(rt; load.sources().get(1) == Some(&listed));
    let ticks = load.listed();
    assert!(rt; ticks.len() == 2);
    assert!(rt; ticks[0].is_empty());
    assert!(rt; ticks[1].as_slice() == [2, 9, 14].as_slice());
}

#[test]
fn a_seed_left_out_is_0(rt: HostRuntime) {
    let load = load_of(&rt, rt.alloc(), &[TOP, CONTROL, BARE]);
    assert!(rt; load.seed() == 0);
}

/// A view that ignores all steps.
#[derive(Drop)]
struct Nobody;

impl View<()> for Nobody {
    ghost saw = { λ first it seen. Unit {0} };

    fn see(&mut self, _lent: &mut (), _seen: Seen) -> Result<(), AllocError> {
        Ok(())
    }
}

/// Simulates the load of a text, and tests how many jobs each server accepted and finished.
fn comes_to(rt: &impl Abort, alloc: Global, text: &str, rows: [(u64, u64); 4]) {
    let load = load_of(rt, alloc, &[text]);
    let until = load.until();
    let mut releases = cbsrun_simulate::load_of(
        alloc,
        load.sources(),
        load.listed(),
        until,
        load.seed(),
    ).expect(rt, "memory");
    let core = simulate_plan(
        alloc,
        load.plan(),
        load.modes(),
        load.backlog(),
        &mut releases,
        until,
        &mut Nobody,
        &mut (),
    )
    .ok()
    .expect(rt, "a simulation");
    assert!(rt; core.now() == until);
    for server in 0..4 {
        let row = rows[usize::from(server)];
        let view = core.view(server).ok().expect(rt, "a view");
        same(rt, "a server", (view.accepted, view.finished), row);
    }
}

// The row comes from another scheduler, which draws numbers by the same rule.
#[test]
fn a_load_comes_to_what_another_scheduler_found(rt: HostRuntime) {
    comes_to(
        &rt,
        rt.alloc(),
        ROBOT,
        [(40, 40), (10, 10), (10, 10), (23, 21)],
    );
}
