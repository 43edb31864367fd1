//! Tests of cores that are brought to the midst of a run.

use super::rows::{Row, plays};
use super::{core_of, filled, same, sum_of};
use cbs_core::{Core, LastUnit, NotAState};
use cbs_job::SumJob;
use cbs_rules::Mode;
use linked_list_allocator::LocalHeap;
use std::alloc::Global;
use std::process::Abort;

/// The steps up to a unit of the first of two servers, which was charged.
static BEFORE: [Row; 7] = [
    Row::Submit(0, &[1, 2, 3, 4, 5], 0),
    Row::Submit(0, &[7], 1),
    Row::Submit(1, &[9], 0),
    Row::Unit(0),
    Row::Unit(0),
    Row::Charge(0, 3, Ok(())),
    Row::State(0, 1, 12, false),
];

/// The steps after it, of the same core or of another one that was brought to its state. The sum that is told begins anew.
static AFTER: [Row; 9] = [
    Row::Now(5),
    Row::Running(Some(0)),
    Row::Charge(0, 1, Ok(())),
    Row::Charges(0, Ok((4, 4))),
    Row::State(0, 2, 16, false),
    Row::Done(1, 0, 9),
    Row::Unit(0),
    Row::Unit(0),
    Row::Done(0, 0, 12),
];

/// Ends the test unless a server of `core` is brought to what it is in `other`.
fn restores(rt: &impl Abort, core: &mut Core<SumJob>, other: &Core<SumJob>, server: u16) {
    let past = other.past(server).expect(rt, "a server");
    same(rt, "restore", core.restore(server, &past), Ok(()));
}

/// Ends the test unless a server is given back a job of these numbers.
fn gets(rt: &impl Abort, alloc: Global, core: &mut Core<SumJob>, server: u16, numbers: &[u32]) {
    let job = sum_of(rt, alloc, numbers);
    same(rt, "give_back", core.give_back(server, job).is_ok(), true);
}

#[test]
fn a_core_is_brought_to_the_midst_of_a_run(rt: HostRuntime) {
    let alloc = rt.alloc();
    let rates = [(2, 4), (1, 4)];
    let mut recorded = core_of(&rt, alloc, Mode::Soft, &rates, 4);
    plays(&rt, alloc, "before", &mut recorded, &BEFORE);
    let mut core = core_of(&rt, alloc, Mode::Soft, &rates, 4);
    same(&rt, "advance", core.advance(5), Ok(()));
    restores(&rt, &mut core, &recorded, 0);
    restores(&rt, &mut core, &recorded, 1);
    gets(&rt, alloc, &mut core, 0, &[3, 4, 5]);
    gets(&rt, alloc, &mut core, 0, &[7]);
    gets(&rt, alloc, &mut core, 1, &[9]);
    let last = recorded.last_unit();
    same(&rt, "restore_last", core.restore_last(last), Ok(()));
    plays(&rt, alloc, "after", &mut core, &AFTER);
}

#[test]
fn what_no_run_leads_to_is_refused(rt: HostRuntime) {
    let alloc = rt.alloc();
    let mut recorded = core_of(&rt, alloc, Mode::Soft, &[(2, 4), (1, 4)], 4);
    plays(&rt, alloc, "before", &mut recorded, &BEFORE);
    let past = recorded.past(0).expect(&rt, "a server");
    same(&rt, "no server", recorded.past(2).is_none(), true);
    let mut core = core_of(&rt, alloc, Mode::Soft, &[(2, 4), (1, 4)], 1);
    // 3 ticks were charged, and the clock stands at 0.
    same(&rt, "early", core.restore(0, &past), Err(NotAState));
    same(&rt, "advance", core.advance(5), Ok(()));
    same(&rt, "other", core.restore(1, &past), Err(NotAState));
    same(&rt, "none", core.restore(2, &past), Err(NotAState));
    // Server 1 has had no deadline.
    same(&rt, "begun", core.may_give_back(1), false);
    let job = core.give_back(1, sum_of(&rt, alloc, &[9])).err();
    same(&rt, "handed back", job.is_some(), true);
    restores(&rt, &mut core, &recorded, 0);
    gets(&rt, alloc, &mut core, 0, &[3, 4, 5]);
    same(&rt, "backlog", core.may_give_back(0), false);
    same(&rt, "jobs", core.restore(0, &past), Err(NotAState));
    let late = LastUnit {
        charged_to: 6,
        ..recorded.last_unit()
    };
    same(&rt, "late", core.restore_last(late), Err(NotAState));
    same(&rt, "clock", core.now(), 5);
}

#[test]
fn a_job_is_handed_back_without_memory(rt: HostRuntime) {
    let alloc = rt.alloc();
    let mut recorded = core_of(&rt, alloc, Mode::Soft, &[(2, 4)], 4);
    plays(
        &rt,
        alloc,
        "before",
        &mut recorded,
        &[Row::Submit(0, &[1], 0), Row::Done(0, 0, 1)],
    );
    let past = recorded.past(0).expect(&rt, "a server");
    let heap = LocalHeap::new(alloc, 1 << 13).expect(&rt, "a heap");
    let mut core: Core<SumJob, &LocalHeap> = core_of(&rt, &heap, Mode::Soft, &[(2, 4)], 4);
    same(&rt, "advance", core.advance(1), Ok(()));
    same(&rt, "restore", core.restore(0, &past), Ok(()));
    let ballast = filled(&rt, alloc, &heap);
    same(&rt, "may_give_back", core.may_give_back(0), true);
    let job = core.give_back(0, sum_of(&rt, alloc, &[7])).err();
    same(&rt, "handed back", job.is_some(), true);
    drop(ballast);
}
