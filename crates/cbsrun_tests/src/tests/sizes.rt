//! The figures of a robot's load, worked out by hand.

use cbs_guarantee::NotPromised;
use cbsrun_loads::read_load;
use cbsrun_proposals::{Proposal, Remedy};
use cbsrun_sizing::{
    Asked, ServerLoad, greatest_budgets, greatest_common_divisor, greatest_delay, recovery,
    server_loads,
};

/// Control, vision, a throttled lidar, and bursts of logging whose units overrun.
const ROBOT: &str = "\
load = 1
bound = [1, 1]
backlog = 4
until = 200
[[server]]
name = \"control\"
mode = \"soft\"
budget = 1
period = 5
[[source]]
server = \"control\"
every = 12
units = 1
[[server]]
name = \"vision\"
mode = \"soft\"
budget = 6
period = 20
[[source]]
server = \"vision\"
every = 40
units = 6
[[source]]
server = \"vision\"
every = 60
units = [1, 6]
[[server]]
name = \"logging\"
mode = \"soft\"
budget = 1
period = 10
[[source]]
server = \"logging\"
every = [4, 12]
units = [1, 5]
overrun = [0, 7]
";

#[test]
fn numbers_of_a_robot(rt: HostRuntime) {
    let alloc = rt.alloc();
    let load = read_load(alloc, ROBOT.as_bytes())
        .ok()
        .expect(&rt, "a load");
    // of 20 ticks, 12 are reserved: 4, 6 and 2
    let budgets = greatest_budgets(alloc, load.plan())
        .ok()
        .expect(&rt, "memory");
    assert!(rt; budgets[..] == [3, 14, 5]);
    let loads = server_loads(alloc, &load).ok().expect(&rt, "memory");
    // the others are charged 7 ticks, and a charge passes a release by 7: longer than control wants to wait
    let none = Remedy {
        backlog: None,
        reservation: None,
        delayed: None,
    };
    let delayed = Remedy {
        delayed: Some(14),
        ..none
    };
    let control = ServerLoad {
        asked: Some(Asked { ticks: 1, of: 12 }),
        once: 0,
        promised: Ok(19),
        remedy: Some(delayed),
        kept: None,
        room: 0,
    };
    let vision = ServerLoad {
        asked: Some(Asked { ticks: 30, of: 120 }),
        once: 0,
        promised: Ok(54),
        remedy: Some(none),
        kept: None,
        room: 0,
    };
    // 5 units of 8 ticks, every 4 ticks
    let logging = ServerLoad {
        asked: Some(Asked { ticks: 40, of: 4 }),
        once: 0,
        promised: Err(NotPromised::AsksTooMuch),
        remedy: Some(none),
        kept: None,
        room: 0,
    };
    assert!(rt; loads[..] == [control, vision, logging]);
    // nobody else delays logging, which delays both others
    assert!(rt; greatest_delay(&load) == 7);
    // 8 of 20 ticks are free: 7 of 17.5
    assert!(rt; recovery(&load) == Some(18));
}

/// Three servers, each of which overruns.
const ALL_OVERRUN: &str = "\
load = 1
bound = [1, 1]
backlog = 4
until = 200
[[server]]
name = \"a\"
mode = \"soft\"
budget = 1
period = 5
[[source]]
server = \"a\"
every = 12
units = 1
overrun = 4
[[server]]
name = \"b\"
mode = \"soft\"
budget = 1
period = 5
[[source]]
server = \"b\"
every = 12
units = 1
overrun = [0, 2]
[[source]]
server = \"b\"
every = 12
units = 1
[[server]]
name = \"c\"
mode = \"throttled\"
budget = 1
period = 5
[[source]]
server = \"c\"
every = 12
units = 1
overrun = [1, 3]
";

#[test]
fn the_greatest_delay(rt: HostRuntime) {
    let load = read_load(rt.alloc(), ALL_OVERRUN.as_bytes())
        .ok()
        .expect(&rt, "a load");
    // a is delayed by 2 + 3 ticks, b by 4 + 3, c by 4 + 2
    assert!(rt; greatest_delay(&load) == 7);
}

#[test]
fn a_common_divisor(rt: HostRuntime) {
    assert!(rt; greatest_common_divisor(84, 120) == 12);
    assert!(rt; greatest_common_divisor(0, 7) == 7);
}

/// Two servers. The jobs of the first want to be finished in 50 ticks, and have no room for a second unfinished one.
const BATCHES: &str = "\
load = 1
bound = [1, 1]
backlog = 1
until = 200
[[server]]
name = \"batches\"
mode = \"soft\"
budget = 20
period = 1000
[[source]]
server = \"batches\"
every = [50, 400]
units = [1, 30]
within = 50
[[server]]
name = \"twice\"
mode = \"soft\"
budget = 1
period = 10
[[source]]
server = \"twice\"
every = 40
units = 1
within = 30
[[source]]
server = \"twice\"
every = 40
units = 1
within = 30
";

#[test]
fn remedies(rt: HostRuntime) {
    let alloc = rt.alloc();
    let load = read_load(alloc, BATCHES.as_bytes())
        .ok()
        .expect(&rt, "a load");
    let loads = server_loads(alloc, &load).ok().expect(&rt, "memory");
    // 30 ticks in 50: with one tick less, 2 periods of 25 at most are needed, and 15 in 25 is as much. Of 50 ticks the
    // other has 5.
    let batches = ServerLoad {
        asked: Some(Asked { ticks: 30, of: 50 }),
        once: 0,
        promised: Err(NotPromised::AsksTooMuch),
        remedy: Some(Remedy {
            backlog: None,
            reservation: Some(Proposal {
                budget: 30,
                period: 50,
            }),
            delayed: None,
        }),
        kept: None,
        room: 45,
    };
    // a job of each source may be unfinished, whatever the reservation
    let twice = ServerLoad {
        asked: Some(Asked { ticks: 2, of: 40 }),
        once: 0,
        promised: Err(NotPromised::BacklogTooSmall { needed: 2 }),
        remedy: Some(Remedy {
            backlog: Some(2),
            reservation: None,
            delayed: None,
        }),
        kept: None,
        room: 0,
    };
    assert!(rt; loads[..] == [batches, twice]);
}

/// Two servers. The source of the second says no `within`, and the first may delay it.
const FOLLOWS: &str = "\
load = 1
bound = [1, 1]
backlog = 4
until = 200
[[server]]
name = \"noise\"
mode = \"soft\"
budget = 4
period = 20
[[source]]
server = \"noise\"
every = 20
units = 1
overrun = 1
[[server]]
name = \"slow\"
mode = \"soft\"
budget = 4
period = 20
[[source]]
server = \"slow\"
every = 20
units = 4
";

#[test]
fn a_remedy_with_another_period_keeps_within(rt: HostRuntime) {
    let alloc = rt.alloc();
    let load = read_load(alloc, FOLLOWS.as_bytes())
        .ok()
        .expect(&rt, "a load");
    let loads = server_loads(alloc, &load).ok().expect(&rt, "memory");
    // a unit of 2 ticks, in one period, before the next comes
    let noise = ServerLoad {
        asked: Some(Asked { ticks: 2, of: 20 }),
        once: 0,
        promised: Ok(20),
        remedy: None,
        kept: None,
        room: 0,
    };
    // noise is charged a tick, and that may pass a release: 20 + 2 ticks. With a period of 18 they are the wanted 20, which
    // the source then has to say. Of 18 ticks noise has 3.6.
    let slow = ServerLoad {
        asked: Some(Asked { ticks: 4, of: 20 }),
        once: 0,
        promised: Ok(22),
        remedy: Some(Remedy {
            backlog: None,
            reservation: Some(Proposal {
                budget: 4,
                period: 18,
            }),
            delayed: None,
        }),
        kept: Some(20),
        room: 14,
    };
    assert!(rt; loads[..] == [noise, slow]);
}
