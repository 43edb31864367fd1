//! The text about a small load and about a plan. Those of many files are in `tests/checks.txt`, at the top of the
//! repository.

use crate::tests::printing::{LOAD, LOAD_CHECKED};
use crate::tests::same;
use cbs_rate::{Bound, Plan};
use cbs_rules::Modes;
use cbsrun_check_text::{check_load, check_plan};
use cbsrun_loads::read_load;

#[test]
fn a_load(rt: HostRuntime) {
    let alloc = rt.alloc();
    let load = read_load(alloc, LOAD.as_bytes()).ok().expect(&rt, "a load");
    let text = check_load(alloc, &load).ok().expect(&rt, "memory");
    same(&rt, "check", text.as_str(), LOAD_CHECKED);
}

/// The text about a plan with no server.
const NONE_TEXT: &str = "\
fits: 0/1 of the time is reserved, 9/10 is left under the bound 9/10

SERVER  mode  budget  period  share         greatest budget
all                             0/1  0.0 %

The periods come together every tick.
";

#[test]
fn no_server(rt: HostRuntime) {
    let plan = Plan::new(Bound::new(9, 10).expect(&rt, "a bound"));
    let text = check_plan(rt.alloc(), None, &[], &Modes::new(), &plan)
        .ok()
        .expect(&rt, "memory");
    same(&rt, "check", text.as_str(), NONE_TEXT);
}
