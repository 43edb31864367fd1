//! Traces: of a picture that is made by hand, and of a load.
//!
//! What is expected of the load comes from an independent program with another scheduler.

use crate::tests::by_hand::by_hand;
use crate::tests::drawn::picture_of;
use crate::tests::same;
use crate::tests::sample_loads::ROBOT;
use cbsrun_chart::Picture;
use cbsrun_perfetto::trace_json;
use std::alloc::Global;
use std::process::Abort;

/// Returns the trace of a picture.
fn trace_of(rt: &impl Abort, alloc: Global, picture: &Picture) -> String {
    trace_json(alloc, picture).ok().expect(rt, "memory")
}

#[test]
fn a_trace_by_hand(rt: HostRuntime) {
    let alloc = rt.alloc();
    let picture = by_hand(&rt, alloc, "a\"b", 1, 20);
    let text = trace_of(&rt, alloc, &picture);
    same(&rt, "trace", text.as_str(), BY_HAND);
}

/// Tests the events of a load of 200 ticks, with two lines around them. There are 716 events from that program, two
/// budgets that have not changed yet, and 46 stretches in which a server waits: the rows of dots in its timeline in
/// `examples/`.
#[test]
fn a_trace_has_a_line_for_each_event(rt: HostRuntime) {
    let alloc = rt.alloc();
    let picture = picture_of(&rt, alloc, "ROBOT.toml", ROBOT, 0, 200);
    let text = trace_of(&rt, alloc, &picture);
    same(&rt, "lines", text.as_str().lines().count(), 766);
}

const BY_HAND: &str =
    r#"{"displayTimeUnit":"ns","otherData":{"unit":"a tick is a microsecond"},"traceEvents":[
{"args":{"name":"HAND.toml"},"name":"process_name","ph":"M","pid":1,"tid":0,"ts":0},
{"args":{"name":"a\"b, 1 in every 10, throttled"},"name":"thread_name","ph":"M","pid":1,"tid":1,"ts":0},
{"args":{"sort_index":0},"name":"thread_sort_index","ph":"M","pid":1,"tid":1,"ts":0},
{"args":{"after":0,"before":1},"cat":"hidden","name":"Not shown: 1 ticks before, 0 after.","ph":"i","pid":1,"s":"p","tid":1,"ts":1},
{"args":{"units":2},"cat":"arrival","name":"job 0 comes","ph":"i","pid":1,"s":"t","tid":1,"ts":1},
{"args":{"c":1},"cat":"budget","name":"budget of a\"b","ph":"C","pid":1,"tid":1,"ts":1},
{"args":{"arrival":1,"finish":12,"job":0,"promised":null,"units":2,"within":8},"cat":"run","dur":1,"name":"job 0","ph":"X","pid":1,"tid":1,"ts":2},
{"args":{},"cat":"throttled","dur":8,"name":"throttled","ph":"X","pid":1,"tid":1,"ts":3},
{"args":{"c":0},"cat":"budget","name":"budget of a\"b","ph":"C","pid":1,"tid":1,"ts":3},
{"args":{},"cat":"refused","name":"refused","ph":"i","pid":1,"s":"t","tid":1,"ts":4},
{"args":{},"cat":"refused","name":"refused","ph":"i","pid":1,"s":"t","tid":1,"ts":5},
{"args":{"arrival":1,"finish":12,"job":0,"promised":null,"units":2,"within":8},"cat":"run","dur":1,"name":"job 0","ph":"X","pid":1,"tid":1,"ts":11},
{"args":{},"cat":"deadline","name":"deadline","ph":"i","pid":1,"s":"t","tid":1,"ts":11},
{"args":{"c":1},"cat":"budget","name":"budget of a\"b","ph":"C","pid":1,"tid":1,"ts":11},
{"args":{},"cat":"charged","dur":2,"name":"charged","ph":"X","pid":1,"tid":1,"ts":12},
{"args":{"late":3,"response":11},"cat":"late","name":"job 0 finished, late","ph":"i","pid":1,"s":"t","tid":1,"ts":12}
]}
"#;
