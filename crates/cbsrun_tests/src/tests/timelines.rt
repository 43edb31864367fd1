//! Whole timelines, of a picture that is made by hand. Those of two loads stand in `examples/`.

use crate::tests::by_hand::by_hand;
use crate::tests::same;
use cbsrun_chart::{MOST_TICKS, Picture};
use cbsrun_timeline::timeline_text;
use std::alloc::Global;
use std::process::Abort;

/// Tests that the timeline of a picture is this text.
fn says(rt: &impl Abort, alloc: Global, picture: &Picture, wanted: &str) {
    assert!(rt; picture.window.ticks() <= MOST_TICKS);
    let text = timeline_text(alloc, picture).ok().expect(rt, "memory");
    same(rt, "timeline", text.as_str(), wanted);
}

#[test]
fn charged_ticks_are_no_units(rt: HostRuntime) {
    let alloc = rt.alloc();
    let picture = by_hand(&rt, alloc, "hand", 1, 20);
    says(&rt, alloc, &picture, HAND_TIMELINE);
}

#[test]
fn long_names_leave_fewer_columns(rt: HostRuntime) {
    let alloc = rt.alloc();
    let picture = by_hand(&rt, alloc, "a_name_of_thirty_two_letters-_-_", 0, 300);
    says(&rt, alloc, &picture, NARROW_TIMELINE);
}

const HAND_TIMELINE: &str = "\
HAND.toml, ticks 1 to 20
Not shown: 1 ticks before, 0 after.

      1         11
      |    '    |    '
      ^  xx     v
hand   A////////a$$

a b c   a unit of job 0, 1, 2 ..; a capital where it used the budget up
.       has a job, waits      /  throttled, with a job      x  refused
^       a job comes           v  server's deadline          *  both
$       charged for its last unit
";

const NARROW_TIMELINE: &str = "\
HAND.toml, ticks 0 to 300, a column is 8 ticks

                                  0         80        160       240
                                  |    '    |    '    |    '    |    '
                                  x!
a_name_of_thirty_two_letters-_-_  11

1 to 9  ran in so many tenths of the column's ticks; # in all; + in fewer
.       has a job, waits      /  throttled, with a job
x       a job refused         !  a job late
$       charged for its last unit
";
