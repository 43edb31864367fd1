//! Loads and task files, their reports, pictures, traces and explanations, each called as its users call it.

mod by_hand;
mod charts;
mod checks;
mod columns;
mod drawn;
mod errors;
mod fakes;
mod faults;
mod figures;
mod files;
mod guarantees;
mod json_texts;
mod load_files;
mod memory;
mod printing;
mod replays;
mod reports;
mod sample_loads;
mod serving;
mod shapes;
mod simulations;
mod sizes;
mod streams;
mod task_pictures;
mod texts;
mod timelines;
mod traces;
mod words;

use cbsrun_chart::{Kind, Stretch};
use std::alloc::Global;
use std::fmt::{Debug, Display};
use std::process::Abort;

/// Ends the test with the label and both values, unless the values are the same.
fn same<T: Debug + Drop + PartialEq>(rt: &impl Abort, label: &str, answer: T, wanted: T) {
    assert!(rt; answer == wanted, "{label}: {answer:?}, not {wanted:?}");
}

/// Ends the test unless the value is written as this text.
fn says(rt: &impl Abort, alloc: Global, value: &impl Display, text: &str) {
    let said = format!(in alloc; "{value}").expect(rt, "memory");
    same(rt, text, said.as_str(), text);
}

/// Ends the test unless the stretches are these: what goes on, the first tick, and the tick after the last.
fn same_stretches(rt: &impl Abort, label: &str, answer: &[Stretch], wanted: &[(Kind, u64, u64)]) {
    same(rt, label, answer.len(), wanted.len());
    for (stretch, &(kind, from, to)) in answer.iter().zip(wanted) {
        same(rt, label, *stretch, Stretch { kind, from, to });
    }
}

/// The first example: one soft server, and a job of three units.
const FIRST: &str = "\
format = 1
mode = \"soft\"
bound = [1, 1]
backlog = 4
ring = 4
server = [{ budget = 2, period = 5 }]
step = [
  { op = \"submit\", server = 0, job = \"sum\", units = [1, 2, 3] },
  { op = \"run\" },
  { op = \"run\" },
  { op = \"run\" },
]
";

/// The lines of the first example's trace.
const FIRST_LINES: &str = "\
@0 submit 0 job 0 accepted c=2 d=5
@1 run 0 job 0 c=1 d=5
@2 run 0 job 0 c=2 d=10
@3 run 0 job 0 done 6 c=1 d=10
";
