//! Long files of each shape, and their content.

use super::files::good_file;
use super::same;
use cbs_core::Step;
use cbsrun_tasks::TaskFile;
use std::alloc::Global;
use std::process::Abort;

const ONE: &str =
    "format = 1\nmode = \"soft\"\nbound = [1, 1]\nbacklog = 4\nring = 4\nserver = [{ budget = 2, period = 5 }]\n";

const STEPS: &str =
    "format = 1\nmode = \"soft\"\nbound = [1, 1]\nbacklog = 4\nring = 4\nserver = [{ budget = 2, period = 5 }]\nstep = [";

const SERVERS: &str =
    "format = 1\nmode = \"soft\"\nbound = [1, 1]\nbacklog = 4\nring = 4\nstep = []\nserver = [";

const ONE_JOB: &str =
    "format = 1\nmode = \"soft\"\nbound = [1, 1]\nbacklog = 4\nring = 4\nserver = [{ budget = 2, period = 5 }]\nstep = [{ op = \"submit\", server = 0, job = \"sum\", units = [";

const NO_STEP: &str =
    "format = 1\nmode = \"soft\"\nbound = [1, 1]\nbacklog = 4\nring = 4\nserver = [{ budget = 2, period = 5 }]\nstep = []\n";

/// How many servers a file holds, and how many steps of each kind.
#[derive(Clone, Copy, Debug, PartialEq, Eq)]
struct Held {
    servers: u64,
    submits: u64,
    /// The units of all submits.
    units: u64,
    runs: u64,
    /// The ticks of all advances.
    ticks: u64,
    closes: u64,
    charges: u64,
}

/// One server, and no step.
const NONE: Held = Held {
    servers: 1,
    submits: 0,
    units: 0,
    runs: 0,
    ticks: 0,
    closes: 0,
    charges: 0,
};

/// A file that repeats a piece many times.
struct Shape {
    name: &'static str,
    start: &'static str,
    piece: &'static str,
    times: u64,
    end: &'static str,
    held: Held,
}

/// More than 100000 runs in one line, with no line feed after them.
const RUNS: Shape = Shape {
    name: "runs in one line",
    start: STEPS,
    piece: "{op=\"run\"},",
    times: 100_001,
    end: "]",
    held: Held {
        runs: 100_001,
        ..NONE
    },
};

static SHAPES: [Shape; 12] = [
    Shape {
        name: "runs, one a line",
        start: STEPS,
        piece: "  { op = \"run\" },\n",
        times: 2000,
        end: "]\n",
        held: Held { runs: 2000, ..NONE },
    },
    Shape {
        name: "headers [[step]]",
        start: ONE,
        piece: "[[step]]\nop=\"run\"\n",
        times: 2000,
        end: "",
        held: Held { runs: 2000, ..NONE },
    },
    Shape {
        name: "headers of submits",
        start: ONE,
        piece: "[[step]]\nop = \"submit\"\nserver = 0\njob = \"peak\"\nunits = [7, 8]\n",
        times: 2000,
        end: "",
        held: Held {
            submits: 2000,
            units: 4000,
            ..NONE
        },
    },
    Shape {
        name: "advances",
        start: STEPS,
        piece: "{op=\"advance\",ticks=3},",
        times: 2000,
        end: "]\n",
        held: Held {
            ticks: 6000,
            ..NONE
        },
    },
    Shape {
        name: "closes",
        start: STEPS,
        piece: "{op=\"close\",server=0},",
        times: 2000,
        end: "]\n",
        held: Held {
            closes: 2000,
            ..NONE
        },
    },
    Shape {
        name: "submits of one unit",
        start: STEPS,
        piece: "{op=\"submit\",server=0,job=\"sum\",units=[1]},",
        times: 2000,
        end: "]\n",
        held: Held {
            submits: 2000,
            units: 2000,
            ..NONE
        },
    },
    Shape {
        name: "a job of many units",
        start: ONE_JOB,
        piece: "1,",
        times: 20_000,
        end: "] }]\n",
        held: Held {
            submits: 1,
            units: 20_000,
            ..NONE
        },
    },
    Shape {
        name: "as many servers as there may be",
        start: SERVERS,
        piece: "{budget=1,period=64},",
        times: 64,
        end: "]\n",
        held: Held {
            servers: 64,
            ..NONE
        },
    },
    Shape {
        name: "comments",
        start: NO_STEP,
        piece: "# step = [{ op = \"run\" }]\n",
        times: 2000,
        end: "",
        held: NONE,
    },
    Shape {
        name: "a long comment with no line feed after it",
        start: NO_STEP,
        piece: "#",
        times: 100_000,
        end: "",
        held: NONE,
    },
    Shape {
        name: "empty lines",
        start: NO_STEP,
        piece: "\n",
        times: 100_000,
        end: "",
        held: NONE,
    },
    Shape {
        name: "blanks in an array",
        start: STEPS,
        piece: " ",
        times: 100_000,
        end: "]",
        held: NONE,
    },
];

/// Returns the text of a shape.
fn text_of(rt: &impl Abort, alloc: Global, shape: &Shape) -> String {
    let mut text = String::from_str(alloc, shape.start).expect(rt, "memory");
    for _ in 0..shape.times {
        text.push_str(shape.piece).expect(rt, "memory");
    }
    text.push_str(shape.end).expect(rt, "memory");
    text
}

/// Returns how many servers a file holds, and how many steps of each kind.
fn held_by(file: &TaskFile) -> Held {
    let mut held = NONE;
    held.servers = file.plan().len() as u64;
    for step in file.steps() {
        match step {
            Step::Submit(_, task) => {
                held.submits = held.submits.saturating_add(1);
                held.units = held.units.saturating_add(u64::from(task.left()));
            }
            Step::Run => held.runs = held.runs.saturating_add(1),
            Step::Advance(ticks) => held.ticks = held.ticks.saturating_add(*ticks),
            Step::Close(_) => held.closes = held.closes.saturating_add(1),
            Step::Charge(..) => held.charges = held.charges.saturating_add(1),
        }
    }
    held
}

/// Reads the file of a shape, and tests what it holds.
fn is_read(rt: &impl Abort, alloc: Global, shape: &Shape) {
    let text = text_of(rt, alloc, shape);
    let file = good_file(rt, alloc, text.as_str());
    same(rt, shape.name, held_by(&file), shape.held);
}

#[test]
fn a_long_file_of_each_shape_is_read(rt: HostRuntime) {
    let alloc = rt.alloc();
    for shape in &SHAPES {
        is_read(&rt, alloc, shape);
    }
}

#[test]
fn more_than_100000_steps_are_read(rt: HostRuntime) {
    is_read(&rt, rt.alloc(), &RUNS);
}
