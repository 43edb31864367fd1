//! Command lines. What the program tells of wrong words is in `tests/words.txt` at the top of the repository, and in
//! `scripts/statuses`.

use super::same;
use cbsrun_command_line::{WordsFault, read_words};
use cbsrun_commands::{
    Action, Changes, Drawing, Form, Listing, LoadReport, LoadSweep, RunDrawing, Seeds, SweepForm,
    Verb, Window,
};
use std::alloc::Global;
use std::process::Abort;

/// Returns the words of a command line.
fn words(rt: &impl Abort, alloc: Global, line: &str) -> Vec<String> {
    let mut words = Vec::new(alloc);
    for word in line.split(' ') {
        let word = String::from_str(alloc, word).expect(rt, "memory");
        words.push(word).expect(rt, "memory");
    }
    words
}

/// Ends the test unless a command line asks for this action and this one file.
fn asks(rt: &impl Abort, alloc: Global, line: &str, action: Action, file: &str) {
    let asked = read_words(alloc, words(rt, alloc, line))
        .ok()
        .expect(rt, line);
    same(rt, line, asked.files.len(), 1);
    same(rt, line, asked.action == action, true);
    same(rt, line, asked.files[0].as_str(), file);
}

/// Ends the test unless a command line has a fault with this number and name, and a text.
fn refuses(rt: &impl Abort, alloc: Global, line: &str, number: u8, name: &str) {
    let fault = read_words(alloc, words(rt, alloc, line))
        .err()
        .expect(rt, line);
    same(rt, line, (fault.number(), fault.name()), (number, name));
    let told = match &fault {
        WordsFault::Usage(text) | WordsFault::Help(text) => !text.is_empty(),
        WordsFault::OutOfMemory => false,
    };
    same(rt, line, told, true);
}

/// Ends the test unless each of these command lines asks for its action and this file.
fn all_ask(rt: &impl Abort, alloc: Global, lines: &[(&str, Action)], file: &str) {
    for &(line, action) in lines {
        asks(rt, alloc, line, action, file);
    }
}

/// No changes of a load.
const NONE: Changes = Changes {
    seed: None,
    until: None,
};

/// The action that reports a load as it is, as text.
const REPORT: Action = Action::ReportLoad(LoadReport {
    form: Form::Report,
    changes: NONE,
    strict: false,
});

/// The action that reports a load as it is, as JSON.
const JSON: Action = Action::ReportLoad(LoadReport {
    form: Form::Json,
    changes: NONE,
    strict: false,
});

/// The action that checks a file, as text.
const CHECK: Action = Action::Check {
    form: Form::Report,
    strict: false,
};

/// Command lines with a verb and a file, and what they ask for.
const VERBS: [(&str, Action); 5] = [
    ("cbsrun check a.toml", CHECK),
    ("cbsrun size a.toml", Action::Size { all: false }),
    ("cbsrun simulate a.toml", REPORT),
    ("cbsrun replay a.toml", Action::Run(Verb::Replay)),
    ("cbsrun serve a.toml", Action::Run(Verb::Serve)),
];

#[test]
fn a_verb_and_a_file_are_wanted(rt: HostRuntime) {
    let alloc = rt.alloc();
    all_ask(&rt, alloc, &VERBS, "a.toml");
    asks(&rt, alloc, "cbsrun check -", CHECK, "-");
    asks(&rt, alloc, "cbsrun check -- -V", CHECK, "-V");
    refuses(&rt, alloc, "", 1, "Usage");
    refuses(&rt, alloc, "cbsrun --help", 2, "Help");
}

/// Command lines with three files.
const THREE: [&str; 4] = [
    "cbsrun check a.toml b.toml c.toml",
    "cbsrun check a.toml --as json b.toml --strict c.toml",
    "cbsrun simulate a.toml b.toml --as report -- c.toml",
    "cbsrun simulate --seeds 1..9 a.toml b.toml c.toml --as json",
];

/// Command lines with two files, whose output tells of one.
const TOO_MANY: [&str; 7] = [
    "cbsrun simulate --as lines a.toml b.toml",
    "cbsrun simulate --as csv a.toml b.toml",
    "cbsrun simulate --as svg a.toml b.toml",
    "cbsrun simulate --seeds 1..9 --as csv a.toml b.toml",
    "cbsrun replay a.toml b.toml",
    "cbsrun serve a.toml b.toml",
    "cbsrun size a.toml b.toml",
];

#[test]
fn a_report_takes_several_files(rt: HostRuntime) {
    let alloc = rt.alloc();
    for line in THREE {
        let asked = read_words(alloc, words(&rt, alloc, line))
            .ok()
            .expect(&rt, line);
        assert!(&rt; asked.files.len() == 3);
        same(&rt, line, asked.files[0].as_str(), "a.toml");
        same(&rt, line, asked.files[1].as_str(), "b.toml");
        same(&rt, line, asked.files[2].as_str(), "c.toml");
    }
    for line in TOO_MANY {
        refuses(&rt, alloc, line, 1, "Usage");
    }
}

/// Command lines with a form, and what they ask for.
const FORMS: [(&str, Action); 13] = [
    ("cbsrun check --as report a.toml", CHECK),
    (
        "cbsrun check a.toml --as=json",
        Action::Check {
            form: Form::Json,
            strict: false,
        },
    ),
    (
        "cbsrun simulate --as csv a.toml",
        Action::ListLoad(Listing::Csv, NONE),
    ),
    ("cbsrun simulate --as report a.toml", REPORT),
    ("cbsrun simulate a.toml --as json", JSON),
    (
        "cbsrun simulate --as lines a.toml",
        Action::ListLoad(Listing::Lines, NONE),
    ),
    (
        "cbsrun simulate --as record a.toml",
        Action::ListLoad(Listing::Record, NONE),
    ),
    (
        "cbsrun simulate --as tape a.toml",
        Action::ListLoad(Listing::Tape, NONE),
    ),
    ("cbsrun replay --as=lines a.toml", Action::Run(Verb::Replay)),
    (
        "cbsrun replay --as tape a.toml",
        Action::RecordTasks { taped: true },
    ),
    (
        "cbsrun replay a.toml --as record",
        Action::RecordTasks { taped: false },
    ),
    (
        "cbsrun replay a.toml --as=report",
        Action::ReportTasks(Form::Report),
    ),
    (
        "cbsrun replay --as json -- a.toml",
        Action::ReportTasks(Form::Json),
    ),
];

#[test]
fn a_form_stands_before_or_after_the_file(rt: HostRuntime) {
    all_ask(&rt, rt.alloc(), &FORMS, "a.toml");
}

/// Returns a picture in SVG of the ticks from `from` up to `to`, the end of which the command line says or not.
fn svg_of(rt: &impl Abort, line: &str, from: u64, to: u64, bounded: bool) -> RunDrawing {
    let ticks = Window::new(from, to).ok().expect(rt, line);
    RunDrawing {
        drawing: Drawing::Svg,
        ticks,
        bounded,
    }
}

/// Ends the test unless a command line asks for these ticks of a load.
fn shows(rt: &impl Abort, alloc: Global, line: &str, from: u64, to: u64, bounded: bool) {
    let drawing = svg_of(rt, line, from, to, bounded);
    asks(rt, alloc, line, Action::DrawLoad(drawing, NONE), "a.toml");
}

/// Ends the test unless a command line asks for a trace of these ticks of a load, the end of which it says or not.
fn traces(rt: &impl Abort, alloc: Global, line: &str, from: u64, to: u64, bounded: bool) {
    let drawing = RunDrawing {
        drawing: Drawing::Trace,
        ticks: Window::long(from, to).ok().expect(rt, line),
        bounded,
    };
    asks(rt, alloc, line, Action::DrawLoad(drawing, NONE), "a.toml");
}

/// Command lines that draw a load, the ticks that they show, and whether they say where these end.
static SHOWN: [(&str, u64, u64, bool); 4] = [
    ("cbsrun simulate --as svg a.toml", 0, 20_000, false),
    (
        "cbsrun simulate --as=svg --from 90 a.toml --to=130",
        90,
        130,
        true,
    ),
    ("cbsrun simulate --as svg --from 7 a.toml", 7, 20_007, false),
    (
        "cbsrun simulate --as svg --to 20000 a.toml",
        0,
        20_000,
        true,
    ),
];

/// Command lines that trace a load, and the same of them. A trace has no greatest number of ticks.
static TRACED: [(&str, u64, u64, bool); 2] = [
    (
        "cbsrun simulate --as trace --from 5 a.toml",
        5,
        u64::MAX,
        false,
    ),
    (
        "cbsrun simulate --as trace --to 20001 a.toml",
        0,
        20_001,
        true,
    ),
];

#[test]
fn a_picture_shows_ticks(rt: HostRuntime) {
    let alloc = rt.alloc();
    for &(line, from, to, bounded) in &SHOWN {
        shows(&rt, alloc, line, from, to, bounded);
    }
    for &(line, from, to, bounded) in &TRACED {
        traces(&rt, alloc, line, from, to, bounded);
    }
    let line = "cbsrun replay --to 9 a.toml --as svg";
    let tasks = Action::DrawTasks(svg_of(&rt, line, 0, 9, true));
    asks(&rt, alloc, line, tasks, "a.toml");
}

#[test]
fn a_picture_draws_the_servers_that_are_named(rt: HostRuntime) {
    let alloc = rt.alloc();
    let line = "cbsrun replay --as text --server b a.toml --server a";
    let asked = read_words(alloc, words(&rt, alloc, line))
        .ok()
        .expect(&rt, line);
    assert!(&rt; asked.servers.len() == 2);
    same(&rt, line, asked.servers[0].as_str(), "b");
    same(&rt, line, asked.servers[1].as_str(), "a");
}

/// The greatest seed, and the last tick at which a simulation may end.
const GREATEST: Changes = Changes {
    seed: Some(9_223_372_036_854_775_807),
    until: Some(1_000_000_000_000),
};

/// Command lines whose options change a load, or have the status tell the answer.
const CHANGED: [(&str, Action); 7] = [
    (
        "cbsrun simulate --seeds 1..1000 --as csv --until 9 a.toml",
        Action::SweepLoad(LoadSweep {
            form: SweepForm::Csv,
            seeds: Seeds {
                first: 1,
                last: 1000,
            },
            changes: Changes {
                seed: None,
                until: Some(9),
            },
            strict: false,
        }),
    ),
    (
        "cbsrun simulate a.toml --seeds=7..7 --strict",
        Action::SweepLoad(LoadSweep {
            form: SweepForm::Report,
            seeds: Seeds { first: 7, last: 7 },
            changes: NONE,
            strict: true,
        }),
    ),
    (
        "cbsrun simulate --seed 9223372036854775807 --until=1000000000000 --strict a.toml",
        Action::ReportLoad(LoadReport {
            form: Form::Report,
            changes: GREATEST,
            strict: true,
        }),
    ),
    (
        "cbsrun simulate --as json a.toml --seed 0",
        Action::ReportLoad(LoadReport {
            form: Form::Json,
            changes: Changes {
                seed: Some(0),
                until: None,
            },
            strict: false,
        }),
    ),
    (
        "cbsrun simulate --as lines --until 1 a.toml",
        Action::ListLoad(
            Listing::Lines,
            Changes {
                seed: None,
                until: Some(1),
            },
        ),
    ),
    (
        "cbsrun check --strict a.toml",
        Action::Check {
            form: Form::Report,
            strict: true,
        },
    ),
    ("cbsrun size a.toml --all", Action::Size { all: true }),
];

#[test]
fn options_change_a_load(rt: HostRuntime) {
    all_ask(&rt, rt.alloc(), &CHANGED, "a.toml");
}
