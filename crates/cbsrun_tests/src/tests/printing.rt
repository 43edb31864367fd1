//! Texts that are printed of a file: by `check`, as reports, and as pictures.

ghost use Rattle.std.specs.Prelude.{◌≡◌};

use super::fakes::{Memory, Outcome};
use super::same;
use cbsrun_commands::{
    Changes, Drawing, Form, LoadReport, LoadSweep, NoProgress, RecordForm, RunDrawing, Seeds,
    SweepForm, Window, check_bytes_within, draw_load_within, draw_tasks_within,
    record_again_within, record_load_within, record_tasks_within, report_bytes_within,
    simulate_bytes_within, simulate_jobs_within, simulate_lines_within, sweep_bytes_within,
};
use std::alloc::Global;
use std::process::Abort;
use std::thread::Threads;

/// Ample memory for a file.
const MEMORY: u64 = 1 << 30;

const TASKS: &str = "format = 2
bound = [1, 1]
backlog = 2
ring = 1
server = [{ budget = 1, period = 2, mode = \"soft\" }]
step = [
  { op = \"submit\", server = 0, job = \"sum\", units = [5] },
  { op = \"run\" },
  { op = \"advance\", ticks = 3 },
]
";

/// A record of two steps.
const RECORD: &str = "record = 1
bound = [1, 1]
backlog = 2
server = [{ name = \"a\", mode = \"soft\", budget = 1, period = 2 }]
step = [{ op = \"run\" }, { op = \"run\" }]
";

/// A load with one server.
pub(crate) const LOAD: &str = "load = 1
bound = [1, 1]
backlog = 2
until = 4
server = [{ name = \"a\", mode = \"soft\", budget = 1, period = 2 }]
source = [{ server = \"a\", every = 2, units = 1 }]
";

/// The text about that load.
pub(crate) const LOAD_CHECKED: &str =
    "fits: 1/2 of the time is reserved, 1/2 is left under the bound 1/1

SERVER  mode  budget  period  share          greatest budget
a       soft       1       2    1/2  50.0 %                2
all                             1/2  50.0 %

The periods come together every 2 ticks.

SOURCE OF  units  every  asks  share  within  in time always
a              1      2   1/2    1/2       2       yes, by 2
";

const FAULT: &str = "cbsrun: file fault 5 OutOfRange at top\n";

const LOAD_EXPLAINED: &str = "cbsrun: file fault 5 OutOfRange at top

error: `load` is 2, and has to be 1
  --> a.toml:1: top
  |
1 | load = 2
  |        ^ 1
";

const TASKS_EXPLAINED: &str = "cbsrun: file fault 5 OutOfRange at top

error: `format` is 3, and has to be 1 or 2
  --> a.toml:1: top
  |
1 | format = 3
  |          ^ 1 to 2
";

/// The request for a file.
#[derive(Clone, Copy)]
enum Asked {
    Check { form: Form, strict: bool },
    ReportLoad { form: Form, strict: bool },
    WriteLoadLines,
    WriteLoadJobs,
    RecordLoad(RecordForm),
    SweepLoad,
    ReportTasks(Form),
    RecordTasks(RecordForm),
    RecordAgain(RecordForm),
    DrawLoad(RunDrawing),
    DrawTasks(RunDrawing),
}

/// No changes of a load.
const NONE: Changes = Changes {
    seed: None,
    until: None,
};

/// Three runs of a load.
const SWEEP: LoadSweep = LoadSweep {
    form: SweepForm::Report,
    seeds: Seeds { first: 3, last: 5 },
    changes: NONE,
    strict: true,
};

/// Prints what is asked of a file to `out`. The file may need `memory` bytes of memory. Returns the outcome.
fn printed<R: Threads + Sync>(
    rt: &R,
    alloc: Global,
    asked: Asked,
    memory: u64,
    file: &str,
    mut out: Memory,
) -> Outcome
    requires { out.failed ≡ 0 }
{
    let mut err = Memory::ample(alloc);
    let bytes = file.as_bytes();
    let name = "a.toml";
    let status = match asked {
        Asked::Check { form, strict } => {
            check_bytes_within(alloc, memory, form, strict, name, bytes, &mut out, &mut err)
        }
        Asked::ReportLoad { form, strict } => {
            simulate_bytes_within(
                alloc,
                memory,
                LoadReport {
                    form,
                    changes: NONE,
                    strict,
                },
                name,
                bytes,
                &mut NoProgress,
                &mut out,
                &mut err,
            )
        }
        Asked::WriteLoadLines => {
            simulate_lines_within(alloc, memory, NONE, name, bytes, &mut out, &mut err)
        }
        Asked::WriteLoadJobs => simulate_jobs_within(
            alloc,
            memory,
            NONE,
            name,
            bytes,
            &mut NoProgress,
            &mut out,
            &mut err,
        ),
        Asked::RecordLoad(form) => {
            record_load_within(alloc, memory, form, NONE, name, bytes, &mut out, &mut err)
        }
        Asked::RecordTasks(form) => {
            record_tasks_within(alloc, memory, form, name, bytes, &mut out, &mut err)
        }
        Asked::RecordAgain(form) => {
            record_again_within(alloc, memory, form, name, bytes, &mut out, &mut err)
        }
        Asked::SweepLoad => {
            sweep_bytes_within(rt, 2, alloc, memory, SWEEP, name, bytes, &mut out, &mut err)
        }
        Asked::ReportTasks(form) => {
            report_bytes_within(alloc, memory, form, name, bytes, &mut out, &mut err)
        }
        Asked::DrawLoad(drawing) => draw_load_within(
            alloc,
            memory,
            drawing,
            &[],
            NONE,
            name,
            bytes,
            &mut NoProgress,
            &mut out,
            &mut err,
        ),
        Asked::DrawTasks(drawing) => draw_tasks_within(
            alloc,
            memory,
            drawing,
            &[],
            name,
            bytes,
            &mut out,
            &mut err,
        ),
    };
    Outcome { status, out, err }
}

/// Returns the drawing of the ticks from 0 up to `to`.
fn drawing_to(rt: &impl Abort, drawing: Drawing, to: u64) -> RunDrawing {
    let ticks = Window::new(0, to).ok().expect(rt, "ticks");
    let bounded = true;
    match drawing {
        Drawing::Svg => RunDrawing {
            drawing: Drawing::Svg,
            ticks,
            bounded,
        },
        Drawing::Text => RunDrawing {
            drawing: Drawing::Text,
            ticks,
            bounded,
        },
        Drawing::Trace => RunDrawing {
            drawing: Drawing::Trace,
            ticks,
            bounded,
        },
    }
}

/// What is asked of a file, and what the answer begins with, has somewhere, and ends with.
type Printed = (Asked, &'static str, [&'static str; 3]);

/// What is asked beside drawings. The whole answers are in `tests/checks.txt` and `tests/reports.txt`, at the top of the
/// repository.
const PRINTED: [Printed; 13] = [
    (
        Asked::Check {
            form: Form::Report,
            strict: true,
        },
        LOAD,
        ["fits: 1/2", "a       soft", "yes, by 2\n"],
    ),
    (
        Asked::Check {
            form: Form::Report,
            strict: true,
        },
        TASKS,
        ["fits: 1/2", "server 0  soft", "every 2 ticks.\n"],
    ),
    (
        Asked::ReportLoad {
            form: Form::Report,
            strict: true,
        },
        LOAD,
        ["in time: ", "a.toml, ticks 0 to 4: 2 run", "1   1.0\n"],
    ),
    (
        Asked::Check {
            form: Form::Json,
            strict: true,
        },
        LOAD,
        ["{\"backlog\":2", "\"file\":\"a.toml\"", "}\n"],
    ),
    (
        Asked::Check {
            form: Form::Json,
            strict: true,
        },
        TASKS,
        ["{", "\"name\":\"server 0\"", "}\n"],
    ),
    (
        Asked::SweepLoad,
        LOAD,
        ["a.toml, 3 runs", "RUNS", "1        3\n"],
    ),
    (
        Asked::WriteLoadJobs,
        LOAD,
        [
            "server,job,came,",
            "a,0,0,1,1,0,0,finished\n",
            "a,1,2,3,1,0,0,finished\n",
        ],
    ),
    (
        Asked::WriteLoadLines,
        LOAD,
        ["@0 submit 0 ", "@2 advance 1\n", "@4 advance 1\n"],
    ),
    (
        Asked::RecordLoad(RecordForm::Text),
        LOAD,
        [
            "record = 1\nbound = [1, 1]\nbacklog = 2\nserver = [\n  { name = \"a\", mode = \"soft\",",
            "{ op = \"submit\", server = 0, units = 1 },\n  { op = \"run\" },\n  { op = \"advance\"",
            "{ op = \"advance\", ticks = 1 },\n]\n",
        ],
    ),
    (
        Asked::RecordTasks(RecordForm::Text),
        TASKS,
        [
            "record = 1\n",
            "name = \"server-0\", mode = \"soft\", budget = 1, period = 2 },\n]\n",
            "{ op = \"advance\", ticks = 3 },\n]\n",
        ],
    ),
    (
        Asked::RecordAgain(RecordForm::Text),
        RECORD,
        [
            "record = 1\n",
            "name = \"a\", mode = \"soft\", budget = 1, period = 2 },\n]\n",
            "step = [\n  { op = \"run\", times = 2 },\n]\n",
        ],
    ),
    (
        Asked::ReportTasks(Form::Report),
        TASKS,
        ["in time: ", "a.toml, ticks 0 to 4: 1 run", "1   1.0\n"],
    ),
    (
        Asked::ReportTasks(Form::Json),
        TASKS,
        ["{\"backlog\":2", "\"file\":\"a.toml\"", "}\n"],
    ),
];

/// What a drawing begins with, has somewhere, and ends with.
static DRAWN: [(Drawing, [&str; 3]); 3] = [
    (
        Drawing::Svg,
        [
            "<svg ",
            "<title id=\"what\">a.toml, ticks 0 to 4</title>",
            "</svg>\n",
        ],
    ),
    (Drawing::Text, ["a.toml, ticks 0 to 4\n", "|", "\n"]),
    (
        Drawing::Trace,
        ["{\"displayTimeUnit\":\"ns\"", "\"name\":\"a.toml\"", "}\n"],
    ),
];

/// Ends the test unless what is printed begins, goes on and ends with these parts.
fn is_printed<R: Abort + Threads + Sync>(
    rt: &R,
    alloc: Global,
    asked: Asked,
    file: &str,
    parts: [&str; 3],
) {
    let [start, part, end] = parts;
    let outcome = printed(rt, alloc, asked, MEMORY, file, Memory::ample(alloc));
    same(rt, "status", outcome.status, 0);
    let text = str::from_utf8(&outcome.out.taken).unwrap_or("");
    same(rt, text, text.starts_with(start), true);
    same(rt, text, text.contains(part), true);
    same(rt, text, text.ends_with(end), true);
}

#[test]
fn a_text_is_printed_to_its_end(rt: HostRuntime) {
    for &(asked, file, parts) in &PRINTED {
        is_printed(&rt, rt.alloc(), asked, file, parts);
    }
}

#[test]
fn a_run_is_drawn_up_to_its_end(rt: HostRuntime) {
    let alloc = rt.alloc();
    for &(drawing, parts) in &DRAWN {
        let all = drawing_to(&rt, drawing, 20_000);
        is_printed(&rt, alloc, Asked::DrawLoad(all), LOAD, parts);
        is_printed(&rt, alloc, Asked::DrawTasks(all), TASKS, parts);
    }
}

/// Ends the test unless this prefix of five bytes is what a writer has that takes no more. If it is a closed pipe,
/// nothing is told; else the fault is.
fn is_cut<R: Abort + Threads + Sync>(
    rt: &R,
    alloc: Global,
    asked: Asked,
    file: &str,
    prefix: &str,
) {
    let small = Memory::new(alloc, 5, usize::MAX);
    let fault = "cbsrun: run fault 2 WriteFault\n";
    printed(rt, alloc, asked, MEMORY, file, small).leaves(rt, prefix, 4, prefix, fault);
    let pipe = Memory::pipe(alloc, 5);
    printed(rt, alloc, asked, MEMORY, file, pipe).leaves(rt, prefix, 0, prefix, "");
}

#[test]
fn a_writer_that_fails_has_a_prefix(rt: HostRuntime) {
    let alloc = rt.alloc();
    let svg = drawing_to(&rt, Drawing::Svg, 4);
    let trace = drawing_to(&rt, Drawing::Trace, 4);
    for (asked, file, prefix) in &[
        (
            Asked::Check {
                form: Form::Report,
                strict: false,
            },
            LOAD,
            "fits:",
        ),
        (
            Asked::ReportLoad {
                form: Form::Json,
                strict: false,
            },
            LOAD,
            "{\"bac",
        ),
        (Asked::WriteLoadLines, LOAD, "@0 su"),
        (Asked::WriteLoadJobs, LOAD, "serve"),
        (Asked::RecordLoad(RecordForm::Text), LOAD, "recor"),
        (Asked::RecordTasks(RecordForm::Tape), TASKS, "recor"),
        (Asked::RecordAgain(RecordForm::Text), RECORD, "recor"),
        (Asked::ReportTasks(Form::Report), TASKS, "in ti"),
        (Asked::DrawLoad(svg), LOAD, "<svg "),
        (Asked::DrawTasks(trace), TASKS, "{\"dis"),
    ] {
        is_cut(&rt, alloc, *asked, file, prefix);
    }
}

#[test]
fn a_strict_answer_is_not_told_by_a_closed_pipe(rt: HostRuntime) {
    let alloc = rt.alloc();
    let form = Form::Report;
    for (asked, prefix) in &[
        (
            Asked::Check {
                form: Form::Report,
                strict: true,
            },
            "fits:",
        ),
        (Asked::ReportLoad { form, strict: true }, "in ti"),
        (Asked::SweepLoad, "a.tom"),
    ] {
        let pipe = Memory::pipe(alloc, 5);
        let fault = "cbsrun: run fault 2 WriteFault\n";
        printed(&rt, alloc, *asked, MEMORY, LOAD, pipe).leaves(&rt, prefix, 4, prefix, fault);
    }
}

/// Ends the test unless a faulty file is explained so. The file is read in pieces, so its fault is told within any bound.
/// For the explanation, and for a file with a dotted key, the document is needed.
fn is_explained<R: Abort + Threads + Sync>(
    rt: &R,
    alloc: Global,
    asked: Asked,
    file: &str,
    explained: &str,
) {
    same(rt, explained, explained.starts_with(FAULT), true);
    printed(rt, alloc, asked, MEMORY, file, Memory::new(alloc, 0, 1)).leaves(
        rt, explained, 3, "", explained,
    );
    printed(rt, alloc, asked, 10, file, Memory::new(alloc, 0, 1)).leaves(
        rt,
        "unexplained",
        3,
        "",
        FAULT,
    );
    let no_memory = "cbsrun: file fault 7 OutOfMemory at top\n";
    printed(rt, alloc, asked, 10, "a.b = 1\n", Memory::new(alloc, 0, 1)).leaves(
        rt, no_memory, 3, "", no_memory,
    );
}

#[test]
fn a_fault_is_explained_if_there_is_memory(rt: HostRuntime) {
    let alloc = rt.alloc();
    let text = drawing_to(&rt, Drawing::Text, 4);
    let svg = drawing_to(&rt, Drawing::Svg, 4);
    let load = ("load = 2\n", LOAD_EXPLAINED);
    let tasks = ("format = 3\nstep = []\n", TASKS_EXPLAINED);
    for (asked, (file, explained)) in &[
        (
            Asked::Check {
                form: Form::Report,
                strict: true,
            },
            load,
        ),
        (
            Asked::ReportLoad {
                form: Form::Report,
                strict: true,
            },
            load,
        ),
        (Asked::WriteLoadLines, load),
        (Asked::WriteLoadJobs, load),
        (Asked::RecordLoad(RecordForm::Tape), load),
        (Asked::SweepLoad, load),
        (Asked::RecordTasks(RecordForm::Text), tasks),
        (Asked::ReportTasks(Form::Report), tasks),
        (Asked::DrawLoad(text), load),
        (Asked::DrawTasks(svg), tasks),
    ] {
        is_explained(&rt, alloc, *asked, file, explained);
    }
}
