//! The actions that a command line can ask for.

ghost use Rattle.std.specs.Prelude.{◌≤◌, unwrap_or};

use crate::run_drawing::RunDrawing;

/// The greatest seed of a load.
pub const MOST_SEED: u64 = 9_223_372_036_854_775_807;

/// The greatest tick at which the simulation of a load ends.
pub const LAST_END: u64 = 1_000_000_000_000;

/// What `replay` or `serve` does with a task file.
#[derive(Clone, Copy, PartialEq, Eq)]
pub enum Verb {
    /// A replay: the steps of the file are run, and a line is written for each.
    Replay,
    /// A service: each server's submits go to a client of its own, all clients are served, and the results of each
    /// server are written.
    Serve,
}

/// The form in which a report, or what `check` tells, is written.
#[derive(Clone, Copy, PartialEq, Eq)]
pub enum Form {
    /// Text, for people.
    Report,
    /// JSON, for programs.
    Json,
}

/// The form in which a run is drawn.
#[derive(Clone, Copy, PartialEq, Eq)]
pub enum Drawing {
    /// A picture, in SVG.
    Svg,
    /// A timeline, in text.
    Text,
    /// A trace, for Perfetto and Chrome.
    Trace,
}

/// What is written of a simulation, step by step or job by job.
#[derive(Clone, Copy, PartialEq, Eq)]
pub enum Listing {
    /// A line for each step.
    Lines,
    /// A line of CSV for each job.
    Csv,
    /// A record of all steps, as a text.
    Record,
    /// A record of all steps, as a tape.
    Tape,
}

/// What takes the place of what a load itself says. Without a number, the load's own one stays.
#[derive(Clone, Copy, PartialEq, Eq)]
pub struct Changes {
    /// The seed of the numbers that are drawn: 0 to [`MOST_SEED`].
    pub seed: Option<u64>,
    /// The tick at which the simulation ends: 1 to [`LAST_END`].
    pub until: Option<u64>,
    ghost seeded: { unwrap_or seed 0 ≤ 9223372036854775807 },
    ghost some: { 1 ≤ unwrap_or until 1 },
    ghost few: { unwrap_or until 1 ≤ 1000000000000 },
}

/// The most runs of a load, with one seed after another.
pub const MOST_RUNS: u64 = 1_000_000;

/// The seeds of many runs of a load, from the first to the last: at most [`MOST_RUNS`].
#[derive(Clone, Copy, PartialEq, Eq)]
pub struct Seeds {
    /// The first seed.
    pub first: u64,
    /// The last seed: at most [`MOST_SEED`].
    pub last: u64,
    ghost ordered: { first ≤ last },
    ghost within: { last ≤ 9223372036854775807 },
}

/// The form in which it is written what many runs tell.
#[derive(Clone, Copy, PartialEq, Eq)]
pub enum SweepForm {
    /// Text, for people.
    Report,
    /// JSON, for programs.
    Json,
    /// CSV, for notebooks.
    Csv,
}

/// Many runs of a load that a command line asks for.
#[derive(Clone, Copy, PartialEq, Eq)]
pub struct LoadSweep {
    /// The form of what is told.
    pub form: SweepForm,
    /// The seeds of the runs.
    pub seeds: Seeds,
    /// What takes the place of the end that the load says. There is no seed.
    pub changes: Changes,
    /// Whether the status is 1 if a job of a run is late or was refused.
    pub strict: bool,
}

/// The report of a load that a command line asks for.
#[derive(Clone, Copy, PartialEq, Eq)]
pub struct LoadReport {
    /// The form of the report.
    pub form: Form,
    /// What takes the place of what the load says.
    pub changes: Changes,
    /// Whether the status is 1 if a job is late or was refused.
    pub strict: bool,
}

/// The action that a command line asks for.
#[derive(Clone, Copy, PartialEq, Eq)]
pub enum Action {
    /// The text on what the servers of a file have and could have, and which jobs of a load are always in time.
    Check {
        /// The form of what is told.
        form: Form,
        /// Whether the status is 1 if the jobs of a source are not promised to be in time.
        strict: bool,
    },
    /// The load file of a sketch, with a reservation for each server.
    Size {
        /// Whether each server gets one, also if it has one.
        all: bool,
    },
    /// The simulation of a load, with this report.
    ReportLoad(LoadReport),
    /// The simulation of a load with these changes, with this listing.
    ListLoad(Listing, Changes),
    /// Many simulations of a load, with one seed after another.
    SweepLoad(LoadSweep),
    /// The simulation of a load with these changes, with this drawing.
    DrawLoad(RunDrawing, Changes),
    /// The replay of a task file, with a report in this form.
    ReportTasks(Form),
    /// The replay of a task file, with this drawing.
    DrawTasks(RunDrawing),
    /// The replay of a task file, with a record of all steps: as a tape, or else as a text.
    RecordTasks {
        /// Whether it is a tape.
        taped: bool,
    },
    /// The replay of a task file with a line for each step, or its service.
    Run(Verb),
}

/// The request of a command line: an action, and its files.
#[derive(Drop)]
pub struct Asked {
    /// The action.
    pub action: Action,
    /// The names of the files, at least one, in the order of the words. A check and a report of a simulation may have
    /// several, and each other action has one.
    pub files: Vec<String>,
    /// The names of the servers that are to be drawn. Without one, all are.
    pub servers: Vec<String>,
}
