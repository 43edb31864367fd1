//! The keys of each kind of table, as data.

use cbs_core::MAX_BACKLOG;
use cbs_job::MAX_UNITS;
use cbs_rate::{MAX_PERIOD, MAX_RING};
use cbs_rules::LIMIT;
use cbsrun_loads::MAX_SOURCES;
use cbsrun_times::Rounding;

/// The longest advance of a step in a file of format 1, in ticks.
const OLD_ADVANCE: u64 = 1_000_000_000;

/// The greatest integer of TOML.
const MAX_INTEGER: u64 = 9_223_372_036_854_775_807;

/// A set of words, of which the value of a key is one.
#[derive(Clone, Copy)]
pub enum Words {
    Modes,
    Steps,
    /// What a step of a record does.
    RecordSteps,
    Jobs,
}

static MODES: [&str; 2] = ["soft", "throttled"];

static STEPS: [&str; 4] = ["submit", "run", "advance", "close"];

static RECORD_STEPS: [&str; 5] = ["submit", "run", "advance", "close", "charge"];

static JOBS: [&str; 2] = ["sum", "peak"];

impl Words {
    /// Returns the words.
    pub fn list(self) -> &'static [&'static str] {
        match self {
            Words::Modes => &MODES,
            Words::Steps => &STEPS,
            Words::RecordSteps => &RECORD_STEPS,
            Words::Jobs => &JOBS,
        }
    }
}

/// The values that a key may have.
#[derive(Clone, Copy)]
pub enum Want {
    /// A number from the first to the second.
    Number(u64, u64),
    /// A number from 1 to the period of the same table.
    Budget,
    /// A number that is less than the least `every` of the same table.
    Jitter,
    /// The number of a server.
    Server,
    /// A number, or a least and a greatest one, from the first number to the second.
    Range(u64, u64),
    /// One word of a set.
    Word(Words),
    /// A name of a server.
    Name,
    /// The name of a server of the file.
    ServerName,
    /// Two numbers that make a bound.
    Bound,
    /// An array of at most this many tables.
    Tables(u64),
    /// An array of numbers, one for each unit.
    Units,
    /// An array of ticks, each later than the one before it.
    Listed,
    /// The length of a tick.
    Tick,
}

/// A key of a table.
#[derive(Clone, Copy)]
pub struct Key {
    pub name: &'static str,
    /// Whether the key must be there.
    pub required: bool,
    pub want: Want,
}

impl Key {
    /// Returns how a time at the key is rounded to ticks, or `None` if the key has no time.
    pub fn rounding(self) -> Option<Rounding> {
        match self.name {
            // A job of a record has a number of units, and a source of a load has a range.
            "units" if matches!(self.want, Want::Units | Want::Number(_, _)) => None,
            "units" | "overrun" | "jitter" | "budget" | "until" => Some(Rounding::Up),
            "first" | "every" | "at" | "within" => Some(Rounding::Down),
            "period" => Some(Rounding::Whole),
            _ => None,
        }
    }

    /// Returns whether the key has a time, which is counted in ticks.
    pub fn is_time(self) -> bool {
        self.name == "ticks" || self.rounding().is_some()
    }
}

macro_rules! key {
    ($name:expr, $want:expr) => {
        Key {
            name: $name,
            required: true,
            want: $want,
        }
    };
}

macro_rules! optional_key {
    ($name:expr, $want:expr) => {
        Key {
            name: $name,
            required: false,
            want: $want,
        }
    };
}

static FORMAT_ONE: [Key; 7] = [
    key!("format", Want::Number(1, 2)),
    key!("mode", Want::Word(Words::Modes)),
    key!("bound", Want::Bound),
    key!("backlog", Want::Number(1, MAX_BACKLOG)),
    key!("ring", Want::Number(1, MAX_RING)),
    key!("server", Want::Tables(MAX_INTEGER)),
    key!("step", Want::Tables(MAX_INTEGER)),
];

static FORMAT_TWO: [Key; 6] = [
    key!("format", Want::Number(1, 2)),
    key!("bound", Want::Bound),
    key!("backlog", Want::Number(1, MAX_BACKLOG)),
    key!("ring", Want::Number(1, MAX_RING)),
    key!("server", Want::Tables(MAX_INTEGER)),
    key!("step", Want::Tables(MAX_INTEGER)),
];

static LOAD: [Key; 8] = [
    key!("load", Want::Number(1, 1)),
    optional_key!("tick", Want::Tick),
    key!("bound", Want::Bound),
    key!("backlog", Want::Number(1, MAX_BACKLOG)),
    key!("until", Want::Number(1, LIMIT)),
    optional_key!("seed", Want::Number(0, MAX_INTEGER)),
    key!("server", Want::Tables(MAX_INTEGER)),
    key!("source", Want::Tables(MAX_SOURCES as u64)),
];

static RECORD: [Key; 6] = [
    key!("record", Want::Number(1, 1)),
    optional_key!("tick", Want::Tick),
    key!("bound", Want::Bound),
    key!("backlog", Want::Number(1, MAX_BACKLOG)),
    key!("server", Want::Tables(MAX_INTEGER)),
    key!("step", Want::Tables(MAX_INTEGER)),
];

static PLAIN_SERVER: [Key; 2] = [
    key!("budget", Want::Budget),
    key!("period", Want::Number(1, MAX_PERIOD)),
];

static MODED_SERVER: [Key; 3] = [
    key!("budget", Want::Budget),
    key!("period", Want::Number(1, MAX_PERIOD)),
    key!("mode", Want::Word(Words::Modes)),
];

static NAMED_SERVER: [Key; 4] = [
    key!("name", Want::Name),
    key!("mode", Want::Word(Words::Modes)),
    key!("budget", Want::Budget),
    key!("period", Want::Number(1, MAX_PERIOD)),
];

/// The ticks between the jobs of a source.
pub(crate) static EVERY: Key = key!("every", Want::Range(1, LIMIT));

static SOURCE: [Key; 8] = [
    key!("server", Want::ServerName),
    optional_key!("first", Want::Number(0, LIMIT)),
    key!("every", Want::Range(1, LIMIT)),
    key!("units", Want::Range(1, MAX_UNITS as u64)),
    optional_key!("jobs", Want::Number(1, LIMIT)),
    optional_key!("within", Want::Number(1, LIMIT)),
    optional_key!("overrun", Want::Range(0, MAX_PERIOD)),
    optional_key!("jitter", Want::Jitter),
];

static LISTING_SOURCE: [Key; 6] = [
    key!("at", Want::Listed),
    key!("server", Want::ServerName),
    key!("units", Want::Range(1, MAX_UNITS as u64)),
    optional_key!("within", Want::Number(1, LIMIT)),
    optional_key!("overrun", Want::Range(0, MAX_PERIOD)),
    optional_key!("jitter", Want::Jitter),
];

static STEP: [Key; 1] = [key!("op", Want::Word(Words::Steps))];

static SUBMIT: [Key; 4] = [
    key!("op", Want::Word(Words::Steps)),
    key!("server", Want::Server),
    key!("job", Want::Word(Words::Jobs)),
    key!("units", Want::Units),
];

static ADVANCE: [Key; 2] = [
    key!("op", Want::Word(Words::Steps)),
    key!("ticks", Want::Number(0, LIMIT)),
];

static OLD_ADVANCE_KEYS: [Key; 2] = [
    key!("op", Want::Word(Words::Steps)),
    key!("ticks", Want::Number(0, OLD_ADVANCE)),
];

static CLOSE: [Key; 2] = [
    key!("op", Want::Word(Words::Steps)),
    key!("server", Want::Server),
];

static RECORD_STEP: [Key; 1] = [key!("op", Want::Word(Words::RecordSteps))];

static COUNTED_SUBMIT: [Key; 3] = [
    key!("op", Want::Word(Words::RecordSteps)),
    key!("server", Want::Server),
    key!("units", Want::Number(1, MAX_UNITS as u64)),
];

static RUNS: [Key; 2] = [
    key!("op", Want::Word(Words::RecordSteps)),
    optional_key!("times", Want::Number(1, LIMIT)),
];

static CHARGE: [Key; 3] = [
    key!("op", Want::Word(Words::RecordSteps)),
    key!("server", Want::Server),
    key!("ticks", Want::Number(1, LIMIT)),
];

/// A kind of table.
#[derive(Clone, Copy)]
pub enum Subject {
    /// The top table of a task file of format 1.
    FormatOne,
    /// The top table of a task file of format 2.
    FormatTwo,
    /// The top table of a load file.
    Load,
    /// The top table of a record.
    Record,
    /// A server of a task file of format 1.
    PlainServer,
    /// A server of a task file of format 2.
    ModedServer,
    /// A server of a load file or of a record.
    NamedServer,
    Source,
    /// A source that lists its ticks: it has the key `at`.
    ListingSource,
    /// A step whose `op` is not known.
    Step,
    Submit,
    Run,
    Advance,
    /// An advance of a task file of format 1.
    OldAdvance,
    Close,
    /// A step of a record whose `op` is not known.
    RecordStep,
    /// A submit of a record: its job is a number of units.
    CountedSubmit,
    /// Runs in a row, of a record.
    Runs,
    Charge,
}

impl Subject {
    /// Returns the keys, in the order in which they are tested.
    pub fn keys(self) -> &'static [Key] {
        match self {
            Subject::FormatOne => &FORMAT_ONE,
            Subject::FormatTwo => &FORMAT_TWO,
            Subject::Load => &LOAD,
            Subject::Record => &RECORD,
            Subject::PlainServer => &PLAIN_SERVER,
            Subject::ModedServer => &MODED_SERVER,
            Subject::NamedServer => &NAMED_SERVER,
            Subject::Source => &SOURCE,
            Subject::ListingSource => &LISTING_SOURCE,
            Subject::Step | Subject::Run => &STEP,
            Subject::Submit => &SUBMIT,
            Subject::Advance => &ADVANCE,
            Subject::OldAdvance => &OLD_ADVANCE_KEYS,
            Subject::Close => &CLOSE,
            Subject::RecordStep => &RECORD_STEP,
            Subject::CountedSubmit => &COUNTED_SUBMIT,
            Subject::Runs => &RUNS,
            Subject::Charge => &CHARGE,
        }
    }

    /// Returns whether tables of this kind have a key.
    pub(crate) fn has_key(self, name: &str) -> bool {
        for key in self.keys() {
            if key.name == name {
                return true;
            }
        }
        false
    }

    /// Returns the words for such a table.
    pub fn phrase(self) -> &'static str {
        match self {
            Subject::FormatOne => "a task file of format 1",
            Subject::FormatTwo => "a task file",
            Subject::Load => "a load file",
            Subject::Record => "a record",
            Subject::PlainServer | Subject::ModedServer | Subject::NamedServer => "a server",
            Subject::Source => "a source",
            Subject::ListingSource => "a source with `at`",
            Subject::Step | Subject::RecordStep => "a step",
            Subject::Submit | Subject::CountedSubmit => "a submit",
            Subject::Run | Subject::Runs => "a run",
            Subject::Advance | Subject::OldAdvance => "an advance",
            Subject::Close => "a close",
            Subject::Charge => "a charge",
        }
    }
}
