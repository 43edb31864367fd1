//! The table of a document in which a fault stands.

ghost use Rattle.std.specs.Prelude.{◌≡◌, ℕ, option_map, slice_get, IfOk, IfSome, string_bytes};
ghost use Rattle.toml.specs.View.{view, table_view};
ghost use Rattle.cbsrun_toml_tables.specs.declared.fault.Place.TheVariants.{Server};
ghost use Rattle.cbsrun_faults.specs.Documents.{entries_at, name_of};
ghost use Rattle.cbsrun_faults.specs.Spots.{label_text, label_of, named_label, FindsServer};

use crate::document::{Document, Kind, entries, name_of, server_named, text_at, value_at};
use crate::keys::Subject;
use crate::wants::{most_jitter_of, period_of};
use cbsrun_toml_tables::Place;
use std::alloc::{AllocError, Global};
use std::fmt;
use toml::{Table, Value};

/// What is written about an entry, beside its number.
#[derive(Clone, Copy)]
enum Label<'a> {
    Nothing,
    /// A server with this name.
    Named(&'a str),
    /// A source of the server with this name.
    Of(&'a str),
    /// A step, with what it does.
    Does(&'static str),
}

/// The table in which a fault is, or the entry that should be a table.
#[derive(Clone, Copy)]
pub struct Spot<'a> {
    /// The document.
    pub document: Document<'a>,
    /// The place of the fault in the document.
    pub place: Place,
    /// The kind of the table.
    pub subject: Subject,
    /// The table, or none if the entry is no table.
    pub table: Option<&'a Table>,
    /// The entry, or none if the table is the top table.
    pub entry: Option<&'a Value>,
    label: Label<'a>,
}

impl fmt::Display for Label<'_> {
    ghost use Rattle.cbsrun_faults.specs.Spots.{label_text};

    ghost output = { label_text };

    fn fmt<W: fmt::Write>(&self, f: &mut fmt::Formatter<W>) -> fmt::Result {
        match *self {
            Label::Nothing => Ok(()),
            Label::Named(name) => write!(f, ", {name:?}"),
            Label::Of(name) => write!(f, ", of {name:?}"),
            Label::Does(what) => write!(f, ", {what}"),
        }
    }
}

impl Spot<'_> {
    /// Returns what is written beside the place of the fault, as the name of a server. The only error is out of memory.
    pub fn label(&self, alloc: Global) -> Result<String, AllocError>
        ensures { IfOk result (λ text. IfSome (label_of self.now) (λ label. string_bytes text
            ≡ label)) }
    {
        self.label.to_string(alloc)
    }

    /// Returns the period of the table, or `None` if there is no table or it has no period.
    pub fn period(&self) -> Option<u64> {
        period_of(self.document.tick, self.table?)
    }

    /// Returns the greatest jitter that the table may have: one tick less than its least `every`, or than the least
    /// between two ticks that it lists. Returns `None` if there is no table or it has no such ticks.
    pub fn most_jitter(&self) -> Option<u64> {
        most_jitter_of(self.document.tick, self.table?)
    }
}

/// Returns the kind of the tables of servers.
fn server_subject(kind: Kind) -> Subject {
    match kind {
        Kind::FormatOne => Subject::PlainServer,
        Kind::FormatTwo => Subject::ModedServer,
        Kind::Load | Kind::Record => Subject::NamedServer,
    }
}

/// An `op`, and the kind of the steps that have it.
type Step = (&'static str, Subject);

static STEPS: [Step; 4] = [
    ("submit", Subject::Submit),
    ("run", Subject::Run),
    ("advance", Subject::Advance),
    ("close", Subject::Close),
];

static OLD_STEPS: [Step; 4] = [
    ("submit", Subject::Submit),
    ("run", Subject::Run),
    ("advance", Subject::OldAdvance),
    ("close", Subject::Close),
];

static RECORD_STEPS: [Step; 5] = [
    ("submit", Subject::CountedSubmit),
    ("run", Subject::Runs),
    ("advance", Subject::Advance),
    ("close", Subject::Close),
    ("charge", Subject::Charge),
];

/// Returns the steps of a document of this kind, and the kind of a step that is none of them.
fn steps(kind: Kind) -> (&'static [Step], Subject) {
    match kind {
        Kind::Record => (&RECORD_STEPS, Subject::RecordStep),
        Kind::FormatOne => (&OLD_STEPS, Subject::Step),
        Kind::FormatTwo | Kind::Load => (&STEPS, Subject::Step),
    }
}

/// Returns the kind of a step, by its `op`.
fn step_subject(kind: Kind, entry: &Value) -> Subject {
    let (steps, other) = steps(kind);
    let op = text_at(entry, "op");
    for step in steps {
        if op == Some(step.0) {
            return step.1;
        }
    }
    other
}

/// Returns what is written about a server.
fn server_label(kind: Kind, entry: &Value) -> Label<'_>
    ensures { label_text result ≡ named_label kind (name_of (view entry.now)) }
{
    match name_of(entry) {
        Some(name) if matches!(kind, Kind::Load | Kind::Record) => Label::Named(name),
        _ => Label::Nothing,
    }
}

/// Returns what is written about a source: its server, if there is one with that name.
fn source_label<'a>(servers: &[Value], entry: &'a Value) -> Label<'a> {
    match text_at(entry, "server") {
        Some(name) if server_named(servers, name).is_some() => Label::Of(name),
        _ => Label::Nothing,
    }
}

/// Returns what is written about a step.
fn step_label(subject: Subject) -> Label<'static> {
    match subject {
        Subject::Step | Subject::RecordStep => Label::Nothing,
        _ => Label::Does(subject.phrase()),
    }
}

/// Returns the top table of a document.
fn top_spot(document: Document<'_>) -> Spot<'_> {
    Spot {
        document,
        place: Place::Top,
        subject: match document.kind {
            Kind::FormatOne => Subject::FormatOne,
            Kind::FormatTwo => Subject::FormatTwo,
            Kind::Load => Subject::Load,
            Kind::Record => Subject::Record,
        },
        table: Some(document.top),
        entry: None,
        label: Label::Nothing,
    }
}

/// Returns the entry with this number, from 0, of an array of the top table, or `None` if there is none.
fn entry_at<'a>(document: Document<'a>, key: &str, number: u64) -> Option<&'a Value>
    ensures { option_map (λ entry. view entry.now) result
        ≡ slice_get (entries_at key.now (table_view document.entry.top.now)) number }
{
    entries(document.top, key).get(usize::try_from(number).ok()?)
}

/// Returns the server with this number, from 0, or `None` if there is none.
fn server_spot(document: Document<'_>, number: u64) -> Option<Spot<'_>>
    ensures { FindsServer document.entry number result }
{
    let entry = entry_at(document, "server", number)?;
    Some(Spot {
        document,
        place: Place::Server(number),
        subject: server_subject(document.kind),
        table: entry.as_table(),
        entry: Some(entry),
        label: server_label(document.kind, entry),
    })
}

/// Returns the kind of a source, by whether it lists its ticks.
fn source_subject(entry: &Value) -> Subject {
    match value_at(entry, "at") {
        Some(_) => Subject::ListingSource,
        None => Subject::Source,
    }
}

/// Returns the source with this number, from 0, or `None` if there is none.
fn source_spot(document: Document<'_>, number: u64) -> Option<Spot<'_>> {
    let entry = entry_at(document, "source", number)?;
    Some(Spot {
        document,
        place: Place::Source(number),
        subject: source_subject(entry),
        table: entry.as_table(),
        entry: Some(entry),
        label: source_label(document.servers, entry),
    })
}

/// Returns the step with this number, from 0, or `None` if there is none.
fn step_spot(document: Document<'_>, number: u64) -> Option<Spot<'_>> {
    let entry = entry_at(document, "step", number)?;
    let subject = step_subject(document.kind, entry);
    Some(Spot {
        document,
        place: Place::Step(number),
        subject,
        table: entry.as_table(),
        entry: Some(entry),
        label: step_label(subject),
    })
}

/// Returns the table at a place of a document, or `None` if there is no such entry.
pub fn spot_at(document: Document<'_>, place: Place) -> Option<Spot<'_>>
    ensures { (number : ℕ) → place ≡ Server number → FindsServer document.entry number result }
{
    match place {
        Place::Top => Some(top_spot(document)),
        Place::Server(number) => server_spot(document, number),
        Place::Source(number) => source_spot(document, number),
        Place::Step(number) => step_spot(document, number),
    }
}
