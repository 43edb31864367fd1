//! The text of a fault.

ghost use Rattle.std.specs.Prelude.{◌≡◌, ℕ, List, IfOk, Some, IsUtf8, string_bytes};
ghost use Rattle.toml.specs.Data.{Members};
ghost use Rattle.toml.specs.Parse.{parse_document};
ghost use Rattle.cbsrun_faults.specs.Documents.{IsDocument};
ghost use Rattle.cbsrun_fault_texts.specs.Explanations.{AppendsWhy, TellsWhy, ExplainsRefusal};

use crate::key_line::{KeyLine, Marked};
use crate::not_toml::append_not_toml;
use crate::notes::{append_keys_note, append_servers_note};
use crate::pieces::append_spot_at;
use crate::remarks::{append_outside_line, append_type_lines};
use crate::shown::{append_shown, type_phrase};
use crate::values::{append_outside, append_wrong_type};
use cbsrun_faults::{
    Document, Finding, Key, Kind, Meant, Spot, Subject, Want, find, header_line, meant_by, spot_at,
};
use cbsrun_refusal_texts::{Page, append_not_admitted};
use cbsrun_toml_tables::{FileFault, FileKind, Place};
use std::alloc::{AllocError, Global};
use toml::Value;

/// Appends the explanation of a key that a table may not have, with what may be meant by it, if that is known.
fn append_unknown(page: &mut Page, spot: &Spot<'_>, key: &str, value: &Value) {
    page.push_all(&["error: no key of ", spot.subject.phrase(), ": `"]);
    page.push_printable(key);
    page.push("`");
    let line = KeyLine::new(page.alloc(), spot, key, value);
    let Some(line) = page.accept(line) else {
        return;
    };
    line.append(page, spot, Marked::Key);
    let meant = meant_by(page.alloc(), spot, key);
    match page.accept(meant).flatten() {
        Some(Meant::Key(name)) => page.push_all(&[" did you mean `", name, "`?"]),
        Some(Meant::Elsewhere(phrase)) => page.push_all(&[" this key belongs to ", phrase]),
        None => {}
    }
    page.push("\n");
    append_keys_note(page, line.margin(), spot.subject, false);
}

/// Appends that a document has no key that says of which kind it is, or that it is of another kind.
fn append_other_kind(page: &mut Page, spot: &Spot<'_>) {
    page.push(if spot.document.has("load") {
        "error: this is a load file, and a task file is wanted"
    } else if spot.document.has("record") {
        "error: this is a record: `replay` takes one, if `record` is its first key"
    } else if spot.document.has("format") {
        "error: this is a task file, and a load file is wanted"
    } else {
        "error: neither `format` nor `load` is there"
    });
    page.push_spot(spot);
    page.push_bar(2);
    page.push(
        "  = note: a task file has `format = 2`, a load file `load = 1`, and a record `record = 1`\n",
    );
}

/// Appends which command proposes a reservation, if a key of one is missing from a server of a load.
fn append_size_help(page: &mut Page, spot: &Spot<'_>, key: Key) {
    let in_load = spot.document.kind == Kind::Load;
    if in_load
        && matches!(spot.subject, Subject::NamedServer)
        && matches!(key.name, "budget" | "period")
    {
        let words = "`cbsrun size LOAD` proposes budget and period, if both are left out";
        page.push_note(2, "help", String::from_str(page.alloc(), words));
    }
}

/// Appends the explanation of a key that is missing.
fn append_missing(page: &mut Page, spot: &Spot<'_>, key: Key) {
    if key.name == "format" {
        return append_other_kind(page, spot);
    }
    page.push_all(&["error: `", key.name, "` is missing"]);
    let number = header_line(page.alloc(), spot);
    let Some(number) = page.accept(number) else {
        return;
    };
    append_spot_at(page, spot, number);
    append_keys_note(page, 2, spot.subject, true);
    append_size_help(page, spot, key);
}

/// Appends the explanation of a value of a wrong type.
fn append_type_fault(page: &mut Page, spot: &Spot<'_>, key: Key, value: &Value) {
    page.push("error: ");
    append_wrong_type(page, key, value, spot);
    let line = KeyLine::new(page.alloc(), spot, key.name, value);
    if let Some(line) = page.accept(line) {
        append_type_lines(page, &line, key, value, spot);
    }
}

/// Appends the explanation of a value that is out of range.
fn append_range_fault(page: &mut Page, spot: &Spot<'_>, key: Key, value: &Value) {
    page.push("error: ");
    append_outside(page, key, value, spot);
    let line = KeyLine::new(page.alloc(), spot, key.name, value);
    let Some(line) = page.accept(line) else {
        return;
    };
    append_outside_line(page, &line, key, value, spot);
    if matches!(key.want, Want::ServerName) {
        append_servers_note(page, line.margin(), spot.document.servers);
    }
}

/// Appends the explanation of a name that an earlier server has.
fn append_taken(page: &mut Page, spot: &Spot<'_>, value: &Value, other: usize) {
    page.push("error: `name` is ");
    append_shown(page, value);
    page.push_number(", which server ", other as u64);
    page.push(" has already");
    let line = KeyLine::new(page.alloc(), spot, "name", value);
    if let Some(line) = page.accept(line) {
        line.append(page, spot, Marked::Inside);
        page.push(" a name that no other server has\n");
    }
}

/// Appends the explanation of an entry that is no table.
fn append_no_table(page: &mut Page, spot: &Spot<'_>, value: &Value) {
    let place = spot.place;
    let phrase = type_phrase(value);
    write!(page, "error: {place} is {phrase}, and has to be a table");
    page.push_spot(spot);
}

/// Appends the explanation of a finding.
fn append_finding(page: &mut Page, spot: &Spot<'_>, finding: Finding<'_>) {
    match finding {
        Finding::Unknown(key, value) => append_unknown(page, spot, key, value),
        Finding::Missing(key) => append_missing(page, spot, key),
        Finding::WrongType(key, value) => append_type_fault(page, spot, key, value),
        Finding::OutOfRange(key, value) => append_range_fault(page, spot, key, value),
        Finding::Taken(value, other) => append_taken(page, spot, value, other),
        Finding::NoTable(value) => append_no_table(page, spot, value),
    }
}

/// Appends the explanation of a fault in the table of a spot.
fn append_table_fault(page: &mut Page, spot: &Spot<'_>, kind: FileKind) {
    match find(kind, spot) {
        Some(finding) => append_finding(page, spot, finding),
        None if kind == FileKind::MissingKey => append_other_kind(page, spot),
        None => page.push_kind(kind),
    }
}

/// Appends the explanation of a fault in no table of the document. If it is at a step, it is in the tape after it.
fn append_elsewhere(page: &mut Page, name: &str, fault: FileFault) {
    let Place::Step(number) = fault.place else {
        return page.push_kind(fault.kind);
    };
    page.push_number("error: entry ", number);
    page.push(" of the tape is none that `step` may have\n  --> ");
    page.push_printable(name);
    page.push(
        ": its server is not there, its number is out of range, its bytes are no entry, or the file",
    );
    page.push(" was changed there\n");
}

/// Appends the explanation of a fault in a document.
fn append_fault(page: &mut Page, document: Document<'_>, fault: FileFault)
    ensures { (file : List ℕ) (top : Members) → IsDocument file top document.entry
        → AppendsWhy file top fault page.old page.new }
{
    match spot_at(document, fault.place) {
        Some(spot) => match (fault.kind, fault.place) {
            (FileKind::NotAdmitted, Place::Server(number)) => {
                append_not_admitted(page, &spot, number)
            }
            _ => append_table_fault(page, &spot, fault.kind),
        },
        None => append_elsewhere(page, document.name, fault),
    }
}

/// Returns the explanation of a fault in a document. The only error is out of memory.
pub fn explain_in(
    alloc: Global,
    document: Document<'_>,
    fault: FileFault,
) -> Result<String, AllocError>
    ensures refusal { IfOk result (λ text. (file : List ℕ) (top : Members)
        → IsDocument file top document.entry → TellsWhy file top fault (string_bytes text)) }
{
    let mut page = Page::new(alloc);
    append_fault(&mut page, document, fault);
    page.finish()
}

/// Returns bytes as a text, or an empty one if they are none.
fn text_of(bytes: &[u8]) -> &str {
    std::str::from_utf8(bytes).unwrap_or("")
}

/// Appends the explanation of the first fault of a file.
fn append_explanation(page: &mut Page, name: &str, bytes: &[u8], fault: FileFault)
    ensures { (top : Members) → IsUtf8 bytes.now → parse_document bytes.now ≡ Some top
        → AppendsWhy name.now top fault page.old page.new }
{
    if fault.kind == FileKind::OutOfMemory {
        return page.push_kind(fault.kind);
    }
    match toml::table_from_slice(page.alloc(), bytes) {
        Ok(top) => append_fault(page, Document::new(name, text_of(bytes), &top), fault),
        Err(error) if error.is_memory() => page.fail(),
        Err(error) => append_not_toml(page, name, bytes, &error),
    }
}

/// Returns the explanation of the first fault of a task file or a load file, for a person. It says what is wrong and
/// where, shows the line, and says what is allowed and what may help. The bytes are read again for this. If nothing
/// more is known, it is the kind of the fault in words. The only error is out of memory.
pub fn explain(
    alloc: Global,
    name: &str,
    bytes: &[u8],
    fault: FileFault,
) -> Result<String, AllocError>
    ensures refusal { IfOk result (λ text.
        ExplainsRefusal name.now bytes.now fault (string_bytes text)) }
{
    let mut page = Page::new(alloc);
    append_explanation(&mut page, name, bytes, fault);
    page.finish()
}
