//! The document of a task file, read line by line. Its steps are read apart, so the document is never whole in memory.

ghost use Rattle.std.specs.Prelude.{◌≡◌, ◌<◌, ℕ, true, codes, length, [], IfOk, IfSome, All};
ghost use Rattle.toml.specs.Parse as spec;
ghost use Rattle.toml.specs.Tables.{close, Document as Lines};
ghost use Rattle.toml.specs.View.{table_view};
ghost use Rattle.toml_parser.specs.Reading.{key_view};
ghost use Rattle.cbsrun_toml.specs.Reading.{closed};
ghost use Rattle.cbsrun_tasks.specs.Streams.{ReadsDocument};
ghost use Rattle.cbsrun_task_steps.specs.Entries.{IsFileStep};

use cbsrun_task_steps::{StepsRead, Terms, step_array, step_tables};
use cbsrun_toml::{Room, Stop, arrays_before, ends_line, key_equals, put, skip_bom, value};
use std::alloc::Global;
use std::collections::BTreeMap;
use toml::Table;
use toml_parser::Key;
use toml_parser::text::{first, skip, skip_blank, skip_ws};

/// The table of a document. If the steps stand last, the table lacks them; what was read of them stands beside it, with
/// the terms by which they were read.
#[derive(Drop)]
pub struct Document {
    pub table: Table,
    pub terms: Terms,
    pub read: Option<StepsRead>,
}

/// Returns whether the key is `step`. No other key gives `true`.
fn is_step(key: &Key) -> bool
    ensures { result ≡ true → key_view key.now ≡ ([], codes "step") }
{
    key.path.is_empty() && key.last.as_str() == "step"
}

/// Returns the document of a table whose other lines are arrays of tables.
fn read_tables(alloc: Global, room: &mut Room, table: Table, s: &str) -> Result<Document, Stop>
    ensures value { (n : ℕ) (doc : Lines) → close doc.0 ≡ table_view table → length s.now < n
        → ReadsDocument result (closed (spec.lines n doc s.now)) }
    ensures named { IfOk result (λ d. IfSome d.read (λ r.
        All (IsFileStep d.terms.servers) r.steps.items)) }
{
    let (table, steps) = arrays_before(alloc, room, table, "step", s)?;
    let terms = Terms::of(&table);
    match steps {
        None => Ok(Document {
            table,
            terms,
            read: None,
        }),
        Some(body) => {
            let read = step_tables(alloc, terms, body)?;
            Ok(Document {
                table,
                terms,
                read: Some(read),
            })
        }
    }
}

/// Returns the document of a text with simple keys: pairs, and then arrays of tables under headers in double brackets.
/// The steps stand last, as the array of a pair or under such headers.
pub fn read_document(alloc: Global, s: &str) -> Result<Document, Stop>
    ensures value { ReadsDocument result (spec.parse_document s.now) }
    ensures named { IfOk result (λ d. IfSome d.read (λ r.
        All (IsFileStep d.terms.servers) r.steps.items)) }
{
    let mut room = Room::new();
    let mut table = BTreeMap::new(alloc);
    let mut rest = skip_bom(s);
    'lines: loop {
        let start = skip_blank(rest, true);
        if start.is_empty() {
            let terms = Terms::of(&table);
            return Ok(Document {
                table,
                terms,
                read: None,
            });
        }
        if first(start) == b'[' {
            return read_tables(alloc, &mut room, table, rest);
        }
        let (key, at_value) = key_equals(alloc, start)?;
        if is_step(&key) && first(at_value) == b'[' {
            let terms = Terms::of(&table);
            let (read, after) = step_array(alloc, terms, skip(at_value, 1))?;
            if !ends_line(skip_ws(after)) {
                return Err(Stop::NotToml);
            }
            if !skip_blank(after, true).is_empty() || table.contains_key("step") {
                return Err(Stop::Unusual);
            }
            return Ok(Document {
                table,
                terms,
                read: Some(read),
            });
        }
        let (value, after) = value(alloc, &mut room, at_value, 80)?;
        if !ends_line(skip_ws(after)) {
            return Err(Stop::NotToml);
        }
        put(&mut table, key, value)?;
        rest = after;
    }
}
