//! Values of a document, as an explanation shows them.

use cbsrun_refusal_texts::Page;
use toml::Value;

/// The most entries of an array that are shown.
const MOST_ENTRIES: usize = 6;

/// Appends an entry of an array, as it may be written in a file.
fn append_entry(page: &mut Page, entry: &Value) {
    match entry {
        Value::String(words) => {
            let words = words.as_str();
            write!(page, "{words:?}")
        }
        Value::Float(number) => write!(page, "{number:?}"),
        Value::Array(_) => page.push("[..]"),
        Value::Table(_) => page.push("{..}"),
        _ => write!(page, "{entry}"),
    }
}

/// Appends a value, as it may be written in a file. Tables, arrays in arrays, and the later entries of a long array are
/// left out.
pub(crate) fn append_shown(page: &mut Page, value: &Value) {
    let Value::Array(entries) = value else {
        return append_entry(page, value);
    };
    page.push("[");
    for (place, entry) in entries.iter().enumerate() {
        if place == MOST_ENTRIES {
            page.push(", ..");
            break;
        }
        page.push(if place > 0 { ", " } else { "" });
        append_entry(page, entry);
    }
    page.push("]");
}

/// Returns the words for the type of a value.
pub(crate) fn type_phrase(value: &Value) -> &'static str {
    match value {
        Value::String(_) => "a text",
        Value::Integer(_) => "a number",
        Value::Float(_) => "a number with a point or an exponent",
        Value::Boolean(_) => "a truth value",
        Value::Datetime(_) => "a date",
        Value::Array(_) => "an array",
        Value::Table(_) => "a table",
    }
}
