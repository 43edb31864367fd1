//! Notes below a fault: which keys a table has, and which servers there are.

ghost use Rattle.std.specs.Prelude.{◌≤◌};

use crate::pieces::append_list;
use cbsrun_faults::{Key, Subject, server_names};
use cbsrun_refusal_texts::Page;
use std::alloc::{AllocError, Global};
use toml::Value;

/// Appends which keys a table has.
fn append_keys(page: &mut Page, subject: Subject) {
    let keys = subject.keys();
    page.push(subject.phrase());
    page.push(if keys.len() == 1 {
        " has the key "
    } else {
        " has the keys "
    });
    for (place, key) in keys.iter().enumerate() {
        page.push(if place > 0 { ", `" } else { "`" });
        page.push(key.name);
        page.push("`");
    }
}

/// Returns the names of those keys that may be left out. The only error is out of memory.
fn optional_names(alloc: Global, keys: &[Key]) -> Result<Vec<&'static str>, AllocError> {
    let mut names = Vec::new(alloc);
    for key in keys {
        if !key.required {
            names.push(key.name)?;
        }
    }
    Ok(names)
}

/// Appends which keys may be left out.
fn append_optional(page: &mut Page, keys: &[Key]) {
    let optional = optional_names(page.alloc(), keys);
    let Some(optional) = page.accept(optional) else {
        return;
    };
    if optional.is_empty() {
        return page.push("; all of them have to be there");
    }
    page.push("; ");
    append_list(page, &optional, "`", " and ");
    page.push(" may be left out");
}

/// Appends a note on the keys that a table has. If a key is missing, appends also which keys it must have.
pub(crate) fn append_keys_note(page: &mut Page, margin: usize, subject: Subject, missing: bool)
    requires { margin ≤ 80 }
{
    let mut words = Page::new(page.alloc());
    append_keys(&mut words, subject);
    if missing && subject.keys().len() > 1 {
        append_optional(&mut words, subject.keys());
    }
    page.push_bar(margin);
    page.push_note(margin, "note", words.finish());
}

/// Appends a bar after `margin` columns, and a help with these words.
pub(crate) fn append_help(page: &mut Page, margin: usize, words: &str)
    requires { margin ≤ 80 }
{
    page.push_bar(margin);
    page.push_note(margin, "help", String::from_str(page.alloc(), words));
}

/// Appends how the tables of this array are written, if it is one of a file.
pub(crate) fn append_brackets_help(page: &mut Page, margin: usize, name: &str)
    requires { margin ≤ 80 }
{
    match name {
        "server" => append_help(page, margin, "write [[server]] above each server"),
        "source" => append_help(page, margin, "write [[source]] above each source"),
        "step" => append_help(page, margin, "write [[step]] above each step"),
        _ => {}
    }
}

/// Appends a note on the servers that there are.
pub(crate) fn append_servers_note(page: &mut Page, margin: usize, servers: &[Value])
    requires { margin ≤ 80 }
{
    let mut words = Page::new(page.alloc());
    if let Some(names) = words.accept(server_names(page.alloc(), servers)) {
        words.push(match names.len() {
            0 => "there are no servers",
            1 => "the server is ",
            _ => "the servers are ",
        });
        append_list(&mut words, &names, "\"", ", ");
    }
    page.push_bar(margin);
    page.push_note(margin, "note", words.finish());
}
