//! The servers that a command line names.

ghost use Rattle.std.specs.Prelude.{◌≡◌, ◌++◌, IfOk, List, MatchOption, OnOk, bytes_eq, map, option_map, string_bytes, true, ℕ};
ghost use Rattle.std.specs.List.{list_any};
ghost use Rattle.cbsrun_commands.specs.Drawings.{AnswersNames, BeginsWith, IsMissing, are_among, is_among, no_server_line};

use cbsrun_faults::nearest_word;
use cbsrun_runs::Run;
use std::alloc::{AllocError, Global};
use std::fmt::Write;

/// Returns the names of the servers of a run, by number. The only error is out of memory.
fn names_of<R: Run>(alloc: Global, run: &R) -> Result<Vec<String>, AllocError>
    ensures { IfOk result (λ names. map string_bytes names.items ≡ (R.run run.now).names) }
{
    // Reading the modes gives the proof that each server has a name.
    let _modes = run.modes();
    let mut names = Vec::with_capacity(alloc, run.plan().len())?;
    for server in 0..run.plan().len() as u16 {
        names.push(run.name(alloc, server)?)?;
    }
    Ok(names)
}

/// Returns whether one of some texts is this one.
fn has(texts: &[String], text: &str) -> bool
    ensures { result ≡ list_any (λ one. bytes_eq (string_bytes one) text.now) texts.now }
{
    texts.iter().any(|one| one.as_str() == text)
}

/// Returns whether a name is among these.
fn is_among(names: &[String], name: &str) -> bool
    ensures { result ≡ is_among (map string_bytes names.now) name.now }
{
    has(names, name)
}

/// Returns the first of the names that are wanted that is not among the names, or `None` if each is.
fn missing<'a>(names: &[String], wanted: &'a [String]) -> Option<&'a str>
    ensures { MatchOption result
        (are_among (map string_bytes names.now) (map string_bytes wanted.now) ≡ true)
        (λ name. IsMissing (map string_bytes names.now) (map string_bytes wanted.now) name.now) }
{
    for name in wanted {
        if !is_among(names, name) {
            return Some(name);
        }
    }
    None
}

/// Appends which of the names may be meant by another one, if one is near. The only error is out of memory.
fn append_meant(
    alloc: Global,
    text: &mut String,
    name: &str,
    names: &[String],
) -> Result<(), AllocError>
    ensures { OnOk result (BeginsWith (string_bytes text.old) (string_bytes text.new)) }
{
    let mut among = Vec::with_capacity(alloc, names.len())?;
    for known in names {
        among.push(known.as_str())?;
    }
    match nearest_word(alloc, name, &among)? {
        Some(near) => writeln!(text, "  [did you mean '{near}'?]"),
        None => Ok(()),
    }
}

/// Returns what to tell of a name that no server has. The only error is out of memory.
fn missing_text(alloc: Global, name: &str, names: &[String]) -> Result<String, AllocError>
    ensures { IfOk result (λ text. BeginsWith (no_server_line name.now) (string_bytes text)) }
{
    let mut text = String::new(alloc);
    writeln!(text, "error: no server is called '{name}'")?;
    append_meant(alloc, &mut text, name, names)?;
    Ok(text)
}

/// Returns what to tell of the names that are wanted, if no server of the run has one of them. The only error is out of
/// memory.
pub(crate) fn no_server<R: Run>(
    alloc: Global,
    run: &R,
    wanted: &[String],
) -> Result<Option<String>, AllocError>
    ensures { IfOk result (λ told. AnswersNames (map string_bytes wanted.now) (R.run run.now)
        (option_map string_bytes told)) }
{
    let names = names_of(alloc, run)?;
    match missing(&names, wanted) {
        Some(name) => Ok(Some(missing_text(alloc, name, &names)?)),
        None => Ok(None),
    }
}
