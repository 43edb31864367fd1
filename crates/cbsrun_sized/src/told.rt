//! Why a sketch is not sized, as text. The only error of each call is out of memory.

use crate::not_sized::NotSized;
use cbsrun_check_text::append_why;
use cbsrun_fault_texts::explain;
use cbsrun_loads::Sketch;
use cbsrun_sizing::{is_within, least_within, promised_at_best};
use cbsrun_toml_tables::FileFault;
use std::alloc::{AllocError, Global};
use std::fmt::Write;

/// Returns the name of a server, or nothing if there is no such server.
fn name_of(sketch: &Sketch, server: u16) -> &str {
    match sketch.names().get(usize::from(server)) {
        Some(name) => name.as_str(),
        None => "",
    }
}

/// Returns that no reservation would do for a server, and why. If each tick of the time would do, none is enough of those
/// that were looked at.
fn nothing_proposed(alloc: Global, sketch: &Sketch, server: u16) -> Result<String, AllocError> {
    let mut text = String::new(alloc);
    write!(
        text,
        "error: no reservation would do for {}",
        name_of(sketch, server)
    )?;
    let promised = promised_at_best(alloc, sketch, server)?;
    let within = least_within(sketch.sources(), server);
    if promised.is_ok_and(|time| is_within(time, within)) {
        text.push_str(", of those that are looked at\n")?;
        return Ok(text);
    }
    text.push_str(": ")?;
    append_why(&mut text, sketch.tick(), sketch.backlog(), within, promised)?;
    text.push_str(",\n  even with each tick of the time\n")?;
    Ok(text)
}

/// Returns that a server has a reservation that does not do, and what can be done.
fn not_promised(alloc: Global, sketch: &Sketch, server: u16) -> Result<String, AllocError> {
    let name = name_of(sketch, server);
    format!(in alloc;
        "error: the reservation of {name} does not promise its jobs in time\n  \
leave out its `budget` and `period`, or have all proposed by --all\n"
    )
}

/// Returns that the servers do not fit together, and what `check` says of the load file with them.
fn not_admitted(
    alloc: Global,
    name: &str,
    text: &str,
    fault: FileFault,
) -> Result<String, AllocError> {
    let name = format!(in alloc; "{name}, sized")?;
    let explained = explain(alloc, &name, text.as_bytes(), fault)?;
    format!(in alloc; "error: with what is proposed the servers do not fit together\n\n{explained}")
}

/// Returns why a sketch in the file `name` is not sized, for a person.
pub fn not_sized_text(
    alloc: Global,
    name: &str,
    sketch: &Sketch,
    why: NotSized,
) -> Result<String, AllocError> {
    match why {
        NotSized::OutOfMemory => Err(AllocError),
        NotSized::NothingProposed { server } => nothing_proposed(alloc, sketch, server),
        NotSized::NotAdmitted { text, fault } => not_admitted(alloc, name, &text, fault),
        NotSized::NotPromised { server } => not_promised(alloc, sketch, server),
        NotSized::SpellsAnother => String::from_str(
            alloc,
            "error: the load with what is proposed cannot be spelled\n",
        ),
    }
}
