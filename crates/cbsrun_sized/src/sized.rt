//! A sketch with a reservation for each server, as a load file.

ghost use Rattle.std.specs.Prelude.{◌≡◌, ◌≢◌, ◌<◌, ℕ, Bool, get_or, length, string_bytes, Ok, None, IfOk, IfErr, MatchOption};
ghost use Rattle.cbsrun_loads.specs.Sketches.{SketchFile};
ghost use Rattle.cbsrun_loads.specs.Spelling.{load};
ghost use Rattle.cbsrun_sizing.specs.ServerLoads.{no_load};
ghost use Rattle.cbsrun_sized.specs.Sized.{IsSized, IsTooMuch, IsWhyNot};

use crate::admitted::are_admitted;
use crate::given::reservations_of;
use crate::not_sized::NotSized;
use crate::same::is_completed;
use crate::text::load_text;
use cbsrun_loads::{Load, Sketch, read_load};
use cbsrun_sizing::{ServerLoad, server_loads};
use cbsrun_toml_tables::FileKind;
use std::alloc::Global;

/// Returns why a sketch is not sized of whose reservations, in the load file `text`, one executor does not take all.
fn not_admitted(alloc: Global, text: String) -> NotSized
    ensures { (k : SketchFile) (all : Bool) → IsTooMuch k all → IsWhyNot k all result }
{
    match read_load(alloc, text.as_bytes()) {
        Err(fault) if fault.kind == FileKind::OutOfMemory => NotSized::OutOfMemory,
        Err(fault) => NotSized::NotAdmitted { text, fault },
        Ok(_) => NotSized::SpellsAnother,
    }
}

/// Returns the load that a text spells.
fn spelled(alloc: Global, text: String) -> Result<(Load, String), NotSized>
    ensures ok { IfOk result (λ r. (load (string_bytes text) ≡ Ok r.0) × (r.1 ≡ text)) }
    ensures err { IfErr result (λ e. (k : SketchFile) (all : Bool) → IsWhyNot k all e) }
{
    match read_load(alloc, text.as_bytes()) {
        Ok(load) => Ok((load, text)),
        Err(fault) if fault.kind == FileKind::OutOfMemory => Err(NotSized::OutOfMemory),
        Err(_) => Err(NotSized::SpellsAnother),
    }
}

/// Returns the first server whose jobs are not promised in time, or `None` if there is none.
fn first_late(loads: &[ServerLoad]) -> Option<u16>
    requires { length loads.now < 65536 }
    ensures { MatchOption result
        ((s : ℕ) → s < length loads.now → (get_or loads.now s no_load).remedy ≡ None)
        (λ s. (s < length loads.now) × ((get_or loads.now s no_load).remedy ≢ None)) }
{
    for (server, load) in loads.iter().enumerate() {
        if load.remedy.is_some() {
            return Some(server as u16);
        }
    }
    None
}

/// Returns the load file of a sketch with a reservation for each server. A server that has none gets the one of least
/// share, among those that are looked at, with which its jobs are promised in time: see
/// [`propose`](cbsrun_proposals::propose). If `all` is true, each server gets one so.
///
/// What is returned is a load file, in which each job of each source is promised in time. It was read back: it spells
/// the servers, the sources and the rest of the sketch. The errors are those of [`NotSized`].
pub fn sized_load(alloc: Global, sketch: &Sketch, all: bool) -> Result<String, NotSized>
    ensures ok { IfOk result (λ text. IsSized sketch.now all (string_bytes text)) }
    ensures err { IfErr result (IsWhyNot sketch.now all) }
{
    let reservations = reservations_of(alloc, sketch, all)?;
    let text = load_text(alloc, sketch, all, &reservations)?;
    if !are_admitted(sketch.bound(), &reservations) {
        return Err(not_admitted(alloc, text));
    }
    let (load, text) = spelled(alloc, text)?;
    if !is_completed(&load, sketch, &reservations) {
        return Err(NotSized::SpellsAnother);
    }
    match first_late(&server_loads(alloc, &load)?) {
        Some(server) => Err(NotSized::NotPromised { server }),
        None => Ok(text),
    }
}
