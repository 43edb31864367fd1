//! The top table of a document, and the places of faults.

ghost use Rattle.std.specs.Prelude.{◌≡◌, IfSome};
ghost use Rattle.toml.specs.View.{table_view};
ghost use Rattle.cbsrun_toml_tables.specs.declared.fault.FileKind.TheVariants.{OutOfMemory};
ghost use Rattle.cbsrun_toml_tables.specs.declared.fault.Place.TheVariants.{Top};
ghost use Rattle.cbsrun_toml_tables.specs.Memory.{IsBounded, result_of};
ghost use Rattle.cbsrun_toml_tables.specs.Documents.{document, faulty, at, no_memory};
ghost use Rattle.cbsrun_toml_tables.specs.Fields.{Gives};

use crate::fault::{FileFault, FileKind, Place};
use crate::memory::{Bounded, wants_within};
use cbsrun_toml::Stop;
use std::alloc::Global;
use toml::Table;

/// Returns the top table of a TOML document. Refuses bytes that are no UTF-8 or no TOML.
pub fn document(alloc: Global, bytes: &[u8]) -> Result<Table, FileKind>
    ensures { Gives OutOfMemory table_view result (document bytes.now) }
{
    match toml::table_from_slice(alloc, bytes) {
        Ok(table) => Ok(table),
        Err(error) if error.is_memory() => Err(FileKind::OutOfMemory),
        Err(_) => Err(FileKind::NotToml),
    }
}

/// Returns the top table of a document with simple keys whose headers are all in double brackets. Returns `None` for
/// another document, and for one that would take more than 64 MiB.
fn simple_document(alloc: Global, bytes: &[u8]) -> Option<Result<Table, FileFault>>
    ensures { IfSome result (λ r. Gives no_memory table_view r (at Top (document bytes.now))) }
{
    let Ok(text) = std::str::from_utf8(bytes) else {
        return None;
    };
    match cbsrun_toml::document(alloc, text) {
        Ok(table) => Some(Ok(table)),
        Err(Stop::NotToml) => Some(Err(faulty(Place::Top, FileKind::NotToml))),
        Err(Stop::OutOfMemory) => Some(Err(faulty(Place::Top, FileKind::OutOfMemory))),
        Err(Stop::Unusual) => None,
    }
}

/// Returns the top table of a TOML document, with a bound on memory. Refuses bytes that are no UTF-8 or no TOML.
///
/// A document with simple keys whose headers are all in double brackets is read in pieces, if it takes at most 64 MiB, and
/// the bound is not asked. If another document needs more than `memory` bytes, returns [`Bounded::TooLarge`], before it
/// is parsed.
pub fn document_within(alloc: Global, memory: u64, bytes: &[u8]) -> Bounded<Table>
    ensures read { Gives no_memory table_view (result_of result) (at Top (document bytes.now)) }
    ensures bounded { IsBounded memory bytes.now result }
{
    if let Some(read) = simple_document(alloc, bytes) {
        return Bounded::InPieces(read);
    }
    if !wants_within(bytes, memory) {
        return Bounded::TooLarge;
    }
    Bounded::Whole(at(Place::Top, document(alloc, bytes)))
}

/// Returns the fault of this kind at this place. The place of out of memory is always the top.
pub fn faulty(place: Place, kind: FileKind) -> FileFault
    ensures { result ≡ faulty place kind }
{
    match kind {
        FileKind::OutOfMemory => FileFault {
            kind: FileKind::OutOfMemory,
            place: Place::Top,
        },
        kind => FileFault { kind, place },
    }
}

/// Returns what was read, with this place for its fault.
pub fn at<T>(place: Place, read: Result<T, FileKind>) -> Result<T, FileFault>
    ensures { result ≡ at place read }
{
    match read {
        Ok(value) => Ok(value),
        Err(kind) => Err(faulty(place, kind)),
    }
}
