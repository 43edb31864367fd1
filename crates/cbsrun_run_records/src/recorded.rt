//! The record of a run.

ghost use Rattle.std.specs.Prelude.{◌≡◌, Ok, IfOk, OnOk, map, string_bytes};
ghost use Rattle.cbsrun_records.specs.Spelling.{record_of};
ghost use Rattle.cbsrun_run_records.specs.Recorded.{IsRecorded};

use crate::not_recorded::NotRecorded;
use crate::same::{are_same_entries, has_servers_of};
use crate::text::{append_steps, head_text};
use crate::told::tape_of;
use cbs_sums::{MOST, Sum, TEXT_END, push_block};
use cbs_tape::{Entry, read};
use cbsrun_records::{Record, read_record};
use cbsrun_runs::Run;
use cbsrun_toml_tables::FileKind;
use std::alloc::Global;

/// The form in which a record is written.
#[derive(Clone, Copy, PartialEq, Eq)]
pub enum RecordForm {
    /// As a text, each step in a line of its own.
    Text,
    /// With its steps as a tape, after the text of the other keys.
    Tape,
}

impl RecordForm {
    /// Returns the most bytes that the steps may take as a tape: the program reads each record with so many.
    fn most_steps(self) -> u32 {
        match self {
            RecordForm::Text => 512 * 1024,
            RecordForm::Tape => 15 * 1024 * 1024,
        }
    }

    /// Returns the most bytes of a record.
    fn most_bytes(self) -> usize {
        match self {
            RecordForm::Text => 10 * 1024 * 1024,
            RecordForm::Tape => 16 * 1024 * 1024,
        }
    }

    /// Returns the bytes of a record with this head and these steps, which a tape has.
    fn spelled(self, head: String, entries: &[Entry], tape: &[u8]) -> Result<Vec<u8>, NotRecorded> {
        let mut text = head;
        match self {
            RecordForm::Text => {
                append_steps(&mut text, entries)?;
                Ok(text.into_bytes())
            }
            RecordForm::Tape => with_blocks(text.into_bytes(), tape),
        }
    }
}

/// Returns a text with a tape after it: an empty block, so that the text has a sum of its own, and one with the tape.
fn with_blocks(text: Vec<u8>, tape: &[u8]) -> Result<Vec<u8>, NotRecorded> {
    if tape.len() > MOST {
        return Err(NotRecorded::TooLong);
    }
    let mut bytes = text;
    bytes.extend_from_slice(&[TEXT_END])?;
    let mut sum = Sum::new();
    sum.add(&bytes);
    push_block(&mut bytes, &mut sum, &[])?;
    push_block(&mut bytes, &mut sum, tape)?;
    Ok(bytes)
}

/// Returns the record that bytes spell.
fn read_back(alloc: Global, bytes: &[u8]) -> Result<Record, NotRecorded>
    ensures { IfOk result (λ r. record_of bytes.now ≡ Ok r) }
{
    match read_record(alloc, bytes) {
        Ok(record) => Ok(record),
        Err(fault) if fault.kind == FileKind::OutOfMemory => Err(NotRecorded::OutOfMemory),
        Err(_) => Err(NotRecorded::SpellsAnother),
    }
}

/// Returns the record of a run, whose steps it makes: its servers, called by these names, and each step, with the units of
/// its job.
///
/// The record was read back: it spells the servers and the steps. So a name has to be one that a record may have, and
/// each server of the run has to have one.
///
/// Refuses with [`NotRecorded::TooLong`] if a text would take more than 10 MiB, or its steps more than half a MiB as
/// those of a tape; and if the steps of a tape take more than 15 MiB. The other errors are those of [`NotRecorded`].
pub fn recorded_run<R: Run>(
    alloc: Global,
    form: RecordForm,
    names: &[String],
    run: &mut R,
) -> Result<Vec<u8>, NotRecorded>
    ensures recorded { IfOk result (λ bytes. IsRecorded (map string_bytes names.now) (R.run run.old)
        bytes.items) }
    ensures lawful { OnOk result (R.lawful run.old) }
{
    let tape = tape_of(alloc, form.most_steps(), run)?;
    let steps = read(alloc, &tape)?;
    let bytes = form.spelled(head_text(alloc, run, names)?, &steps.entries, &tape)?;
    if bytes.len() > form.most_bytes() {
        return Err(NotRecorded::TooLong);
    }
    let record = read_back(alloc, &bytes)?;
    if has_servers_of(&record, run, names) && are_same_entries(record.entries(), &steps.entries) {
        Ok(bytes)
    } else {
        Err(NotRecorded::SpellsAnother)
    }
}
