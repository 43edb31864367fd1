//! One server of a load file.

ghost use Rattle.std.specs.Prelude.{◌≡◌, bytes_eq, string_bytes};
ghost use Rattle.std.specs.List.{list_any, list_all};
ghost use Rattle.toml.specs.View.{view};
ghost use Rattle.cbsrun_toml_tables.specs.Fields.{seen};
ghost use Rattle.cbsrun_entries.specs.Servers.{is_name_byte, name_of, server_entry, server_view};

use crate::times::ticks_at;
use cbs_rate::Reservation;
use cbs_rules::Mode;
use cbsrun_times::Rounding;
use cbsrun_toml_tables::{FileKind, mode_of, reservation, table_with, text_at};
use toml::Value;

/// The longest name of a server, in bytes.
const MAX_NAME: usize = 32;

/// One server, as its entry gives it.
#[derive(Clone, Copy)]
pub struct ServerEntry<'a> {
    pub name: &'a str,
    pub mode: Mode,
    pub reservation: Reservation,
}

/// Returns whether a byte is a letter, a digit, `-` or `_`.
fn is_name_byte(byte: u8) -> bool
    ensures { result ≡ is_name_byte byte }
{
    byte.is_ascii_alphanumeric() || byte == b'-' || byte == b'_'
}

/// Returns whether all bytes may stand in a name.
fn are_name_bytes(bytes: &[u8]) -> bool
    ensures { result ≡ list_all is_name_byte bytes.now }
{
    bytes.iter().all(|byte| is_name_byte(*byte))
}

/// Returns the name, if it is 1 to [`MAX_NAME`] letters, digits, `-` and `_`. Refuses any other as out of range.
pub fn name_of(name: &str) -> Result<&str, FileKind>
    ensures { seen (λ s. s.now) result ≡ name_of name.now }
{
    let bytes = name.as_bytes();
    if bytes.is_empty() || bytes.len() > MAX_NAME || !are_name_bytes(bytes) {
        return Err(FileKind::OutOfRange);
    }
    Ok(name)
}

/// Returns whether a server already has this name.
pub fn is_taken(names: &[String], name: &str) -> bool
    ensures { result ≡ list_any (λ n. bytes_eq (string_bytes n) name.now) names.now }
{
    names.iter().any(|other| other.as_str() == name)
}

/// Returns the server of one entry, in a file with this tick. This does not test whether another server has its name.
#[tactic(auto, unfolding(crate::specs::Servers::server_entry))]
pub fn server_entry(tick: Option<u64>, entry: &Value) -> Result<ServerEntry<'_>, FileKind>
    ensures { seen server_view result ≡ server_entry tick (view entry.now) }
{
    let table = table_with(entry, &["name", "mode", "budget", "period"], &[])?;
    let name = text_at(table, "name")?;
    let mode = text_at(table, "mode")?;
    let budget = ticks_at(tick, Rounding::Up, table, "budget")?;
    let period = ticks_at(tick, Rounding::Whole, table, "period")?;
    let name = name_of(name)?;
    let mode = mode_of(mode)?;
    let reservation = reservation(budget, period)?;
    Ok(ServerEntry {
        name,
        mode,
        reservation,
    })
}
