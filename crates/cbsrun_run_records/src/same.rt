//! Whether a record is that of a run.

ghost use Rattle.std.specs.Prelude.{◌≡◌, ℕ, ◌<◌, true, get_or, length, map, [], string_bytes};

use cbs_rate::Plan;
use cbs_rules::Modes;
use cbs_tape::Entry;
use cbsrun_records::Record;
use cbsrun_runs::Run;

/// Returns whether the servers of two plans have the same reservations.
fn are_same_rates(own: &Plan, others: &Plan) -> bool
    ensures { result ≡ true → own.now.rates ≡ others.now.rates }
{
    if own.len() != others.len() {
        return false;
    }
    for server in 0..own.len() as u16 {
        if own.get(server) != others.get(server) {
            return false;
        }
    }
    true
}

/// Returns whether two lists of modes are the same.
fn are_same_modes(own: &Modes, others: &Modes) -> bool
    ensures { result ≡ true → own.now ≡ others.now }
{
    if own.len() != others.len() {
        return false;
    }
    for server in 0..own.len() as u16 {
        if own.get(server) != others.get(server) {
            return false;
        }
    }
    true
}

/// Returns whether two names are the same.
fn is_same_name(own: &str, other: &str) -> bool
    ensures { result ≡ true → own.now ≡ other.now }
{
    own == other
}

/// Returns whether two lists of names are the same.
fn are_same_names(own: &[String], others: &[String]) -> bool
    ensures { result ≡ true → map string_bytes own.now ≡ map string_bytes others.now }
{
    if own.len() != others.len() {
        return false;
    }
    for (i, name) in own.iter().enumerate() {
        if !is_same_name(name, &others[i]) {
            return false;
        }
    }
    true
}

/// Returns whether two entries are the same.
fn is_same_entry(one: Entry, other: Entry) -> bool
    ensures { result ≡ true → one ≡ other }
{
    one == other
}

/// Returns whether two lists of entries are the same.
pub(crate) fn are_same_entries(own: &[Entry], others: &[Entry]) -> bool
    ensures { result ≡ true → own.now ≡ others.now }
{
    if own.len() != others.len() {
        return false;
    }
    for (i, entry) in own.iter().enumerate() {
        if !is_same_entry(*entry, others[i]) {
            return false;
        }
    }
    true
}

/// Returns whether a record has the servers of a run, with these names, its backlog and its tick.
pub(crate) fn has_servers_of<R: Run>(record: &Record, run: &R, names: &[String]) -> bool
    ensures names { result ≡ true → record.now.names ≡ map string_bytes names.now }
    ensures modes { result ≡ true → record.now.modes ≡ (R.run run.now).modes }
    ensures bound { result ≡ true → record.now.plan.bound ≡ (R.run run.now).plan.bound }
    ensures rates { result ≡ true → record.now.plan.rates ≡ (R.run run.now).plan.rates }
    ensures backlog { result ≡ true → record.now.backlog ≡ (R.run run.now).backlog }
    ensures tick { result ≡ true → record.now.tick ≡ (R.run run.now).tick }
{
    record.tick() == run.tick()
        && record.backlog() == run.backlog()
        && record.plan().bound() == run.plan().bound()
        && are_same_rates(record.plan(), run.plan())
        && are_same_modes(record.modes(), run.modes())
        && are_same_names(record.names(), names)
}
