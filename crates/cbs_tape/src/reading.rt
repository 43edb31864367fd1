//! Reading a tape.

ghost use Rattle.std.specs.Prelude.{◌≡◌, ℕ, List, take, IfOk, All};
ghost use Rattle.std.specs.Int.{w16, w32, w64};
ghost use Rattle.cbs_tape.specs.declared.entry.Ending.TheVariants as ending;
ghost use Rattle.cbs_tape.specs.Spelling.{spelling, HasSpelling};
ghost use Rattle.cbs_tape.specs.Reading.{seen, le_at, number_at, server_at, job_at, entry_at, told, kept, ending_at};

use crate::entry::{Ending, Entry};
use crate::marks::{
    CHARGE, CLOSE, END, FOUR_BYTES, JOB, ROW, SERVERS, SHORT_ROW, TICKS, TWO_BYTES, UNWRITTEN,
};
use std::alloc::{AllocError, Allocator, Global};

/// What was read of a tape.
#[derive(Drop)]
pub struct TapeRead<A: Allocator = Global> {
    /// The entries, in order.
    pub entries: Vec<Entry, A>,
    /// How the tape ends after them.
    pub ending: Ending,
}

/// Reads a tape, whole or cut at any byte: the entries whose bytes are all there, and how the tape ends after them. The
/// only error is out of memory.
pub fn read<A: Allocator>(alloc: A, bytes: &[u8]) -> Result<TapeRead<A>, AllocError>
    ensures exact { IfOk result (λ t.
        told bytes.now ≡ record { entries = t.entries.items; ending = t.ending }) }
    ensures again { IfOk result (λ t. (es : List Entry) → All HasSpelling es
        → bytes.now ≡ spelling es → (t.entries.items ≡ es) × (t.ending ≡ ending.Marked)) }
    ensures cut { IfOk result (λ t. (es : List Entry) (k : ℕ) → All HasSpelling es
        → bytes.now ≡ take k (spelling es)
        → (t.entries.items ≡ kept k es) × (t.ending ≡ ending_at k es)) }
{
    read_all(alloc, bytes)
}

/// Reads entry by entry. Each takes a byte or more, so there are no more of them than bytes.
fn read_all<A: Allocator>(alloc: A, bytes: &[u8]) -> Result<TapeRead<A>, AllocError>
    ensures { IfOk result (λ t. told bytes.now ≡ record { entries = t.entries.items; ending = t.ending }) }
{
    let mut entries = Vec::new(alloc);
    let mut rest = bytes;
    for _ in 0..bytes.len() {
        match entry_at(rest) {
            Ok((entry, after)) => {
                entries.push(entry)?;
                rest = after;
            }
            Err(ending) => return Ok(TapeRead { entries, ending }),
        }
    }
    Ok(TapeRead {
        entries,
        ending: Ending::Cut,
    })
}

/// Returns the entry at the start of the bytes, and the bytes after it; or how the tape ends there.
#[tactic(auto, unfolding(crate::specs::Reading::entry_at, crate::specs::Reading::plain_at))]
fn entry_at(bytes: &[u8]) -> Result<(Entry, &[u8]), Ending>
    ensures { seen (λ x. (x.0, x.1.now)) result ≡ entry_at bytes.now }
{
    let Some((&first, rest)) = bytes.split_first() else {
        return Err(Ending::Cut);
    };
    match first {
        UNWRITTEN => Err(Ending::Cut),
        ROW => match number_at(rest)? {
            (0, _) => Err(Ending::Unknown),
            (units, rest) => Ok((Entry::Units(units), rest)),
        },
        TICKS => {
            let (ticks, rest) = number_at(rest)?;
            Ok((Entry::Advanced(ticks), rest))
        }
        CLOSE => {
            let (server, rest) = server_at(rest)?;
            Ok((Entry::Closed(server), rest))
        }
        END => Err(Ending::Marked),
        ..JOB => Err(Ending::Unknown),
        ..CHARGE => job_of(first - JOB, rest),
        ..=SHORT_ROW => {
            let server = first - CHARGE;
            let (ticks, rest) = number_at(rest)?;
            Ok((Entry::Charged { server, ticks }, rest))
        }
        _ => Ok((Entry::Units(u64::from(first - SHORT_ROW)), rest)),
    }
}

/// Returns the job of a server that accepted it, with its units at the start of the bytes, and the bytes after them.
fn job_of(server: u8, bytes: &[u8]) -> Result<(Entry, &[u8]), Ending>
    ensures { seen (λ x. (x.0, x.1.now)) result ≡ job_at server bytes.now }
{
    let (units, rest) = number_at(bytes)?;
    match u32::try_from(units) {
        Ok(units) => Ok((Entry::Accepted { server, units }, rest)),
        Err(_) => Err(Ending::Unknown),
    }
}

/// Returns the server at the start of the bytes, and the bytes after it.
fn server_at(bytes: &[u8]) -> Result<(u8, &[u8]), Ending>
    ensures { seen (λ x. (x.0, x.1.now)) result ≡ server_at bytes.now }
{
    match bytes.split_first() {
        Some((&server, rest)) if server < SERVERS => Ok((server, rest)),
        Some(_) => Err(Ending::Unknown),
        None => Err(Ending::Cut),
    }
}

/// Returns the number at the start of the bytes, and the bytes after it.
fn number_at(bytes: &[u8]) -> Result<(u64, &[u8]), Ending>
    ensures { seen (λ x. (x.0, x.1.now)) result ≡ number_at bytes.now }
{
    let Some((&first, rest)) = bytes.split_first() else {
        return Err(Ending::Cut);
    };
    match first {
        byte if byte < TWO_BYTES => Ok((u64::from(byte), rest)),
        TWO_BYTES => u16_at(rest),
        FOUR_BYTES => u32_at(rest),
        _ => u64_at(rest),
    }
}

/// Returns the number in the first 2 bytes, the lowest first, and the bytes after them.
fn u16_at(bytes: &[u8]) -> Result<(u64, &[u8]), Ending>
    ensures { seen (λ x. (x.0, x.1.now)) result ≡ le_at w16 bytes.now }
{
    match bytes.split_first_chunk::<2>() {
        Some((number, rest)) => Ok((u64::from(u16::from_le_bytes(*number)), rest)),
        None => Err(Ending::Cut),
    }
}

/// Returns the number in the first 4 bytes, the lowest first, and the bytes after them.
fn u32_at(bytes: &[u8]) -> Result<(u64, &[u8]), Ending>
    ensures { seen (λ x. (x.0, x.1.now)) result ≡ le_at w32 bytes.now }
{
    match bytes.split_first_chunk::<4>() {
        Some((number, rest)) => Ok((u64::from(u32::from_le_bytes(*number)), rest)),
        None => Err(Ending::Cut),
    }
}

/// Returns the number in the first 8 bytes, the lowest first, and the bytes after them.
fn u64_at(bytes: &[u8]) -> Result<(u64, &[u8]), Ending>
    ensures { seen (λ x. (x.0, x.1.now)) result ≡ le_at w64 bytes.now }
{
    match bytes.split_first_chunk::<8>() {
        Some((number, rest)) => Ok((u64::from_le_bytes(*number), rest)),
        None => Err(Ending::Cut),
    }
}
