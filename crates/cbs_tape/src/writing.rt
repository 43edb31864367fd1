//! Writing entries.

ghost use Rattle.std.specs.Prelude.{◌≡◌, ◌+◌, ◌≤◌, ◌^◌, ◌<◌, ◌++◌, length, vec_len, vec_capacity, IfOk, All};
ghost use Rattle.cbs_tape.specs.Spelling.{number, row, entry, spelling, HasSpelling};

use crate::entry::Entry;
use crate::marks::{
    CHARGE, CLOSE, EIGHT_BYTES, END, FOUR_BYTES, JOB, LONGEST_SHORT_ROW, ROW, SHORT_ROW, TICKS,
    TWO_BYTES,
};
use std::alloc::{AllocError, Allocator};

/// How many bytes the longest entry has.
pub const LONGEST: usize = 10;

/// Returns a whole tape: the entries, in order, and the mark of the end. The server of each is below 64, and a row has a
/// unit or more. The only error is out of memory.
pub fn write<A: Allocator>(alloc: A, entries: &[Entry]) -> Result<Vec<u8, A>, AllocError>
    requires spelled { All HasSpelling entries.now }
    ensures exact { IfOk result (λ v. v.items ≡ spelling entries.now) }
{
    let mut bytes = Vec::new(alloc);
    for entry in entries {
        bytes.reserve(LONGEST)?;
        put_entry(&mut bytes, *entry);
    }
    bytes.push(END)?;
    Ok(bytes)
}

/// Puts an entry at the end. There must be room for the longest.
#[inline(always)]
pub fn put_entry<A: Allocator>(bytes: &mut Vec<u8, A>, e: Entry)
    requires room { vec_len bytes.old + 10 ≤ vec_capacity bytes.old }
    requires spelled { HasSpelling e }
    ensures items { bytes.new.items ≡ bytes.old.items ++ entry e }
    ensures capacity { vec_capacity bytes.old ≤ vec_capacity bytes.new }
    ensures most { vec_len bytes.new ≤ vec_len bytes.old + 10 }
{
    match e {
        Entry::Accepted { server, units } => {
            bytes.push_reserved(JOB + server);
            put_number(bytes, u64::from(units));
        }
        Entry::Units(units) => put_row(bytes, units),
        Entry::Advanced(ticks) => {
            bytes.push_reserved(TICKS);
            put_number(bytes, ticks);
        }
        Entry::Charged { server, ticks } => {
            bytes.push_reserved(CHARGE + server);
            put_number(bytes, ticks);
        }
        Entry::Closed(server) => {
            bytes.push_reserved(CLOSE);
            bytes.push_reserved(server);
        }
    }
}

/// Puts a row of units at the end.
#[inline(always)]
fn put_row<A: Allocator>(bytes: &mut Vec<u8, A>, units: u64)
    requires room { vec_len bytes.old + 10 ≤ vec_capacity bytes.old }
    requires some { 1 ≤ units }
    ensures items { bytes.new.items ≡ bytes.old.items ++ row units }
    ensures capacity { vec_capacity bytes.old ≤ vec_capacity bytes.new }
    ensures most { vec_len bytes.new ≤ vec_len bytes.old + 10 }
{
    if units <= LONGEST_SHORT_ROW {
        bytes.push_reserved(SHORT_ROW + units as u8);
    } else {
        bytes.push_reserved(ROW);
        put_number(bytes, units);
    }
}

/// Puts a number at the end, in as few bytes as it has a spelling of.
#[inline(always)]
fn put_number<A: Allocator>(bytes: &mut Vec<u8, A>, n: u64)
    requires room { vec_len bytes.old + 9 ≤ vec_capacity bytes.old }
    ensures items { bytes.new.items ≡ bytes.old.items ++ number n }
    ensures capacity { vec_capacity bytes.old ≤ vec_capacity bytes.new }
    ensures most { vec_len bytes.new ≤ vec_len bytes.old + 9 }
{
    if n < u64::from(TWO_BYTES) {
        bytes.push_reserved(n as u8);
    } else if n <= u64::from(u16::MAX) {
        bytes.push_reserved(TWO_BYTES);
        put_bytes(bytes, &(n as u16).to_le_bytes());
    } else if n <= u64::from(u32::MAX) {
        bytes.push_reserved(FOUR_BYTES);
        put_bytes(bytes, &(n as u32).to_le_bytes());
    } else {
        bytes.push_reserved(EIGHT_BYTES);
        put_bytes(bytes, &n.to_le_bytes());
    }
}

/// Puts more bytes at the end. There must be room for them.
#[inline(always)]
fn put_bytes<A: Allocator>(bytes: &mut Vec<u8, A>, more: &[u8])
    requires { vec_len bytes.old + length more.now ≤ vec_capacity bytes.old }
    ensures items { bytes.new.items ≡ bytes.old.items ++ more.now }
    ensures len { vec_len bytes.new ≡ vec_len bytes.old + length more.now }
    ensures capacity { vec_capacity bytes.old ≤ vec_capacity bytes.new }
{
    // It succeeds, since there is room.
    bytes.extend_from_slice(more).unwrap();
}
