//! A tape that is told each step.

ghost use Rattle.std.specs.Prelude.{◌≡◌, ◌+◌, ◌-◌, ◌++◌, drop, ◌<◌, ◌≤◌, ◌^◌, ltb, [], true, false, length, vec_len, vec_capacity, ◌↔◌, IfOk, IfSome, IfNone, IsNone, MatchOption};
ghost use Rattle.std.proofs.Math.ListN.{replicate};
ghost use Rattle.cbs_steps.specs.declared.step.Step.TheVariants as step;
ghost use Rattle.cbs_tape.specs.Spelling.{HasSpelling};
ghost use Rattle.cbs_tape.specs.Reading.{told};
ghost use Rattle.cbs_tape.specs.Tapes.{steps_of, steps_in, ending_of, AreEntries, Tells, HearsAll, Hears, Keeps, HandsOut, EndsPieces};

use crate::entry::Entry;
use crate::marks::{END, SERVERS};
use crate::writing::{LONGEST, put_entry};
use std::alloc::{AllocError, Allocator, Global};
use std::marker::Model;
use std::mem;

/// How many bytes a step may need: a row of units before it, its entry, a row after it, and the mark of the end.
const RESERVE: usize = 3 * LONGEST + 1;

/// A tape in memory, which has the steps that it was told, in order. Its size is fixed when it is made, so no step takes
/// memory. Units in a row are counted, and are one entry.
///
/// A step that finds no room is lost. From then on the tape is not whole, and has no step that it is told later.
#[derive(Drop)]
pub struct Tape<A: Allocator = Global> {
    bytes: Vec<u8, A>,
    // The units in a row that are no entry yet. Only a whole tape has them.
    units: u64,
    // Whether no step was lost.
    whole: bool,
}

impl<A: Allocator> Model for Tape<A> {
    ghost use Rattle.std.specs.Prelude.{◌≡◌, ◌+◌, ◌-◌, ◌≤◌, ◌++◌, [], true, if◌then◌else◌, vec_len, vec_capacity};
    ghost use Rattle.std.proofs.Math.ListN.{replicate};
    ghost use Rattle.cbs_steps.specs.declared.step.Step.TheVariants as step;
    ghost use Rattle.cbs_tape.specs.Tapes.{Taped, steps_in, AreEntries};

    ghost Value = { Taped };

    ghost view = { λ t. record {
      steps = steps_in t.bytes.items ++ (if t.whole then replicate t.units step.Run else []);
      whole = t.whole;
      room = vec_capacity t.bytes - vec_len t.bytes;
      size = vec_capacity t.bytes;
    } };

    ghost invariant = { λ t. AreEntries t.bytes.items × (t.whole ≡ true → vec_len t.bytes + 11 ≤ vec_capacity t.bytes) };
}

impl<A: Allocator> Tape<A> {
    /// Returns a whole tape with no step, in a memory of this many bytes and 31 more. The only error is out of memory.
    #[tactic(auto, using(crate::proofs::Written::none_are, crate::proofs::Written::no_steps))]
    pub fn new(alloc: A, bytes: u32) -> Result<Self, AllocError>
        ensures { IfOk result (λ t. t ≡ record {
          steps = [];
          whole = true;
          room = bytes + 31;
          size = bytes + 31;
        }) }
    {
        Ok(Tape {
            bytes: Vec::with_capacity(alloc, bytes as usize + RESERVE)?,
            units: 0,
            whole: true,
        })
    }

    /// Returns whether the tape has each step that it was told.
    pub fn is_whole(&self) -> bool
        ensures { result ≡ self.now.whole }
    {
        self.whole
    }

    /// Adds a unit that ran. Units in a row take a byte if they are up to 64, and 10 bytes at most if they are more.
    ///
    /// The step is lost if the tape is not whole, or has 2^64 - 1 units in a row.
    #[tactic(auto, using(crate::proofs::Written::row_length))]
    #[inline(always)]
    pub fn ran(&mut self)
        ensures heard { Hears step.Run self.old self.new }
        ensures kept { self.old.whole ≡ true → length self.old.steps < 2 ^ 64 - 1
            → self.new.whole ≡ true }
        ensures room { self.old.room ≤ self.new.room + 10 }
    {
        match self.units.checked_add(1) {
            Some(units) => self.units = units,
            None => self.lose(),
        }
    }

    /// Adds a job of so many units that a server accepted.
    ///
    /// The step is lost if the tape is not whole, has less than 31 bytes of room, or the server is not below 64.
    pub fn accepted(&mut self, server: u16, units: u32)
        ensures heard { Hears (step.Submit server (record { units = units })) self.old self.new }
        ensures kept { Keeps (ltb server 64) self.old self.new }
    {
        match server_of(server) {
            Some(server) => self.put(Entry::Accepted { server, units }),
            None => self.lose(),
        }
    }

    /// Adds so many ticks that passed.
    ///
    /// The step is lost if the tape is not whole, or has less than 31 bytes of room.
    pub fn advanced(&mut self, ticks: u64)
        ensures heard { Hears (step.Advance ticks) self.old self.new }
        ensures kept { Keeps true self.old self.new }
    {
        self.put(Entry::Advanced(ticks));
    }

    /// Adds so many ticks that a server was charged.
    ///
    /// The step is lost if the tape is not whole, has less than 31 bytes of room, or the server is not below 64.
    pub fn charged(&mut self, server: u16, ticks: u64)
        ensures heard { Hears (step.Charge server ticks) self.old self.new }
        ensures kept { Keeps (ltb server 64) self.old self.new }
    {
        match server_of(server) {
            Some(server) => self.put(Entry::Charged { server, ticks }),
            None => self.lose(),
        }
    }

    /// Adds the close of a server.
    ///
    /// The step is lost if the tape is not whole, has less than 31 bytes of room, or the server is not below 64.
    pub fn closed(&mut self, server: u16)
        ensures heard { Hears (step.Close server) self.old self.new }
        ensures kept { Keeps (ltb server 64) self.old self.new }
    {
        match server_of(server) {
            Some(server) => self.put(Entry::Closed(server)),
            None => self.lose(),
        }
    }

    /// Returns how many bytes the memory of the tape has.
    pub fn size(&self) -> usize
        ensures { result ≡ self.now.size }
    {
        self.bytes.capacity()
    }

    /// Hands out what the tape has: puts its bytes at the start of `out`, and returns how many they are. The tape then
    /// has no step, is whole if it was, and goes on with all its memory. So it can be told steps for ever.
    ///
    /// Returns `None`, and changes nothing, exactly if `out` is shorter than the memory of the tape
    /// ([`size`](Tape::size)).
    ///
    /// The bytes have no mark of the end. What the calls hand out, one after another, tells the steps in order, and
    /// [`end`](Tape::end) returns what comes after it.
    #[tactic(auto, using(crate::proofs::Written::none_are, crate::proofs::Written::no_steps))]
    pub fn take(&mut self, out: &mut [u8]) -> Option<usize>
        ensures taken { IfSome result (λ n. HandsOut n self.old self.new out.old out.new) }
        ensures none { IsNone result ↔ (length out.old < self.old.size) }
        ensures same { IfNone result ((self.new ≡ self.old) × (out.new ≡ out.old)) }
    {
        if out.len() < self.bytes.capacity() {
            return None;
        }
        if !self.whole {
            return Some(hand_out(&mut self.bytes, out));
        }
        put_units(&mut self.bytes, mem::replace(&mut self.units, 0));
        Some(hand_out(&mut self.bytes, out))
    }

    /// Ends the tape, and returns its bytes. Its steps are what is read of them. A whole tape is ended by the mark of the
    /// end. One that lost a step is not, so it reads as a tape that is cut.
    #[tactic(auto, using(crate::proofs::Written::ends_marked, crate::proofs::Written::marked_steps, crate::proofs::Written::ends_cut))]
    pub fn end(self) -> Vec<u8, A>
        ensures steps { steps_in result.items ≡ self.steps }
        ensures ending { (told result.items).ending ≡ ending_of self.whole }
        ensures pieces { EndsPieces result.items self }
    {
        let Tape {
            mut bytes,
            units,
            whole,
        } = self;
        if whole {
            put_units(&mut bytes, units);
            bytes.push_reserved(END);
        }
        bytes
    }

    /// Puts an entry after the units in a row. If there is no room for it, the tape is whole no more.
    #[tactic(auto, using(crate::proofs::Written::tells_two))]
    #[inline(always)]
    fn put(&mut self, e: Entry)
        requires { HasSpelling e }
        ensures heard { HearsAll (steps_of e) self.old self.new }
        ensures kept { Keeps true self.old self.new }
    {
        if !self.whole || self.bytes.capacity() - self.bytes.len() < RESERVE {
            self.lose();
            return;
        }
        put_units(&mut self.bytes, self.units);
        self.units = 0;
        put_after(&mut self.bytes, e);
    }

    /// Loses a step that a tape cannot tell. The tape has the same steps, is not whole, and has no step that it is told
    /// later.
    ///
    /// So a tape never claims to have all of a run in which something else than its steps happened.
    #[inline(never)]
    pub fn lose(&mut self)
        ensures steps { self.new.steps ≡ self.old.steps }
        ensures whole { self.new.whole ≡ false }
        ensures room { self.old.room ≤ self.new.room + 10 }
        ensures size { self.old.size ≤ self.new.size }
    {
        if self.whole {
            put_units(&mut self.bytes, self.units);
            self.whole = false;
        }
    }
}

/// Returns the server, if it is below 64.
#[inline(always)]
fn server_of(server: u16) -> Option<u8>
    ensures { MatchOption result (64 ≤ server) (λ s. (s ≡ server) × (server < 64)) }
{
    if server < u16::from(SERVERS) {
        Some(server as u8)
    } else {
        None
    }
}

/// Moves all bytes to the start of `out`, which has places for them, and returns how many they are.
fn hand_out<A: Allocator>(bytes: &mut Vec<u8, A>, out: &mut [u8]) -> usize
    requires { vec_len bytes.old ≤ length out.old }
    ensures count { result ≡ length bytes.old.items }
    ensures out { out.new ≡ bytes.old.items ++ drop result out.old }
    ensures within { result ≤ length out.old }
    ensures none { bytes.new.items ≡ [] }
    ensures len { vec_len bytes.new ≡ 0 }
    ensures capacity { vec_capacity bytes.new ≡ vec_capacity bytes.old }
{
    let count = bytes.len();
    let (front, _others) = out.split_at_mut(count);
    front.copy_from_slice(bytes);
    bytes.clear();
    count
}

/// Puts so many units in a row after other entries.
#[tactic(auto, using(crate::proofs::Written::tells_none))]
#[inline(always)]
fn put_units<A: Allocator>(bytes: &mut Vec<u8, A>, units: u64)
    requires room { vec_len bytes.old + 10 ≤ vec_capacity bytes.old }
    requires entries { AreEntries bytes.old.items }
    ensures tells { Tells (replicate units step.Run) bytes.old.items bytes.new.items }
    ensures capacity { vec_capacity bytes.old ≤ vec_capacity bytes.new }
    ensures most { vec_len bytes.new ≤ vec_len bytes.old + 10 }
{
    if units > 0 {
        put_after(bytes, Entry::Units(units));
    }
}

/// Puts an entry after other entries.
#[inline(always)]
fn put_after<A: Allocator>(bytes: &mut Vec<u8, A>, e: Entry)
    requires room { vec_len bytes.old + 10 ≤ vec_capacity bytes.old }
    requires spelled { HasSpelling e }
    requires entries { AreEntries bytes.old.items }
    ensures tells { Tells (steps_of e) bytes.old.items bytes.new.items }
    ensures capacity { vec_capacity bytes.old ≤ vec_capacity bytes.new }
    ensures most { vec_len bytes.new ≤ vec_len bytes.old + 10 }
{
    put_entry(bytes, e);
}
