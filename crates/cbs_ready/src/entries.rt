//! A list of ready servers whose first entry can leave without moving the others.

ghost use Rattle.std.specs.Prelude.{ℕ, ◌≡◌, ◌-◌, ◌<◌, ◌≤◌, [], ◌∷◌, length, drop, take, vec_len, vec_capacity, IfOk, Some};
ghost use Rattle.cbs_ready.specs.ReadyList.{is_ahead, first_of, entered, without, IsMoved, IsOrdered, IsPlaceOf};
ghost use Rattle.cbs_rate.specs.Limits.{most_servers};

use std::alloc::{AllocError, Allocator, Global};
use std::marker::Model;

/// The number of slots.
const SLOTS: usize = 128;

/// A ready server, with its deadline.
#[derive(Clone, Copy, Default)]
pub struct Entry {
    pub deadline: u128,
    pub server: u16,
}

impl Entry {
    /// Returns whether this entry comes before another: by deadline, and of equal deadlines by number.
    fn is_ahead(&self, other: Entry) -> bool
        ensures { result ≡ is_ahead self.now other }
    {
        self.deadline < other.deadline
            || (self.deadline == other.deadline && self.server < other.server)
    }
}

/// A list of at most 64 entries.
///
/// It has twice as many slots, so that the first entry can leave without moving the others. The slot of a first entry
/// that left stays unused until the last slot is taken. Then all entries move to the start.
#[derive(Drop)]
pub struct Entries<A: Allocator = Global> {
    // All memory is there from the start, since no entry may be refused.
    slots: Vec<Entry, A>,
    // The entries before this slot have left.
    first: usize,
}

impl<A: Allocator> Model for Entries<A> {
    ghost use Rattle.std.specs.Prelude.{List, ◌≤◌, drop, vec_len, vec_capacity};
    ghost use Rattle.cbs_ready.specs.declared.entries.Entry.{Entry};

    ghost Value = { List Entry };

    ghost view = { λ e. drop e.first e.slots.items };

    ghost invariant = { λ e. (e.first ≤ vec_len e.slots) × (vec_len e.slots ≤ 128) × (128 ≤ vec_capacity e.slots) };
}

impl<A: Allocator> Entries<A> {
    /// Returns a list with no entry, and memory for all entries to come, or the error if an allocation is refused.
    pub fn new(alloc: A) -> Result<Self, AllocError>
        ensures { IfOk result (λ entries. entries ≡ []) }
    {
        Ok(Entries {
            slots: Vec::with_capacity(alloc, SLOTS)?,
            first: 0,
        })
    }

    /// Returns all entries, in order.
    pub fn as_slice(&self) -> &[Entry]
        ensures { result.now ≡ self.now }
    {
        &self.slots[self.first..]
    }

    /// Returns how many entries there are.
    pub fn len(&self) -> usize
        ensures { result ≡ length self.now }
    {
        self.slots.len() - self.first
    }

    /// Writes another entry over the first one.
    pub fn set_first(&mut self, entry: Entry)
        requires { 0 < length self.old }
        ensures { self.new ≡ entry ∷ drop 1 self.old }
    {
        write(&mut self.slots[self.first], entry);
    }

    /// Gives the first entry another deadline.
    pub fn postpone_first(&mut self, deadline: u128)
        requires { 0 < length self.old }
        ensures { (s : ℕ) → first_of self.old ≡ Some s
            → self.new ≡ (record { deadline = deadline; server = s }) ∷ drop 1 self.old }
    {
        self.slots[self.first].deadline = deadline;
    }

    /// Takes out the first entry.
    pub fn remove_first(&mut self)
        requires { 0 < length self.old }
        ensures { self.new ≡ drop 1 self.old }
    {
        self.first += 1;
    }

    /// Takes out the entry of a server, if there is one.
    pub fn remove(&mut self, server: u16)
        ensures { self.new ≡ without server self.old }
    {
        let place = place_of(self.as_slice(), server);
        if place < self.len() {
            self.slots.remove(self.first + place);
        }
    }

    /// Puts an entry at its place among the others.
    pub fn insert(&mut self, entry: Entry)
        requires order { IsOrdered self.old }
        requires room { length self.old < most_servers }
        ensures { self.new ≡ entered entry self.old }
    {
        if self.first > 0 && self.first == self.slots.len() {
            // The slot of the entry that left last is free.
            self.first -= 1;
            self.set_first(entry);
            return;
        }
        if self.slots.len() == SLOTS {
            move_to_the_front(&mut self.slots, self.first);
            self.first = 0;
        }
        self.slots.push_reserved(Entry::default());
        put(&mut self.slots[self.first..], entry);
    }
}

/// Returns the place of a server's entry, or the number of entries if the server has none.
fn place_of(entries: &[Entry], server: u16) -> usize
    ensures { IsPlaceOf server entries.now result }
{
    let mut place = 0;
    while place < entries.len() && entries[place].server != server {
        place += 1;
    }
    place
}

/// Moves the entries from slot `first` on to the start.
#[inline(never)]
fn move_to_the_front<A: Allocator>(slots: &mut Vec<Entry, A>, first: usize)
    requires { first ≤ vec_len slots.old }
    ensures items { slots.new.items ≡ drop first slots.old.items }
    ensures capacity { vec_capacity slots.new ≡ vec_capacity slots.old }
{
    let len = slots.len() - first;
    slots.copy_within(first.., 0);
    slots.truncate(len);
}

/// Takes out the last entry, and puts `entry` at its place among the rest.
///
/// The place is sought from the back, since most new deadlines are late ones.
fn put(entries: &mut [Entry], entry: Entry)
    requires some { 0 < length entries.old }
    requires order { IsOrdered (take (length entries.old - 1) entries.old) }
    ensures { entries.new ≡ entered entry (take (length entries.old - 1) entries.old) }
{
    let mut place = pass_fours(entries, entry);
    while place > 0 && entry.is_ahead(entries[place - 1]) {
        entries[place] = entries[place - 1];
        place -= 1;
    }
    write(&mut entries[place], entry);
}

/// Takes out the last entry, and moves `entry` from the back towards the front, past four of the rest at a time. It
/// moves as long as it comes before all four. Returns the place that it reached.
fn pass_fours(entries: &mut [Entry], entry: Entry) -> usize
    requires some { 0 < length entries.old }
    requires order { IsOrdered (take (length entries.old - 1) entries.old) }
    ensures { IsMoved entry (take (length entries.old - 1) entries.old) entries.new result }
{
    let mut place = entries.len() - 1;
    while place >= 4 && entry.is_ahead(entries[place - 4]) {
        entries.copy_within(place - 4..place, place - 3);
        place -= 4;
    }
    place
}

/// Writes an entry field by field. A copy of the whole would copy its padding too, over the stack.
#[inline(always)]
fn write(slot: &mut Entry, entry: Entry)
    ensures { slot.new ≡ entry }
{
    slot.deadline = entry.deadline;
    slot.server = entry.server;
}
