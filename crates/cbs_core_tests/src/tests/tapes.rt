//! Tests of tapes on worked examples, and without memory.

use super::{filled, same};
use cbs_tape::{Ending, Entry, Tape, read, write};
use linked_list_allocator::LocalHeap;
use std::alloc::{Allocator, Global};
use std::process::Abort;

/// A job of 3 units for server 0 and its units, 17 ticks, a job of 300 units for server 1, and a unit of it that is charged
/// 5 ticks.
static SIX: [Entry; 6] = [
    Entry::Accepted {
        server: 0,
        units: 3,
    },
    Entry::Units(3),
    Entry::Advanced(17),
    Entry::Accepted {
        server: 1,
        units: 300,
    },
    Entry::Units(1),
    Entry::Charged {
        server: 1,
        ticks: 5,
    },
];

/// The bytes of these, with the mark of the end.
static THIRTEEN: [u8; 13] = [
    0x40, 0x03, 0xC2, 0x02, 0x11, 0x41, 0xFD, 0x2C, 0x01, 0xC0, 0x81, 0x05, 0x04,
];

/// How many of the entries are whole in the first bytes, from none of the bytes on.
static WHOLE: [usize; 14] = [0, 0, 1, 2, 2, 3, 3, 3, 3, 4, 5, 5, 6, 6];

/// Checks what is read of these bytes.
fn reads(rt: &impl Abort, alloc: Global, bytes: &[u8], entries: &[Entry], ending: Ending) {
    let tape = read(alloc, bytes).ok().expect(rt, "memory");
    same(rt, "entries", tape.entries.as_slice(), entries);
    same(rt, "ending", tape.ending, ending);
}

#[test]
fn a_tape_is_written_and_read_again(rt: HostRuntime) {
    let alloc = rt.alloc();
    let bytes = write(alloc, &SIX).ok().expect(&rt, "memory");
    same(&rt, "written", bytes.as_slice(), &THIRTEEN);
    reads(&rt, alloc, &THIRTEEN, &SIX, Ending::Marked);
}

#[test]
fn a_tape_may_be_cut_at_each_byte(rt: HostRuntime) {
    let alloc = rt.alloc();
    for (bytes, &whole) in WHOLE.iter().enumerate() {
        let front = THIRTEEN.get(..bytes).expect(&rt, "bytes");
        let entries = SIX.get(..whole).expect(&rt, "entries");
        let ending = if bytes < 13 {
            Ending::Cut
        } else {
            Ending::Marked
        };
        reads(&rt, alloc, front, entries, ending);
    }
}

/// Tells the tape the steps of the six entries.
fn tell_six<A: Allocator>(tape: &mut Tape<A>) {
    tape.accepted(0, 3);
    tape.ran();
    tape.ran();
    tape.ran();
    tape.advanced(17);
    tape.accepted(1, 300);
    tape.ran();
    tape.charged(1, 5);
}

#[test]
fn a_tape_has_what_it_was_told(rt: HostRuntime) {
    let alloc = rt.alloc();
    let mut tape = Tape::new(alloc, 13).ok().expect(&rt, "memory");
    tell_six(&mut tape);
    same(&rt, "is_whole", tape.is_whole(), true);
    same(&rt, "bytes", tape.end().as_slice(), &THIRTEEN);
}

/// Hands out what a tape has, and checks the bytes.
fn hands_out(rt: &impl Abort, tape: &mut Tape, wanted: &[u8]) {
    let mut out = [0xAA; 44];
    let taken = tape
        .take(&mut out)
        .expect(rt, "a place that is long enough");
    same(rt, "taken", out.get(..taken).expect(rt, "bytes"), wanted);
    let others = out.get(taken..).expect(rt, "bytes");
    same(rt, "others", others.iter().all(|&byte| byte == 0xAA), true);
}

#[test]
fn a_tape_is_handed_out_in_pieces(rt: HostRuntime) {
    let alloc = rt.alloc();
    let mut tape = Tape::new(alloc, 13).ok().expect(&rt, "memory");
    same(&rt, "size", tape.size(), 44);
    hands_out(&rt, &mut tape, &[]);
    tape.accepted(0, 3);
    tape.ran();
    tape.ran();
    // A place that is a byte too short gets nothing.
    same(&rt, "take", tape.take(&mut [0; 43]).is_none(), true);
    hands_out(&rt, &mut tape, &[0x40, 0x03, 0xC1]);
    tape.ran();
    hands_out(&rt, &mut tape, &[0xC0]);
    same(&rt, "is_whole", tape.is_whole(), true);
    tape.advanced(17);
    same(&rt, "end", tape.end().as_slice(), &[0x02, 0x11, 0x04]);
}

#[test]
fn a_tape_goes_on_after_it_was_handed_out(rt: HostRuntime) {
    let alloc = rt.alloc();
    // It has no room for two steps without that.
    let mut tape = Tape::new(alloc, 0).ok().expect(&rt, "memory");
    for _piece in 0..100 {
        tape.advanced(17);
        let mut out = [0; 31];
        same(&rt, "take", tape.take(&mut out), Some(2));
    }
    same(&rt, "whole before", tape.is_whole(), true);
    tape.advanced(17);
    tape.advanced(17);
    same(&rt, "whole after", tape.is_whole(), false);
    let mut out = [0; 31];
    same(&rt, "take", tape.take(&mut out), Some(2));
    tape.advanced(17);
    same(&rt, "lost", tape.take(&mut out), Some(0));
    same(&rt, "end", tape.end().as_slice(), &[]);
}

#[test]
fn a_tape_with_no_room_has_the_first_steps(rt: HostRuntime) {
    let alloc = rt.alloc();
    // 31 bytes: room for the job alone. The units are counted, and the ticks are lost.
    let mut tape = Tape::new(alloc, 0).ok().expect(&rt, "memory");
    tape.accepted(0, 3);
    tape.ran();
    tape.ran();
    same(&rt, "is_whole before", tape.is_whole(), true);
    tape.advanced(17);
    same(&rt, "is_whole after", tape.is_whole(), false);
    tape.ran();
    tape.closed(0);
    let bytes = tape.end();
    same(&rt, "bytes", bytes.as_slice(), &[0x40, 0x03, 0xC1]);
    let first = [
        Entry::Accepted {
            server: 0,
            units: 3,
        },
        Entry::Units(2),
    ];
    reads(&rt, alloc, bytes.as_slice(), &first, Ending::Cut);
}

#[test]
fn a_server_that_no_tape_names_is_lost(rt: HostRuntime) {
    let alloc = rt.alloc();
    let mut tape = Tape::new(alloc, 100).ok().expect(&rt, "memory");
    tape.closed(63);
    same(&rt, "server 63", tape.is_whole(), true);
    tape.closed(64);
    same(&rt, "server 64", tape.is_whole(), false);
    same(&rt, "bytes", tape.end().as_slice(), &[0x03, 0x3F]);
}

/// Numbers of ticks, and how they are spelled.
static NUMBERS: [(u64, &[u8]); 8] = [
    (0, &[0]),
    (252, &[252]),
    (253, &[253, 253, 0]),
    (65_535, &[253, 255, 255]),
    (65_536, &[254, 0, 0, 1, 0]),
    (4_294_967_295, &[254, 255, 255, 255, 255]),
    (4_294_967_296, &[255, 0, 0, 0, 0, 1, 0, 0, 0]),
    (u64::MAX, &[255, 255, 255, 255, 255, 255, 255, 255, 255]),
];

#[test]
fn numbers_are_as_short_as_they_can_be(rt: HostRuntime) {
    let alloc = rt.alloc();
    for &(ticks, spelled) in &NUMBERS {
        let entries = [Entry::Advanced(ticks)];
        let bytes = write(alloc, &entries).ok().expect(&rt, "memory");
        let wanted = [&[0x02], spelled, &[0x04]].concat(alloc).ok();
        let wanted = wanted.expect(&rt, "memory");
        same(&rt, "written", bytes.as_slice(), wanted.as_slice());
        reads(&rt, alloc, bytes.as_slice(), &entries, Ending::Marked);
    }
}

/// Bytes that nobody writes, the entries that they begin with, and how they end.
static STRANGE: [(&[u8], &[Entry], Ending); 10] = [
    // Nothing is there, or nothing was written.
    (&[], &[], Ending::Cut),
    (&[0, 4], &[], Ending::Cut),
    // What stands after the mark is not read.
    (&[4, 5], &[], Ending::Marked),
    (&[5], &[], Ending::Unknown),
    (&[63], &[], Ending::Unknown),
    // A row of no units, and one that is longer than it has to be.
    (&[1, 0], &[], Ending::Unknown),
    (&[1, 253, 2, 0], &[Entry::Units(2)], Ending::Cut),
    // Server 64.
    (&[3, 63, 3, 64], &[Entry::Closed(63)], Ending::Unknown),
    // A job of 2^32 - 1 units, and one of 2^32.
    (
        &[127, 254, 255, 255, 255, 255, 4],
        &[Entry::Accepted {
            server: 63,
            units: u32::MAX,
        }],
        Ending::Marked,
    ),
    (&[64, 255, 0, 0, 0, 0, 1, 0, 0, 0, 4], &[], Ending::Unknown),
];

#[test]
fn strange_bytes_are_no_entries(rt: HostRuntime) {
    let alloc = rt.alloc();
    for &(bytes, entries, ending) in &STRANGE {
        reads(&rt, alloc, bytes, entries, ending);
    }
}

#[test]
fn long_rows_are_numbers(rt: HostRuntime) {
    let alloc = rt.alloc();
    let mut tape = Tape::new(alloc, 0).ok().expect(&rt, "memory");
    for _unit in 0..65 {
        tape.ran();
    }
    same(&rt, "65 units", tape.end().as_slice(), &[0x01, 0x41, 0x04]);
    let mut tape = Tape::new(alloc, 0).ok().expect(&rt, "memory");
    for _unit in 0..64 {
        tape.ran();
    }
    same(&rt, "64 units", tape.end().as_slice(), &[0xFF, 0x04]);
}

#[test]
fn without_memory_no_tape_is_made(rt: HostRuntime) {
    let alloc = rt.alloc();
    let heap = LocalHeap::new(alloc, 1 << 13).expect(&rt, "a heap");
    let mut tape = Tape::new(&heap, 100).ok().expect(&rt, "memory");
    let ballast = filled(&rt, alloc, &heap);
    same(&rt, "new", Tape::new(&heap, 0).is_err(), true);
    same(&rt, "read", read(&heap, &THIRTEEN).is_err(), true);
    same(&rt, "write", write(&heap, &SIX).is_err(), true);
    // A tape that is there takes no more.
    tell_six(&mut tape);
    same(&rt, "bytes", tape.end().as_slice(), &THIRTEEN);
    drop(ballast);
}
