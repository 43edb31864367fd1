//! Readers and writers in memory, which fail at a chosen call or size.

ghost use Rattle.std.specs.Prelude.{Some, None, ◌≡◌, ◌<◌, ◌-◌};

use super::same;
use cbsrun_commands::{ByteInput, ByteOutput, Verb, run_bytes};
use std::alloc::Global;
use std::io;
use std::io::ErrorKind;
use std::process::Abort;
use std::thread::Threads;
use std::time::Clock;

/// A writer that takes at most `step` bytes a call and `room` bytes in all, and then fails.
#[derive(Drop)]
pub struct Memory {
    pub taken: Vec<u8>,
    room: usize,
    step: usize,
    // The error of a call for which there is no room.
    full: ErrorKind,
    failed: u64,
    closed: bool,
}

impl Memory {
    /// Returns a writer with room for `room` bytes, which takes at most `step` bytes a call.
    pub fn new(alloc: Global, room: usize, step: usize) -> Memory
        ensures { result.failed ≡ 0 }
    {
        Memory {
            taken: Vec::new(alloc),
            room,
            step,
            full: ErrorKind::WriteZero,
            failed: 0,
            closed: false,
        }
    }

    /// Returns a pipe that is closed after `room` bytes.
    pub fn pipe(alloc: Global, room: usize) -> Memory
        ensures { result.failed ≡ 0 }
    {
        Memory {
            taken: Vec::new(alloc),
            room,
            step: usize::MAX,
            full: ErrorKind::BrokenPipe,
            failed: 0,
            closed: false,
        }
    }

    /// Returns a writer with room for everything.
    pub fn ample(alloc: Global) -> Memory
        ensures { result.failed ≡ 0 }
    {
        Memory::new(alloc, usize::MAX, usize::MAX)
    }

    pub fn holds(&self, bytes: &[u8]) -> bool {
        self.taken.as_slice() == bytes
    }
}

impl ByteOutput for Memory {
    ghost state = { λ s. record { written = Some s.taken.items; failed = s.failed } };

    ghost closed = { λ s. s.closed };

    fn write(&mut self, bytes: &[u8]) -> io::Result<usize> {
        let n = bytes.len().min(self.room).min(self.step);
        if n == 0 && !bytes.is_empty() {
            self.failed += 1;
            self.closed = self.full == ErrorKind::BrokenPipe;
            return Err(io::Error::from(self.full));
        }
        match self.taken.extend_from_slice(&bytes[..n]) {
            Ok(()) => {
                self.room -= n;
                Ok(n)
            }
            Err(_) => {
                self.failed += 1;
                self.closed = false;
                Err(io::Error::from(ErrorKind::OutOfMemory))
            }
        }
    }

    fn is_closed(&self) -> bool {
        self.closed
    }
}

/// A reader of a number of letters, of which one chosen call fails.
#[derive(Drop)]
pub struct Letters {
    left: usize,
    calls: u64,
    bad: u64,
    failed: u64,
}

impl Letters {
    pub fn new(left: usize, bad: u64) -> Letters
        ensures { result.failed ≡ 0 }
    {
        Letters {
            left,
            calls: 0,
            bad,
            failed: 0,
        }
    }
}

impl ByteInput for Letters {
    ghost left = { λ _. None };

    ghost failed = { λ s. s.failed };

    fn read(&mut self, room: &mut [u8]) -> io::Result<usize> {
        self.calls = self.calls.saturating_add(1);
        if self.calls == self.bad {
            self.failed += 1;
            return Err(io::Error::from(ErrorKind::UnexpectedEof));
        }
        let n = room.len().min(self.left);
        for byte in room.iter_mut() {
            *byte = b'a';
        }
        self.left -= n;
        Ok(n)
    }
}

/// The outcome of a run of a file: its status and its writers.
#[derive(Drop)]
pub struct Outcome {
    pub status: u8,
    pub out: Memory,
    pub err: Memory,
}

impl Outcome {
    /// Ends the test, and names the label, unless the run left this status, this output and this error output.
    pub fn leaves(&self, rt: &impl Abort, label: &str, status: u8, out: &str, err: &str) {
        let wrote = (
            self.out.holds(out.as_bytes()),
            self.err.holds(err.as_bytes()),
        );
        // The label, then the status and whether the output and the error output are those.
        same(rt, label, (self.status, wrote), (status, (true, true)));
    }
}

/// Replays or serves a file, with ample memory for its output. Returns the outcome.
pub fn ran<R: Threads + Clock + Sync>(rt: &R, alloc: Global, verb: Verb, file: &[u8]) -> Outcome {
    let mut out = Memory::ample(alloc);
    let mut err = Memory::ample(alloc);
    let status = run_bytes(rt, alloc, verb, file, &mut out, &mut err);
    Outcome { status, out, err }
}

/// Replays a file with ample memory for its output, and tests the outcome.
pub fn replays<R: Abort + Threads + Clock + Sync>(
    rt: &R,
    alloc: Global,
    label: &str,
    file: &[u8],
    status: u8,
    out: &str,
    err: &str,
) {
    ran(rt, alloc, Verb::Replay, file).leaves(rt, label, status, out, err);
}
