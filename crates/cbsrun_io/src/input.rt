//! Readers that count their failed calls, and a call that reads all bytes.

ghost use Rattle.std.specs.Prelude.{◌≡◌, ℕ, ◌+◌, ◌<◌, ◌≤◌, ◌^◌, ◌-◌, ◌↔◌, List, length, take, Option, IfOk, OnOk, IfErr, OnErr, if◌then◌else◌};
ghost use Rattle.std.specs.Io.KnownBytes.{Consumes, IsAtEnd, Keeps};
ghost use Rattle.cbsrun_io.specs.Counted.{Counted};
ghost use Rattle.cbsrun_io.specs.Reads.{is_read_fault, read_error_number, read_error_name};

use std::alloc::Global;
use std::io;
use std::io::Read;
use std::marker::Model;
use thiserror::Error;

/// A reader of bytes, which counts its calls that failed.
pub trait ByteInput {
    // The bytes that are left to read, if they are known.
    ghost left: { Self → Option (List ℕ) };

    // How many calls failed.
    ghost failed: { Self → ℕ };

    /// Reads some bytes into the first part of `room`, and returns how many. It returns 0 only at the end, or if `room`
    /// is empty. A call that fails has taken no byte.
    fn read(&mut self, room: &mut [u8]) -> io::Result<usize>
        requires { failed self.old < 2 ^ 64 - 1 }
        ensures took { IfOk result (λ n. n ≤ length room.new) }
        ensures ok { IfOk result (λ n. Consumes (left self.old) (left self.new) (take n room.new)) }
        ensures end { IfOk result (λ n. n ≡ 0 → 0 < length room.new → IsAtEnd (left self.new)) }
        ensures counted { OnOk result (failed self.new ≡ failed self.old) }
        ensures err { OnErr result (Keeps (left self.old) (left self.new)
            × (failed self.new ≡ failed self.old + 1)) };
}

/// Any reader of the library, with a count of its calls that failed.
#[derive(Drop)]
pub struct FromRead<R> {
    reader: R,
    failed: u64,
}

impl<R> Model for FromRead<R> {
    ghost Value = { Counted R };

    ghost view = { λ s. record { inner = s.reader; failed = s.failed } };
}

impl<R> FromRead<R> {
    /// Returns a reader of which no call has failed yet.
    pub fn new(reader: R) -> FromRead<R>
        ensures { result ≡ record { inner = reader; failed = 0 } }
    {
        FromRead { reader, failed: 0 }
    }
}

impl<R: Read> ByteInput for FromRead<R> {
    ghost left = { λ s. R.remaining s.inner };

    ghost failed = { λ s. s.failed };

    fn read(&mut self, room: &mut [u8]) -> io::Result<usize> {
        match self.reader.read(room) {
            Ok(n) => Ok(n),
            Err(error) => {
                self.failed += 1;
                Err(error)
            }
        }
    }
}

/// The most bytes that [`read_all`] takes: 16 MiB.
pub const MAX_BYTES: usize = 16_777_216;

/// The most bytes that one read is asked for: 64 KiB.
const PIECE: usize = 65_536;

/// The reason why the bytes of a reader could not be read.
#[derive(Clone, Copy, Debug, PartialEq, Eq, Error)]
pub enum ReadError {
    /// There was no memory for the bytes that came.
    #[error("out of memory while reading")]
    OutOfMemory = 1,
    /// A read failed.
    #[error("a read failed")]
    ReadFault = 2,
    /// More than [`MAX_BYTES`] came.
    #[error("there are more than 16777216 bytes")]
    TooLarge = 3,
}

impl ReadError {
    /// Returns the error's number, from 1.
    pub fn number(self) -> u8
        ensures { result ≡ read_error_number self }
    {
        self as u8
    }

    /// Returns the error's name, as the program prints it.
    pub fn name(self) -> &'static str
        ensures { result.now ≡ read_error_name self }
    {
        match self {
            ReadError::OutOfMemory => "OutOfMemory",
            ReadError::ReadFault => "ReadFault",
            ReadError::TooLarge => "TooLarge",
        }
    }
}

/// Returns all bytes that the reader has left: at most [`MAX_BYTES`].
///
/// Refuses with [`ReadError::ReadFault`] if a read fails, and with [`ReadError::OutOfMemory`] if out of memory. Refuses
/// with [`ReadError::TooLarge`] if more than [`MAX_BYTES`] came before either of these. After a refusal the bytes that
/// were read are lost.
pub fn read_all<R: ByteInput>(alloc: Global, reader: &mut R) -> Result<Vec<u8>, ReadError>
    requires { R.failed reader.old < 2 ^ 64 - 1 }
    // At Ok: the bytes up to the end.
    ensures ok { IfOk result (λ v. Consumes (R.left reader.old) (R.left reader.new) v.items
        × IsAtEnd (R.left reader.new)) }
    ensures small { IfOk result (λ v. length v.items ≤ 16777216) }
    // At a refusal some bytes came. There were too many of them exactly if the error is TooLarge.
    ensures refused { IfErr result (λ e. (came : List ℕ)
        × Consumes (R.left reader.old) (R.left reader.new) came
        × ((e ≡ ReadError.TooLarge) ↔ (16777216 < length came))) }
    // At a read fault exactly one call failed, and else none.
    ensures fault { R.failed reader.new ≡ R.failed reader.old + (if is_read_fault result then 1 else
        0) }
{
    let mut room = [0u8; PIECE];
    let mut bytes = Vec::new(alloc);
    loop {
        let Ok(n) = reader.read(&mut room) else {
            return Err(ReadError::ReadFault);
        };
        if n == 0 {
            return Ok(bytes);
        }
        if n > MAX_BYTES - bytes.len() {
            return Err(ReadError::TooLarge);
        }
        if bytes.extend_from_slice(&room[..n]).is_err() {
            return Err(ReadError::OutOfMemory);
        }
    }
}
