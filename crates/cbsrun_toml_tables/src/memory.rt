//! The memory that the bytes of a file may take when they are read as one document. It is computed before they are
//! parsed.

ghost use Rattle.std.specs.Prelude.{◌≡◌, ◌≤◌, ◌↔◌, IsTrue};
ghost use Rattle.cbsrun_toml_tables.specs.Memory.{byte_wants, memory_wanted, result_of};

use crate::documents::faulty;
use crate::fault::{FileFault, FileKind, Place};

/// How much memory a file may need as one document if no bound is given, in bytes: 960 MiB.
pub const MEMORY: u64 = 1_006_632_960;

/// What came of reading a file with a bound on memory.
#[derive(Drop)]
pub enum Bounded<T: Drop> {
    /// The file was read piece by piece. That takes little memory, so the bound was not asked.
    InPieces(Result<T, FileFault>),
    /// The file was read as one document, and the bound allows that.
    Whole(Result<T, FileFault>),
    /// The file was not read. As one document, it needs more memory than the bound.
    TooLarge,
}

impl<T: Drop> Bounded<T> {
    /// Returns what was read, or its fault. If the bound refused the file, that is out of memory.
    pub fn into_result(self) -> Result<T, FileFault>
        ensures { result ≡ result_of self }
    {
        match self {
            Bounded::InPieces(read) | Bounded::Whole(read) => read,
            Bounded::TooLarge => Err(faulty(Place::Top, FileKind::OutOfMemory)),
        }
    }
}

/// Returns how much memory a byte of a file is counted for, in bytes.
///
/// No byte is counted for less than what `toml` was measured to take. A table with a key in it has a block with places
/// for fifteen. The block has some 1,220 bytes while the table may still grow, and 860 once the table is complete. A
/// dot makes such a table. So does a brace or a header, together with the `=` of its first key.
fn byte_wants(byte: u8) -> u64
    ensures { result ≡ byte_wants byte }
{
    match byte {
        b'.' => 1400,
        b'[' => 750,
        b'{' => 500,
        b'=' => 700,
        b',' => 100,
        _ => 4,
    }
}

/// Returns whether the bytes of a file need at most `bound` bytes of memory. That is the sum of what each byte is
/// counted for.
pub fn wants_within(bytes: &[u8], bound: u64) -> bool
    ensures { IsTrue result ↔ (memory_wanted bytes.now ≤ bound) }
{
    let mut left = bound;
    for byte in bytes {
        let Some(rest) = left.checked_sub(byte_wants(*byte)) else {
            return false;
        };
        left = rest;
    }
    true
}
