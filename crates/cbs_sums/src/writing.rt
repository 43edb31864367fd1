//! Writing blocks.

ghost use Rattle.std.specs.Prelude.{◌≡◌, ◌≤◌, ◌++◌, length, OnOk};
ghost use Rattle.cbs_sums.specs.Blocks.{block, length_bytes, most_bytes, register_after};

use crate::sum::Sum;
use std::alloc::AllocError;

/// The byte between the text of a record and its blocks.
pub const TEXT_END: u8 = 3;

/// How many bytes of the tape a block has at most.
pub const MOST: usize = 0xFF_FFFF;

/// Returns a length in four bytes. The last one is the check of the others.
fn length_bytes(length: usize) -> [u8; 4]
    requires { length ≤ most_bytes }
    ensures { result ≡ length_bytes length }
{
    let low = (length % 256) as u8;
    let middle = (length / 256 % 256) as u8;
    let high = (length / 256 / 256) as u8;
    [low, middle, high, low ^ middle ^ high ^ 255]
}

/// Puts a block with these bytes of the tape at the end. The sum is of all that stands before it, and then of that block,
/// too. The only error is out of memory.
pub fn push_block(bytes: &mut Vec<u8>, sum: &mut Sum, content: &[u8]) -> Result<(), AllocError>
    requires { length content.now ≤ most_bytes }
    ensures block { OnOk result (bytes.new.items ≡ bytes.old.items ++ block sum.old content.now) }
    ensures sum { OnOk result (sum.new ≡ register_after sum.old content.now) }
{
    let front = length_bytes(content.len());
    sum.add(&front);
    sum.add(content);
    bytes.extend_from_slice(&front)?;
    bytes.extend_from_slice(content)?;
    bytes.extend_from_slice(&sum.value().to_le_bytes())
}
