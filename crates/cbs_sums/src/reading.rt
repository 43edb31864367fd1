//! Reading blocks.

ghost use Rattle.std.specs.Prelude.{◌≡◌, length, IfOk};
ghost use Rattle.cbs_sums.specs.Blocks.{seen, length_of, length_at, front_at, rest_at, block_at, tape_in, tape_after};
ghost use Rattle.cbs_sums.specs.Sums.{after};

use crate::sum::Sum;
use std::alloc::{AllocError, Allocator, Global};

/// The byte that a tape has in the place of a block that is wrong. No entry of a tape begins with it.
pub const NO_ENTRY: u8 = 8;

/// Why there is no block.
#[derive(Clone, Copy, Debug, PartialEq, Eq)]
pub enum Stop {
    /// The bytes end before the block does, or were never written.
    Cut,
    /// Its length or its sum is wrong.
    Wrong,
}

/// A block.
#[derive(Drop)]
struct Block<'a> {
    /// The bytes of the tape.
    content: &'a [u8],
    /// The bytes after the block.
    rest: &'a [u8],
}

/// Returns the length that four bytes spell. The last one is the check of the others.
fn length_of(low: u8, middle: u8, high: u8, check: u8) -> Result<usize, Stop>
    ensures { result ≡ length_of low middle high check }
{
    if check == low ^ middle ^ high ^ 255 {
        Ok(usize::from(low) + 256 * usize::from(middle) + 65536 * usize::from(high))
    } else if low == 0 && middle == 0 && high == 0 && check == 0 {
        Err(Stop::Cut)
    } else {
        Err(Stop::Wrong)
    }
}

/// Returns the length of the tape's bytes in the block at the start of these.
fn length_at(bytes: &[u8]) -> Result<usize, Stop>
    ensures { result ≡ length_at bytes.now }
{
    if bytes.len() < 4 {
        return Err(Stop::Cut);
    }
    length_of(bytes[0], bytes[1], bytes[2], bytes[3])
}

/// Returns the bytes after the sum of a block, if that is right.
fn rest_at<'a>(sum: &Sum, bytes: &'a [u8]) -> Result<&'a [u8], Stop>
    ensures { seen (λ rest. rest.now) result ≡ rest_at sum.now bytes.now }
{
    match bytes.split_first_chunk::<4>() {
        Some((written, rest)) if u32::from_le_bytes(*written) == sum.value() => Ok(rest),
        Some(_) => Err(Stop::Wrong),
        None => Err(Stop::Cut),
    }
}

/// Returns the block at the start of the bytes. The sum is of all that stands before it, and then of that block, too.
#[tactic(auto, unfolding(crate::specs::Blocks::block_at))]
fn block_at<'a>(sum: &mut Sum, bytes: &'a [u8]) -> Result<Block<'a>, Stop>
    ensures { seen (λ b. record { content = b.content.now; register = sum.new; rest = b.rest.now }) result
        ≡ block_at sum.old bytes.now }
{
    let length = length_at(bytes)?;
    if bytes.len() < length + 4 {
        return Err(Stop::Cut);
    }
    let (front, after) = bytes.split_at(length + 4);
    sum.add(front);
    let rest = rest_at(sum, after)?;
    Ok(Block {
        content: &front[4..],
        rest,
    })
}

/// Returns the bytes of the tape that blocks have which stand after these bytes of a file, up to the first block that is
/// cut. In the place of one that is wrong stands [`NO_ENTRY`], as the last byte. The only error is out of memory.
pub fn read_blocks(alloc: Global, before: &[u8], blocks: &[u8]) -> Result<Vec<u8>, AllocError>
    ensures { IfOk result (λ tape. tape.items ≡ tape_after before.now blocks.now) }
{
    let mut sum = Sum::new();
    sum.add(before);
    tape_in(alloc, &mut sum, blocks)
}

/// Reads block by block. Each takes a byte or more, so there are no more of them than bytes.
fn tape_in(alloc: Global, sum: &mut Sum, blocks: &[u8]) -> Result<Vec<u8>, AllocError>
    ensures { IfOk result (λ tape. tape.items ≡ tape_in (length blocks.now) sum.old blocks.now) }
{
    let mut tape = Vec::with_capacity(alloc, blocks.len())?;
    let mut rest = blocks;
    for _ in 0..blocks.len() {
        match block_at(sum, rest) {
            Ok(block) => {
                tape.extend_from_slice(block.content)?;
                rest = block.rest;
            }
            Err(Stop::Cut) => return Ok(tape),
            Err(Stop::Wrong) => {
                tape.push(NO_ENTRY)?;
                return Ok(tape);
            }
        }
    }
    Ok(tape)
}
