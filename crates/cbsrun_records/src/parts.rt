//! The text of a record, and its tape.

ghost use Rattle.std.specs.Prelude.{◌≡◌, ◌<◌, length, option_map, IfOk, IfSome};
ghost use Rattle.cbsrun_records.specs.Parts.{tape_of, text_end, text_of};

use cbs_sums::{TEXT_END, read_blocks};
use std::alloc::{AllocError, Global};

/// Returns the text of a record: its bytes up to the first byte 3, after which its blocks stand, if it has a tape.
pub fn text_of(bytes: &[u8]) -> &[u8]
    ensures { result.now ≡ text_of bytes.now }
{
    match text_end(bytes) {
        Some(end) => &bytes[..end],
        None => bytes,
    }
}

/// Returns the bytes of the tape of a record, if it has one, as its blocks have them. The only error is out of memory.
pub(crate) fn tape_of(alloc: Global, bytes: &[u8]) -> Result<Option<Vec<u8>>, AllocError>
    ensures { IfOk result (λ tape. option_map (λ tape. tape.items) tape ≡ tape_of bytes.now) }
{
    let Some(end) = text_end(bytes) else {
        return Ok(None);
    };
    let (before, blocks) = bytes.split_at(end + 1);
    let tape = read_blocks(alloc, before, blocks)?;
    Ok(Some(tape))
}

/// Returns the place of the byte that ends the text of a record, if it has a tape.
fn text_end(bytes: &[u8]) -> Option<usize>
    ensures value { result ≡ text_end bytes.now }
    ensures within { IfSome result (λ n. n < length bytes.now) }
{
    bytes.iter().position(|byte| *byte == TEXT_END)
}
