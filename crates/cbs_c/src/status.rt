//! Statuses, and their texts.

ghost use Rattle.std.specs.Prelude.{◌≡◌, length};
ghost use Rattle.cbs_c.specs.Statuses.{status_after, shown_or, ended_by_zero, WritesSomeText};

use cbs_embed::{Refusal, text_of};

/// Returns the status of a result.
pub(crate) fn status_of<T: Drop>(answer: Result<T, Refusal>) -> u32
    ensures { result ≡ status_after answer }
{
    match answer {
        Ok(_) => 0,
        Err(refusal) => refusal.status(),
    }
}

/// Writes the value of a result, if there is one. Returns the status.
pub(crate) fn tell(out: &mut u64, answer: Result<u64, Refusal>) -> u32
    ensures status { result ≡ status_after answer }
    ensures out { out.new ≡ shown_or (λ n. n) answer out.old }
{
    match answer {
        Ok(value) => {
            *out = value;
            0
        }
        Err(refusal) => refusal.status(),
    }
}

/// Writes the text of a status and a zero byte after it, as much as fits, and nothing into no
/// bytes. Returns the length of the whole text, without the zero byte.
#[unsafe(no_mangle)]
pub extern "C" fn cbs_status_text(status: u32, out: &mut [u8]) -> usize
    ensures { WritesSomeText out.old out.new result }
{
    write_text(text_of(status).as_bytes(), out)
}

/// Writes a text and a zero byte after it, as much as fits, and nothing into no bytes. Returns the
/// length of the text.
fn write_text(text: &[u8], out: &mut [u8]) -> usize
    ensures out { out.new ≡ ended_by_zero text.now out.old }
    ensures length { result ≡ length text.now }
{
    if let Some(room) = out.len().checked_sub(1) {
        let shown = text.len().min(room);
        out[..shown].copy_from_slice(&text[..shown]);
        out[shown] = 0;
    }
    text.len()
}
