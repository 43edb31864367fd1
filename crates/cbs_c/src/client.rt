//! The calls on a client.

ghost use Rattle.cbs_embed.specs.Calls.{OnHeld, InClient, Sends, Ends, Waits};
ghost use Rattle.cbs_embed.specs.Handles.{held_by};
ghost use Rattle.cbs_c.specs.Statuses.{Answers, Tells};

use crate::status::{status_of, tell};
use cbs_embed::{Handle, calls};

/// Sends a job, writes its number, and returns the status. Refuses, in this order: by its units, by a house that was
/// freed, after an end, and for a full ring.
#[unsafe(no_mangle)]
pub extern "C" fn cbs_send(client: &mut Handle, token: u64, units: u32, seq: &mut u64) -> u32
    ensures { Tells (OnHeld (InClient (Sends token units))) (λ n.
        n) (held_by client.old) seq.old result (held_by client.new) seq.new }
{
    tell(seq, calls::send(client, token, units))
}

/// Sends the end, and returns the status. Refuses, in this order: by a house that was freed, after an end, and for a
/// full ring.
#[unsafe(no_mangle)]
pub extern "C" fn cbs_end(client: &mut Handle) -> u32
    ensures { Answers (OnHeld (InClient Ends)) (held_by client.old) result (held_by client.new) }
{
    status_of(calls::end(client))
}

/// Writes how many messages of the client wait in its ring. Returns the status.
#[unsafe(no_mangle)]
pub extern "C" fn cbs_waiting(client: &mut Handle, out: &mut u64) -> u32
    ensures { Tells (OnHeld (InClient Waits)) (λ n.
        n) (held_by client.old) out.old result (held_by client.new) out.new }
{
    tell(out, calls::waiting(client))
}
