//! The gate of a round.

ghost use Rattle.std.specs.Prelude.{◌≡◌, true, false};

use crate::poll::Poll;

/// A gate: it watches a round, and may hold sends back. Several threads call it. One call must not wait for another. If
/// the system makes no thread, the parts of a round run one after the other, and the wait would never end.
pub trait Gate {
    /// The rule that the gate may return false. It holds of every gate that does not say otherwise.
    ghost may_hold_back: { Self → Type 0 } = { λ _. Unit {0} };

    /// Returns whether the client of `server` may try its next message now. `number` is how many jobs the client has
    /// sent before that message, which may be the end.
    fn before_send(&self, server: u16, number: u64) -> bool
        ensures { result ≡ false → may_hold_back self.now };

    /// Takes the result of each poll of a round.
    fn answered(&self, server: u16, poll: Poll);
}

/// The gate that holds no message back.
#[derive(Clone, Copy, Debug)]
pub struct OpenGate;

impl Gate for OpenGate {
    ghost may_hold_back = { λ _. ⊥ };

    fn before_send(&self, _server: u16, _number: u64) -> bool
        ensures { result ≡ true }
    {
        true
    }

    fn answered(&self, _server: u16, _poll: Poll) {}
}
