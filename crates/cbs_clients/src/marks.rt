//! Marks: who may have sent something, so that a house looks only at the rings of those.

ghost use Rattle.std.specs.Prelude.{ℕ, ◌≡◌, ◌≢◌, ◌≤◌, ◌<◌, IfSome, IfNone};
ghost use Rattle.cbs_clients.specs.Marks.{IsUnmarked};

use std::alloc::{AllocError, Allocator, Global};
use std::sync::Arc;
use std::sync::atomic::{AtomicU64, Ordering};

/// A word that a house shares with its clients, with a bit for each server.
///
/// A client sets the bit of its server each time after it has put a message into its ring. The house takes all bits
/// before it looks at the rings. So it finds a message whose bit it took. The bit of a message that it did not find is
/// there, or comes, for the next time.
#[derive(Drop)]
pub struct Marks<A: Allocator = Global> {
    word: Arc<AtomicU64, A>,
}

impl<A: Allocator + Copy> Marks<A> {
    /// Returns a word with no bit set.
    pub fn new(alloc: A) -> Result<Marks<A>, AllocError> {
        match Arc::new(alloc, AtomicU64::new(0)) {
            Ok(word) => Ok(Marks { word }),
            Err(_) => Err(AllocError),
        }
    }
}

impl<A: Allocator> Marks<A> {
    /// Returns the mark of a server, for its client. Refuses if the word has more owners than it can count.
    pub fn of(&self, server: u16) -> Result<Mark<A>, AllocError>
        requires { server < 64 }
    {
        let word = Arc::try_clone(&self.word)?;
        Ok(Mark {
            word,
            bit: 1 << server,
        })
    }

    /// Returns the servers whose bits are set, and clears all bits.
    pub fn take(&self) -> u64 {
        // Mostly no bit is set. Then the clients keep the word in their caches.
        if self.word.load(Ordering::SeqCst) == 0 {
            return 0;
        }
        self.word.swap(0, Ordering::SeqCst)
    }
}

/// The mark of one server, which its client leaves.
#[derive(Drop)]
pub struct Mark<A: Allocator = Global> {
    word: Arc<AtomicU64, A>,
    bit: u64,
}

impl<A: Allocator> Mark<A> {
    /// Says that the client has sent something. The message must be in the ring before.
    pub fn leave(&self) {
        // A bit that is still set was not taken, so the house has yet to look. Only this mark sets the bit, so the sum
        // sets it and no other.
        if self.word.load(Ordering::SeqCst) & self.bit == 0 {
            self.word.fetch_add(self.bit, Ordering::SeqCst);
        }
    }
}

/// The servers whose rings a house looks at: bit s for server s.
#[derive(Clone, Copy)]
pub struct Marked {
    pub bits: u64,
}

impl Marked {
    /// Returns these servers with others.
    pub fn with(self, others: u64) -> Marked
        ensures { (s : ℕ) → IsUnmarked result s → IsUnmarked self s }
    {
        Marked {
            bits: self.bits | others,
        }
    }

    /// Returns these servers and one more.
    pub fn add(self, server: usize) -> Marked
        requires { server < 64 }
        ensures { (s : ℕ) → IsUnmarked result s → (s ≢ server) × IsUnmarked self s }
    {
        Marked {
            bits: self.bits | (1 << server),
        }
    }

    /// Returns these servers but one.
    pub fn remove(self, server: usize) -> Marked
        requires { server < 64 }
        ensures { (s : ℕ) → s < 64 → s ≢ server → IsUnmarked result s → IsUnmarked self s }
    {
        Marked {
            bits: self.bits & !(1 << server),
        }
    }

    /// Returns the first of these servers from `first` on, or `None` if there is none.
    pub fn first_from(self, first: u16) -> Option<u16>
        ensures some { IfSome result (λ server. (first ≤ server) × (server < 64)
            × ((s : ℕ) → first ≤ s → s < server → IsUnmarked self s)) }
        ensures none { IfNone result ((s : ℕ) → first ≤ s → s < 64 → IsUnmarked self s) }
    {
        if first >= 64 {
            return None;
        }
        let rest = self.bits >> first;
        if rest == 0 {
            return None;
        }
        Some(first + rest.trailing_zeros() as u16)
    }
}
