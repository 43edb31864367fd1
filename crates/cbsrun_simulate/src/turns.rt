//! When each of several sources releases next, and which of them releases first.

ghost use Rattle.std.specs.Prelude.{◌≡◌, ◌+◌, ◌*◌, ◌/◌, ◌^◌, ◌<◌, length, replicate, slice_get, None, IfOk};
ghost use Rattle.cbsrun_simulate.specs.Turns.{turn_of, due_of, is_before, first_of, IsTree, SetsLeaf};

use crate::release::Release;
use std::alloc::{AllocError, Allocator, Global};
use std::marker::Model;

/// When a source releases next: the earlier turn comes first, and of two at one tick that of the lower place.
#[derive(Clone, Copy)]
pub struct Turn {
    /// The tick, or `u64::MAX` if the source releases nothing more.
    pub tick: u64,
    /// The place of the source.
    pub place: usize,
}

impl Turn {
    /// Returns the turn of the source at a place, by the release that comes next from it.
    #[inline(always)]
    fn of(place: usize, next: Option<Release>) -> Turn
        ensures { result ≡ turn_of place next }
    {
        let tick = match next {
            Some(release) => release.tick,
            None => u64::MAX,
        };
        Turn { tick, place }
    }

    /// Returns the tick of the release that comes next, or `None` if the source releases nothing more.
    #[inline(always)]
    pub fn due(&self) -> Option<u64>
        ensures { result ≡ due_of self.now }
    {
        (self.tick < u64::MAX).then_some(self.tick)
    }

    /// Returns the turn as one number. Of two turns, that of the lower number comes first.
    #[inline(always)]
    fn rank(&self) -> u128
        ensures value { result ≡ self.now.tick * 2 ^ 64 + self.now.place }
        ensures place { self.now.place < 2 ^ 64 }
    {
        u128::from(self.tick) * (1 << 64) + self.place as u128
    }

    /// Returns whether the turn comes before another.
    #[inline(always)]
    #[tactic(auto, using(crate::proofs::Trees::rank_before))]
    fn is_before(&self, other: &Turn) -> bool
        ensures { result ≡ is_before self.now other.now }
    {
        // One comparison and no branch: which turn comes first follows no pattern, and a processor would often guess
        // wrongly.
        self.rank() < other.rank()
    }

    /// Returns the first of two turns.
    #[inline(always)]
    fn or_earlier(self, other: Turn) -> Turn
        ensures { result ≡ first_of self other }
    {
        if other.is_before(&self) { other } else { self }
    }
}

/// The turns of several sources, in a tree that has the first of them at its root.
///
/// The first is known at once, and to set one takes time that grows with the logarithm of the sources.
#[derive(Drop)]
pub struct Turns<A: Allocator = Global> {
    // Nodes 2 k and 2 k + 1 lie below node k, and the second half of the nodes are the leaves.
    nodes: Vec<Turn, A>,
}

impl<A: Allocator> Model for Turns<A> {
    ghost use Rattle.std.specs.Prelude.{List};
    ghost use Rattle.cbsrun_simulate.specs.Turns.{IsTree};
    ghost use Rattle.cbsrun_simulate.specs.declared.turns.Turn.{Turn};

    ghost Value = { List Turn };

    ghost view = { λ t. t.nodes.items };

    ghost invariant = { λ t. IsTree t.nodes.items };
}

impl<A: Allocator> Turns<A> {
    /// Returns the turns of so many sources that release nothing. Memory is taken here, and not later.
    pub fn new(alloc: A, sources: usize) -> Result<Turns<A>, AllocError>
        ensures { IfOk result (λ turns. turns ≡ replicate (sources * 2) (turn_of 0 None)) }
    {
        let Some(count) = sources.checked_mul(2) else {
            return Err(AllocError);
        };
        let mut nodes = Vec::with_capacity(alloc, count)?;
        nodes.resize(count, Turn::of(0, None))?;
        Ok(Turns { nodes })
    }

    /// Returns the first turn, or `None` if there is no source.
    #[inline(always)]
    pub fn first(&self) -> Option<Turn>
        ensures first { result ≡ slice_get self.now 1 }
        ensures tree { IsTree self.now }
    {
        self.nodes.get(1).copied()
    }

    /// Sets the turn of the source at a place, which must be there, by the release that comes next from it.
    #[inline(always)]
    pub fn set(&mut self, place: usize, next: Option<Release>)
        requires { place < length self.old / 2 }
        ensures { SetsLeaf place (turn_of place next) self.old self.new }
    {
        let nodes = self.nodes.as_mut_slice();
        let leaf = nodes.len() / 2 + place;
        nodes[leaf] = Turn::of(place, next);
        let mut node = leaf / 2;
        while node > 0 {
            nodes[node] = nodes[2 * node].or_earlier(nodes[2 * node + 1]);
            node /= 2;
        }
    }
}
