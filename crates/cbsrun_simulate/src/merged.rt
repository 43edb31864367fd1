//! The releases of several sources.

ghost use Rattle.std.specs.Prelude.{◌≡◌, IfOk};

use crate::release::Release;
use crate::releases::Releases;
use crate::turns::Turns;
use std::alloc::{AllocError, Allocator, Global};
use std::marker::Model;

/// The releases of several sources, by their ticks, and at one tick by the places of their sources.
///
/// The next release is known at once; to go on to the one after it takes time that grows with the logarithm of the sources.
pub struct Merged<S: Releases + Drop, A: Allocator = Global> {
    sources: Vec<S, A>,
    turns: Turns<A>,
}

impl<S: Releases + Drop, A: Allocator> Drop for Merged<S, A> {
    fn drop(self) {
        let Merged {
            sources: _,
            turns: _,
        } = self;
    }
}

impl<S: Releases + Drop, A: Allocator> Model for Merged<S, A> {
    ghost use Rattle.std.specs.Prelude.{List, length, map};
    ghost use Rattle.cbsrun_simulate.specs.Turns.{HasTurns};

    ghost Value = { List S };

    ghost view = { λ m. m.sources.items };

    ghost invariant = { λ m. HasTurns (length m.sources.items) (map S.coming m.sources.items) m.turns };
}

impl<S: Releases + Drop, A: Allocator> Merged<S, A> {
    /// Returns the releases of these sources. Memory is taken here, and not later.
    pub fn new(alloc: A, sources: Vec<S, A>) -> Result<Merged<S, A>, AllocError>
        ensures { IfOk result (λ merged. merged ≡ sources.items) }
    {
        let mut turns = Turns::new(alloc, sources.len())?;
        for (place, source) in sources.iter().enumerate() {
            turns.set(place, source.first());
        }
        Ok(Merged { sources, turns })
    }
}

impl<S: Releases + Drop, A: Allocator> Releases for Merged<S, A> {
    ghost use Rattle.std.specs.Prelude.{map};
    ghost use Rattle.cbsrun_simulate.specs.Merging.{merged, merged_ordered};

    ghost coming = { λ m. merged (map S.coming m) };

    ghost ordered = { merged_ordered S.coming S.ordered };

    #[inline(always)]
    fn first(&self) -> Option<Release> {
        let turn = self.turns.first()?;
        self.sources[turn.place].first()
    }

    #[inline(always)]
    fn next_tick(&self) -> Option<u64> {
        let turn = self.turns.first()?;
        turn.due()
    }

    #[inline(always)]
    fn pass(&mut self) {
        let Some(turn) = self.turns.first() else {
            return;
        };
        let source = &mut self.sources[turn.place];
        source.pass();
        let next = source.first();
        self.turns.set(turn.place, next);
    }
}
