//! Stretches in order. Each new one becomes part of the last one if it can join it.

ghost use Rattle.std.specs.Prelude.{◌≡◌, ◌++◌, ◌∷◌, [], None, IfOk, OnOk};
ghost use Rattle.cbsrun_window.specs.Stretches.{Joined, all_of, nothing_joined, joined_with, with_stretch};

use crate::stretch::Stretch;
use crate::window::Window;
use std::alloc::{AllocError, Global};
use std::marker::Model;

/// Stretches in order: one that joins the last one becomes part of it.
#[derive(Drop)]
pub struct Stretches {
    done: Vec<Stretch>,
    // The last one, which the next may join.
    last: Option<Stretch>,
}

impl Model for Stretches {
    ghost use Rattle.cbsrun_window.specs.Stretches.{Joined};

    ghost Value = { Joined };

    ghost view = { λ s. record { done = s.done.items; last = s.last } };
}

impl Stretches {
    /// Returns an empty list of stretches.
    pub fn new(alloc: Global) -> Stretches
        ensures { result ≡ nothing_joined }
    {
        Stretches {
            done: Vec::new(alloc),
            last: None,
        }
    }

    /// Adds a stretch with at least one tick. Refuses if out of memory.
    #[inline]
    fn join(&mut self, stretch: Stretch) -> Result<(), AllocError>
        ensures { OnOk result (self.new ≡ joined_with stretch self.old.done self.old.last) }
    {
        let Some(last) = self.last else {
            self.last = Some(stretch);
            return Ok(());
        };
        if last.joins(stretch) {
            self.last = Some(Stretch {
                kind: last.kind,
                from: last.from,
                to: last.to.max(stretch.to),
            });
            return Ok(());
        }
        self.done.push(last)?;
        self.last = Some(stretch);
        Ok(())
    }

    /// Adds the part of a stretch that is within a window, if there is one. Refuses if out of memory.
    #[inline]
    pub fn add(&mut self, window: Window, stretch: Stretch) -> Result<(), AllocError>
        ensures { OnOk result (self.new ≡ with_stretch window stretch self.old) }
    {
        let shown = stretch.clipped(window);
        if shown.from < shown.to {
            self.join(shown)?;
        }
        Ok(())
    }

    /// Returns all stretches, in order. The only error is out of memory.
    pub fn into_all(mut self) -> Result<Vec<Stretch>, AllocError>
        ensures { IfOk result (λ all. all.items ≡ all_of self) }
    {
        if let Some(last) = self.last {
            self.done.push(last)?;
        }
        Ok(self.done)
    }
}
