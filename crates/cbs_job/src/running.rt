//! Work that was started.

ghost use Rattle.std.specs.Prelude.{◌≡◌, ◌<◌, ◌-◌};
ghost use Rattle.cbs_job.specs.Work.{whole};

use crate::work::Work;
use std::marker::Model;

/// A task that was started: the one form of work that has a `step`.
#[derive(Drop)]
pub struct Running<W: Work> {
    work: W,
}

impl<W: Work> Model for Running<W> {
    ghost Value = { W };

    ghost view = { λ r. r.work };
}

impl<W: Work> Running<W> {
    /// Returns the work of a task, started.
    pub(crate) fn of(work: W) -> Running<W>
        ensures { result ≡ work }
    {
        Running { work }
    }

    /// Returns how many units are left.
    pub fn left(&self) -> u32
        ensures { result ≡ W.meaning.left self.now }
    {
        self.work.left()
    }

    /// Does one unit. A unit must be left. The whole result of the work stays the same.
    pub fn step(&mut self)
        requires { 0 < W.meaning.left self.old }
        ensures after { self.new ≡ W.meaning.after self.old }
        ensures lower { W.meaning.left self.new ≡ W.meaning.left self.old - 1 }
        ensures whole { whole W.meaning self.new ≡ whole W.meaning self.old }
    {
        self.work.step();
    }

    /// Returns the output so far. If no unit is left, this is the whole result.
    pub fn output(&self) -> u64
        ensures value { result ≡ W.meaning.output self.now }
        ensures last { W.meaning.left self.now ≡ 0 → result ≡ whole W.meaning self.now }
    {
        self.work.output()
    }
}
