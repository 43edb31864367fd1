//! The trait of resumable work.

ghost use Rattle.std.specs.Prelude.{◌≡◌, ◌<◌};
ghost use Rattle.cbs_job.specs.Work.{Meaning, Lowers};

/// A piece of work that is done in units, and may rest between two of them.
///
/// Law: `step` lowers `left` by one. So work of n units is finished after n steps, whoever makes them and whatever
/// happens in between.
pub trait Work: Drop {
    /// The meaning of the calls.
    ghost meaning: { Meaning Self };

    /// Returns how many units are left.
    fn left(&self) -> u32
        ensures { result ≡ meaning.left self.now };

    /// Does one unit. A unit must be left.
    fn step(&mut self)
        requires { 0 < meaning.left self.old }
        ensures { self.new ≡ meaning.after self.old };

    /// Returns the output so far. If no unit is left, this is the whole result.
    fn output(&self) -> u64
        ensures { result ≡ meaning.output self.now };

    /// The law: a unit lowers the number of units left by one.
    ghost lowers: { Lowers meaning };
}
