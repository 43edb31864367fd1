//! Releases, one after another.

ghost use Rattle.std.specs.Prelude.{◌≡◌, ◌<◌, ℕ, List, IfSome, length, drop, slice_get};
ghost use Rattle.std.specs.Option.{option_map};
ghost use Rattle.cbs_rules.specs.Rules.{clock_end};
ghost use Rattle.cbsrun_simulate.specs.Releases.{IsInOrder, MakesJob};
ghost use Rattle.cbsrun_simulate.specs.declared.release.Release.{Release};

use crate::release::Release;

/// A source of releases, in the order in which they are submitted.
pub trait Releases {
    /// The releases that are left.
    ghost coming: { Self → List Release };

    /// They stand in the order of their ticks.
    ghost ordered: { (it : Self) → IsInOrder 0 (coming it) };

    /// Returns the next release, or `None` if none is left. It has 1 to 1,000,000 units, and comes before the clock's end.
    fn first(&self) -> Option<Release>
        ensures next { result ≡ slice_get (coming self.now) 0 }
        ensures units { IfSome result MakesJob }
        ensures early { IfSome result (λ r. r.tick < clock_end) };

    /// Returns the tick of the next release, or `None` if none is left.
    fn next_tick(&self) -> Option<u64>
        ensures { result ≡ option_map (λ r. r.tick) (slice_get (coming self.now) 0) };

    /// Passes the next release, so that the one after it is the next.
    fn pass(&mut self)
        requires { 0 < length (coming self.old) }
        ensures { coming self.new ≡ drop 1 (coming self.old) };
}
