//! Sources of jobs, whose numbers are drawn.

ghost use Rattle.std.specs.Prelude.{◌≡◌, ◌+◌, ◌*◌, ◌≤◌, ℕ, None, drop, true};
ghost use Rattle.cbs_rules.specs.Rules.{clock_end};
ghost use Rattle.cbsrun_simulate.specs.Drawing.{IsLawful, IsListed, follow, next_nominal, pending, released_by, released_from};

use crate::range::Range;
use crate::release::Release;
use crate::releases::Releases;
use crate::terms::SourceTerms;
use cbs_rules::LIMIT;
use rand_pcg::Pcg64;
use std::marker::Model;

/// A source of jobs for one server.
///
/// Its jobs have nominal ticks, which are listed or drawn. Each job comes up to the jitter later than its nominal tick,
/// but not before the job before it. So a job that comes late delays no nominal tick.
///
/// The source has a generator of its own. For each job it draws the units, then the overrun, then by how much the job
/// comes later, and then the ticks to the next nominal tick, unless that is listed. So no other source and no schedule
/// changes what it releases.
#[derive(Drop)]
pub struct Source<'a> {
    place: u16,
    terms: SourceTerms,
    listed: &'a [u64],
    until: u64,
    left: u64,
    nominal: u64,
    tick: u64,
    units: u32,
    overrun: u64,
    draws: Pcg64,
}

impl<'a> Model for Source<'a> {
    ghost use Rattle.std.specs.Prelude.{◌≡◌, ◌≤◌, ◌<◌, true};
    ghost use Rattle.cbs_rate.specs.Limits.{most_units};
    ghost use Rattle.cbs_rules.specs.Rules.{clock_end};
    ghost use Rattle.cbsrun_simulate.specs.Drawing.{Cursor, IsLawful, follow};

    ghost Value = { Cursor };

    ghost view = { λ s. record {
      place = s.place;
      terms = s.terms;
      listed = s.listed.now;
      until = s.until;
      left = s.left;
      nominal = s.nominal;
      tick = s.tick;
      units = s.units;
      overrun = s.overrun;
      draws = s.draws;
    } };

    ghost invariant = { λ s. IsLawful s.terms × (s.until ≤ clock_end) × (0 < s.units) × (s.units ≤ most_units)
        × (s.nominal ≤ s.tick) × (follow s.terms.every.least s.nominal s.listed.now ≡ true) };
}

/// Returns the listed ticks after the first one, none if none is listed.
fn after_first(listed: &[u64]) -> &[u64]
    ensures { result.now ≡ drop 1 listed.now }
{
    match listed {
        [_, rest @ ..] => rest,
        [] => listed,
    }
}

/// Returns the nominal tick after one: the first that is listed, or, if none is, one that is so many ticks later as are
/// drawn.
#[inline(always)]
fn next_nominal(every: Range, listed: &[u64], nominal: u64, draws: &mut Pcg64) -> u64
    requires early { nominal ≤ clock_end }
    requires few { every.greatest ≤ clock_end }
    requires follows { follow every.least nominal listed.now ≡ true }
    ensures value { (result, draws.new) ≡ next_nominal every listed.now nominal draws.old }
    ensures later { nominal + every.least ≤ result }
    ensures small { result ≤ 2 * clock_end }
    ensures followed { follow every.least result (drop 1 listed.now) ≡ true }
{
    match listed.first() {
        Some(next) => *next,
        None => nominal + every.draw(draws),
    }
}

impl<'a> Source<'a> {
    /// Returns a source with these terms, whose jobs are released before the tick `until`. Its nominal ticks are those
    /// that are listed, of which the first is the first one of the terms; after these, or if none is listed, they are
    /// drawn. Its generator is the `Pcg64` with the seed as its state and the source's place as its stream.
    ///
    /// The terms must be within the limits that [`SourceTerms`] names. Each listed tick must be at most [`LIMIT`], and at
    /// least the least `every` after the one before it. `until` must be at most [`LIMIT`].
    pub fn new(
        place: u16,
        terms: &SourceTerms,
        listed: &'a [u64],
        until: u64,
        seed: u64,
    ) -> Source<'a>
        requires lawful { IsLawful terms.now }
        requires listed { IsListed terms.now listed.now }
        requires end { until ≤ LIMIT }
        ensures releases { pending result ≡ released_by place terms.now listed.now until seed }
        ensures endless { terms.now.jobs ≡ None → (k : ℕ) → until ≤ k
            → pending result ≡ released_from place terms.now listed.now until k seed }
    {
        let mut draws = Pcg64::new(u128::from(seed), u128::from(place));
        let units = terms.units.draw(&mut draws) as u32;
        let overrun = terms.overrun.draw(&mut draws);
        let jitter = Range::up_to(terms.jitter).draw(&mut draws);
        Source {
            place,
            terms: *terms,
            listed: after_first(listed),
            until,
            left: terms.jobs.unwrap_or(until),
            nominal: terms.first,
            tick: terms.first.saturating_add(jitter),
            units,
            overrun,
            draws,
        }
    }
}

impl<'a> Releases for Source<'a> {
    ghost use Rattle.cbsrun_simulate.specs.Drawing.{pending};
    ghost use Rattle.cbsrun_simulate.specs.Merging.{ordered_source};

    ghost coming = { pending };

    ghost ordered = { ordered_source };

    #[inline(always)]
    fn first(&self) -> Option<Release> {
        Some(Release {
            tick: self.next_tick()?,
            source: self.place,
            server: self.terms.server,
            units: self.units,
            overrun: self.overrun,
            within: self.terms.within,
        })
    }

    #[inline(always)]
    fn next_tick(&self) -> Option<u64> {
        if self.left == 0 || self.tick >= self.until {
            return None;
        }
        Some(self.tick)
    }

    #[inline(always)]
    fn pass(&mut self) {
        self.left -= 1;
        self.nominal = next_nominal(self.terms.every, self.listed, self.nominal, &mut self.draws);
        self.listed = after_first(self.listed);
        self.units = self.terms.units.draw(&mut self.draws) as u32;
        self.overrun = self.terms.overrun.draw(&mut self.draws);
        let jitter = Range::up_to(self.terms.jitter).draw(&mut self.draws);
        self.tick = self.tick.max(self.nominal + jitter);
    }
}
