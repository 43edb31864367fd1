//! Runs until no accepted job is unfinished.

use crate::error::HouseError;
use crate::house::House;
use cbs_core::LIMIT;
use cbs_host::{Meter, NoMeter};
use cbs_job::Work;
use std::alloc::Allocator;

impl<W: Work, A: Allocator> House<W, A> {
    ghost use Rattle.std.specs.Prelude.{ℕ, ◌≡◌, true, false, OnOk, IfErr};
    ghost use Rattle.cbs_clients.specs.Houses.{core_of, rings_of, received, IsHouseOnTime, IsHousePaced, AllFinished, Moves, MovesBy};
    ghost use Rattle.cbs_host.specs.Meters.{NeverCharges};
    ghost use Rattle.cbs_core.specs.Held.{HoldsJob, HoldsNoJob, IsAtEnd};
    ghost use Rattle.cbs_steps.specs.Continuations.{MayDrain};

    /// Runs until no accepted job is unfinished. If no server is ready it advances the clock by the idle span, so that
    /// no time is lost. It takes no message. If it returns `Ok`, the results of each server are those of all its jobs
    /// received, except the first ones, which were handed out. They are whole results if no job of the server ended
    /// early.
    ///
    /// Refuses by [`HouseError::ClockEnd`] if the clock is at [`LIMIT`] with a job unfinished. The steps made stay
    /// made.
    pub fn drain(&mut self) -> Result<(), HouseError>
        ensures moves { Moves W.meaning (MayDrain W.meaning) self.old self.new 0 }
        ensures on_time { IsHouseOnTime self.old → IsHouseOnTime self.new }
        ensures paced { IsHousePaced self.old → IsHousePaced self.new }
        ensures received { (s : ℕ) → received self.new s ≡ received self.old s }
        ensures rings { rings_of self.new ≡ rings_of self.old }
        ensures ok { OnOk result (HoldsNoJob (core_of self.new)) }
        ensures finished { OnOk result (AllFinished W.meaning self.new) }
        ensures end { IfErr result (λ error. (error ≡ HouseError.ClockEnd)
            × IsAtEnd (core_of self.new)) }
    {
        self.drain_metered(&mut NoMeter)
    }

    /// Runs until no accepted job is unfinished, as [`drain`](House::drain) does, with a meter. After each unit its
    /// server is charged what the meter returns, as by [`run_metered`](House::run_metered).
    ///
    /// Refuses by [`HouseError::ClockEnd`] in the same case as [`drain`](House::drain): the clock is at [`LIMIT`] with
    /// a job unfinished.
    pub fn drain_metered<M: Meter>(&mut self, meter: &mut M) -> Result<(), HouseError>
        ensures moves { MovesBy W.meaning M.may_tell (MayDrain W.meaning) self.old self.new 0 }
        ensures on_time { NeverCharges M.may_tell → IsHouseOnTime self.old
            → IsHouseOnTime self.new }
        ensures paced { IsHousePaced self.old → IsHousePaced self.new }
        ensures received { (s : ℕ) → received self.new s ≡ received self.old s }
        ensures rings { rings_of self.new ≡ rings_of self.old }
        ensures ok { OnOk result (HoldsNoJob (core_of self.new)) }
        ensures finished { OnOk result (AllFinished W.meaning self.new) }
        ensures end { IfErr result (λ error. (error ≡ HouseError.ClockEnd)
            × IsAtEnd (core_of self.new)) }
    {
        while self.is_busy() {
            if self.now() == LIMIT {
                return Err(HouseError::ClockEnd);
            }
            self.go_on(meter);
        }
        Ok(())
    }

    /// Returns whether an accepted job is not finished.
    pub(crate) fn is_busy(&self) -> bool
        ensures some { result ≡ true → HoldsJob (core_of self.now) }
        ensures none { result ≡ false → HoldsNoJob (core_of self.now) }
    {
        self.collector.is_waiting()
    }
}
