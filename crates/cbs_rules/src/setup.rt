//! A plan with a mode for each of its servers.

ghost use Rattle.std.specs.Prelude.{◌≡◌, length, OnOk, OnErr};
ghost use Rattle.cbs_rate.specs.Plan.{IsPlan, admit_refusal};
ghost use Rattle.cbs_rate.specs.Refusals.{AnswersBy};
ghost use Rattle.cbs_rules.specs.Setups.{no_servers, with_server};

use crate::mode::Mode;
use crate::modes::Modes;
use cbs_rate::{AdmitError, Bound, Plan, Reservation};
use std::marker::Model;

/// The plan of some servers, and the mode of each. No call takes memory.
#[derive(Debug, Drop)]
pub struct Setup {
    plan: Plan,
    modes: Modes,
}

impl Model for Setup {
    ghost use Rattle.std.specs.Prelude.{◌≡◌, length};
    ghost use Rattle.cbs_rules.specs.Setups.{ModedPlan};

    ghost Value = { ModedPlan };

    ghost view = { λ s. record { plan = s.plan; modes = s.modes } };

    ghost invariant = { λ s. length s.modes ≡ length s.plan.rates };
}

impl Setup {
    /// Returns a setup with no server. The servers to come may together take `bound` of the processor.
    pub fn new(bound: Bound) -> Setup
        ensures { result ≡ no_servers bound }
    {
        Setup {
            plan: Plan::new(bound),
            modes: Modes::new(),
        }
    }

    /// Adds one more server, with this reservation, in ticks, and this mode, and returns its number.
    ///
    /// Refuses as [`Plan::admit`] does, by the same errors in the same order: the mode refuses nothing. A refusal
    /// leaves the setup unchanged.
    pub fn admit(&mut self, reservation: Reservation, mode: Mode) -> Result<u16, AdmitError>
        ensures answer { AnswersBy result (admit_refusal self.old.plan reservation)
            (length self.old.plan.rates) }
        ensures ok { OnOk result (self.new ≡ with_server self.old reservation mode) }
        ensures err { OnErr result (self.new ≡ self.old) }
        ensures lawful { IsPlan self.new.plan }
    {
        let server = self.plan.admit(reservation)?;
        self.modes.push(mode);
        Ok(server)
    }

    /// Returns the reservations of the servers, within the bound on their total bandwidth.
    pub fn plan(&self) -> &Plan
        ensures value { result.now ≡ self.now.plan }
        ensures paired { length self.now.modes ≡ length self.now.plan.rates }
    {
        &self.plan
    }

    /// Returns the modes of the servers: one for each server of the plan.
    pub fn modes(&self) -> &Modes
        ensures value { result.now ≡ self.now.modes }
        ensures paired { length self.now.modes ≡ length self.now.plan.rates }
    {
        &self.modes
    }

    /// Returns the plan and the modes, with one mode for each server of the plan, as the opening of a house requires.
    pub fn into_parts(self) -> (Plan, Modes)
        ensures plan { result.0 ≡ self.plan }
        ensures modes { result.1 ≡ self.modes }
        ensures paired { length result.1 ≡ length result.0.rates }
    {
        let Setup { plan, modes } = self;
        (plan, modes)
    }
}
