//! Callers of cbs_rules.

ghost use Rattle.std.specs.Prelude.{◌≡◌, ◌≤◌, []};
ghost use Rattle.cbs_rate.specs.Plan.{admit_refusal};
ghost use Rattle.cbs_rate.specs.Refusals.{AnswersBy};
ghost use Rattle.cbs_rules.specs.Rules.{clock_end, fresh_state, after_arrival, after_unit};
ghost use Rattle.cbs_rules.specs.Setups.{no_servers, with_server};

use cbs_rate::{AdmitError, Bound, Reservation};
use cbs_rules::{Mode, ServerState, Setup};

/// Returns a new server after a job came to it at tick `now` and it used one tick.
pub fn after_a_unit(mode: Mode, reservation: Reservation, now: u64) -> ServerState
    requires { now ≤ clock_end }
    ensures { result ≡ record {
      reservation = reservation;
      state = after_unit mode reservation (after_arrival mode reservation now fresh_state);
    } }
{
    let mut server = ServerState::fresh(reservation);
    server.arrive_idle(mode, now);
    server.consume(mode);
    server
}

/// Returns a setup of one server, or why the server is not admitted.
pub fn setup_of_one(bound: Bound, reservation: Reservation, mode: Mode) -> Result<Setup, AdmitError>
    ensures { AnswersBy result (admit_refusal (record { bound = bound; rates = [] }) reservation)
        (with_server (no_servers bound) reservation mode) }
{
    let mut setup = Setup::new(bound);
    setup.admit(reservation, mode)?;
    Ok(setup)
}
