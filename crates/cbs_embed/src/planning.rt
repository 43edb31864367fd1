//! Which servers make a setup.

ghost use Rattle.std.specs.Prelude.{◌≡◌, OnOk, MatchResult, Some, None};
ghost use Rattle.cbs_embed.specs.Plans.{TakesServer, TellsGreatest, with_server, mode_from, setup_refusal, setup_with, whole_processor};
ghost use Rattle.cbs_embed.specs.declared.refusal.HandleError.TheVariants as HandleError;
ghost use Rattle.cbs_embed.specs.declared.refusal.Refusal.TheVariants as refused;

use crate::refusal::{HandleError, Refusal};
use crate::server::Server;
use cbs_rate::{Bound, Reservation};
use cbs_rules::{Mode, Setup};

/// Returns a setup with no server yet, for the whole processor.
pub fn whole_processor() -> Setup
    ensures { result ≡ whole_processor }
{
    let Ok(bound) = Bound::new(1, 1) else {
        unreachable!()
    };
    Setup::new(bound)
}

/// Adds these servers to the setup, one after another.
///
/// Refuses by the first server that does not fit: by its reservation, then its admission, then its mode. After a
/// refusal the setup is of no use.
pub fn take_all(setup: &mut Setup, servers: &[Server]) -> Result<(), Refusal>
    ensures answer { MatchResult result (λ _. setup_refusal setup.old servers.now ≡ None) (λ error.
        setup_refusal setup.old servers.now ≡ Some error) }
    ensures setup { OnOk result (setup.new ≡ setup_with setup.old servers.now) }
{
    for server in servers.iter() {
        take_in(setup, *server)?;
    }
    Ok(())
}

/// Returns `Ok` if these servers make a plan within the whole processor. Refuses as [`take_all`] does.
// Not inlined, here and below: a plan takes half a kilobyte of stack, which the caller's frame should not include.
#[inline(never)]
pub fn admit(servers: &[Server]) -> Result<(), Refusal>
    ensures { MatchResult result (λ _. setup_refusal whole_processor servers.now ≡ None) (λ error.
        setup_refusal whole_processor servers.now ≡ Some error) }
{
    take_all(&mut whole_processor(), servers)
}

/// Adds one more server to the setup. Returns why the server is refused, if it is. After a refusal the setup is of no
/// use.
fn take_in(setup: &mut Setup, server: Server) -> Result<(), Refusal>
    ensures answer { TakesServer setup.old.plan server result }
    ensures setup { OnOk result (setup.new ≡ with_server setup.old server) }
{
    let reservation = match Reservation::new(server.budget, server.period) {
        Ok(reservation) => reservation,
        Err(error) => return Err(Refusal::Rate(error)),
    };
    // An admission refuses before a mode does.
    let mode = mode_of(server.mode);
    match setup.admit(reservation, mode.unwrap_or(Mode::Soft)) {
        Ok(_) => {}
        Err(error) => return Err(Refusal::Admit(error)),
    }
    mode?;
    Ok(())
}

/// Returns the mode of this number: 0 soft, 1 throttled. Refuses any other number by [`HandleError::BadMode`].
pub fn mode_of(mode: u32) -> Result<Mode, Refusal>
    ensures { MatchResult result (λ found. mode_from mode ≡ Some found) (λ error.
        (mode_from mode ≡ None) × (error ≡ refused.Handle HandleError.BadMode)) }
{
    match mode {
        0 => Ok(Mode::Soft),
        1 => Ok(Mode::Throttled),
        _ => Err(Refusal::Handle(HandleError::BadMode)),
    }
}

/// Returns the greatest budget with which a server of this period would be admitted after these servers, or 0 if none
/// would be.
///
/// Refuses exactly if these servers themselves are refused, as [`take_all`] refuses them.
#[inline(never)]
pub fn greatest_budget(servers: &[Server], period: u64) -> Result<u64, Refusal>
    ensures { TellsGreatest servers.now period result }
{
    let mut setup = whole_processor();
    take_all(&mut setup, servers)?;
    Ok(setup.plan().greatest_budget(period))
}
