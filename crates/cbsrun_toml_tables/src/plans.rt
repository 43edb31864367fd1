//! The parts of a plan that tables of every kind spell.

ghost use Rattle.std.specs.Prelude.{◌≡◌};
ghost use Rattle.cbsrun_toml_tables.specs.Plans.{bound_of, reservation, mode_of};

use crate::fault::FileKind;
use crate::fields::natural;
use cbs_rate::{Bound, Reservation};
use cbs_rules::Mode;

/// Returns the bound N/D. Refuses it unless it is within its limits.
pub fn bound_of(pair: Option<(i64, i64)>) -> Result<Bound, FileKind>
    ensures { result ≡ bound_of pair }
{
    let (num, den) = pair.ok_or(FileKind::OutOfRange)?;
    let num = natural(num)?;
    let den = natural(den)?;
    match Bound::new(num, den) {
        Ok(bound) => Ok(bound),
        Err(_) => Err(FileKind::OutOfRange),
    }
}

/// Returns the reservation of a budget in every period. Refuses it unless both are within the limits of a reservation.
pub fn reservation(budget: i64, period: i64) -> Result<Reservation, FileKind>
    ensures { result ≡ reservation budget period }
{
    let budget = natural(budget)?;
    let period = natural(period)?;
    match Reservation::new(budget, period) {
        Ok(reservation) => Ok(reservation),
        Err(_) => Err(FileKind::OutOfRange),
    }
}

/// Returns the mode that a word names. Refuses any other word as out of range.
pub fn mode_of(word: &str) -> Result<Mode, FileKind>
    ensures { result ≡ mode_of word.now }
{
    match word {
        "soft" => Ok(Mode::Soft),
        "throttled" => Ok(Mode::Throttled),
        _ => Err(FileKind::OutOfRange),
    }
}
