//! The object of one source.

ghost use Rattle.std.specs.Prelude.{◌≡◌, ◌+◌, ◌*◌, IfOk};
ghost use Rattle.serde_json.specs.View.{view};
ghost use Rattle.cbsrun_json.specs.Members.{told};
ghost use Rattle.cbsrun_check_json.specs.Json.{range_scalar, source_data};

use crate::promises::{is_in_time, reason_of};
use cbs_guarantee::NotPromised;
use cbsrun_json::{Scalar, object_of, told};
use cbsrun_simulate::{Range, SourceTerms};
use serde_json::Value;
use std::alloc::{AllocError, Global};

/// Returns a range as its least and its greatest number.
fn pair_of<'a>(range: Range) -> Scalar<'a>
    ensures { result ≡ range_scalar range }
{
    Scalar::Pair(range.least(), range.greatest())
}

/// Returns the most ticks of a job of a source, overruns counted, or 2^64 - 1 if they are more.
fn most_ticks(terms: &SourceTerms) -> u64
    ensures { result ≡ told (terms.now.units.greatest * (1 + terms.now.overrun.greatest)) }
{
    told(u128::from(terms.units.greatest()) * (1 + u128::from(terms.overrun.greatest())))
}

/// Returns the object of a source of a server with this name, of which so much is promised. The only error is out of
/// memory.
#[tactic(auto, unfolding(crate::specs::Json::source_data))]
pub(crate) fn source_value(
    alloc: Global,
    name: &str,
    promised: Result<u64, NotPromised>,
    terms: &SourceTerms,
) -> Result<Value, AllocError>
    ensures { IfOk result (λ v. view v ≡ source_data name.now promised terms.now) }
{
    let in_time = is_in_time(promised, terms.within);
    object_of(
        alloc,
        &[
            ("server", Scalar::Text(name)),
            ("every", pair_of(terms.every)),
            ("jitter", Scalar::Whole(terms.jitter)),
            ("units", pair_of(terms.units)),
            ("overrun", pair_of(terms.overrun)),
            ("asked", Scalar::Pair(most_ticks(terms), terms.distance())),
            ("within", Scalar::WholeIf(terms.within)),
            ("finished_within", Scalar::WholeIf(promised.ok())),
            ("in_time_always", Scalar::Is(in_time)),
            ("reason", Scalar::TextIf(reason_of(in_time, promised))),
        ],
    )
}
