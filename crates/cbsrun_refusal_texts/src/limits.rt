//! The reasons why a plan does not take a server.

ghost use Rattle.std.specs.Prelude.{◌≡◌, codes, map, Some};
ghost use Rattle.toml.specs.View.{view, table_view};
ghost use Rattle.cbs_rate.specs.Plan.{admit_refusal};
ghost use Rattle.cbsrun_refusal_texts.specs.Pages.{AppendsA, IsNote};
ghost use Rattle.cbsrun_refusal_texts.specs.Refusals.{before_words, IsTooManyText, IsPeriodText, IsTooFineText, IsRefusalText, AppendsRefusal, IsSpotLine};

use crate::over::append_over;
use crate::page::Page;
use cbs_rate::{AdmitError, MAX_COMMON_MULTIPLE, MAX_SERVERS};
use cbsrun_faults::{Refused, Spot, refused_at};
use cbsrun_toml_tables::FileKind;

/// Appends that a plan takes no more servers.
fn append_too_many(page: &mut Page, spot: &Spot<'_>)
    ensures { let entries = map view spot.now.document.servers.now in
        AppendsA (IsTooManyText (IsSpotLine spot.now) entries) page.old page.new }
{
    let count = spot.document.servers.len();
    page.push_number("error: there are ", count as u64);
    page.push_number(" servers, and there may be at most ", MAX_SERVERS as u64);
    page.push_spot(spot);
    page.push_bar(2);
    let help = format!(in page.alloc();
        "an executor has at most {MAX_SERVERS} servers: take a second one for the others"
    );
    page.push_note(2, "help", help);
}

/// Appends how often the periods of the servers before this one come together.
fn append_before(page: &mut Page, ticks: u64)
    ensures { AppendsA (IsNote 2 (codes "note") (before_words ticks)) page.old page.new }
{
    let words = format!(in page.alloc();
        "the periods of the servers before it come together every {ticks} ticks"
    );
    page.push_note(2, "note", words);
}

/// Appends the line of a server's period, and which periods fit.
fn append_period(page: &mut Page, refused: &Refused)
    ensures { AppendsA (IsPeriodText refused.now) page.old page.new }
{
    let digits = refused.reservation.period().to_string(page.alloc());
    let Some(digits) = page.accept(digits) else {
        return;
    };
    let text = digits.as_str();
    page.push_line("  ", &["period = ", text], 9, text.len());
    page.push("\n");
    page.push_bar(2);
    append_before(page, refused.plan.bandwidth().of);
    let help = "take a period that shares more factors with the others, as 10 with 20";
    page.push_note(2, "help", String::from_str(page.alloc(), help));
}

/// Appends that the period of a server makes the periods too fine.
fn append_too_fine(page: &mut Page, spot: &Spot<'_>, refused: &Refused)
    ensures { AppendsA (IsTooFineText (IsSpotLine spot.now) refused.now) page.old page.new }
{
    let number = refused.number;
    let multiple = refused.plan.common_multiple_with(refused.reservation);
    write!(
        page,
        "error: with server {number} the periods come together every {multiple} ticks only, and at most {MAX_COMMON_MULTIPLE} are allowed"
    );
    page.push_spot(spot);
    append_period(page, refused);
}

/// Appends why a plan does not take a server.
fn append_refused(page: &mut Page, spot: &Spot<'_>, refused: &Refused)
    requires { admit_refusal refused.now.plan refused.now.reservation ≡ Some refused.now.why }
    ensures { let entries = map view spot.now.document.servers.now in
        AppendsA (IsRefusalText refused.now.why (IsSpotLine spot.now) entries refused.now) page.old
        page.new }
{
    match refused.why {
        AdmitError::TooManyServers => append_too_many(page, spot),
        AdmitError::PeriodsTooFine => append_too_fine(page, spot, refused),
        AdmitError::OverBound => append_over(page, spot, refused),
    }
}

/// Appends why a plan does not take the server with this number.
pub fn append_not_admitted(page: &mut Page, spot: &Spot<'_>, number: u64)
    ensures { let read = spot.now.document in
        AppendsRefusal (IsSpotLine spot.now) (table_view read.top.now) (map view read.servers.now)
        number page.old page.new }
{
    match refused_at(spot.document, number) {
        Some(refused) => append_refused(page, spot, &refused),
        None => page.push_kind(FileKind::NotAdmitted),
    }
}
