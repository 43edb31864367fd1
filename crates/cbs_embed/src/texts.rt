//! The texts of the statuses.

use crate::refusal::{HandleError, Refusal};
use cbs_house::{HouseError, SendError};
use cbs_job::TaskError;
use cbs_rate::{AdmitError, RateError};

/// Each refusal with its text, which is the text that the error's `Display` writes.
static TEXTS: [(Refusal, &str); 24] = [
    (
        Refusal::Rate(RateError::ZeroBudget),
        "the budget is 0: a reservation needs a budget of at least 1 tick",
    ),
    (
        Refusal::Rate(RateError::PeriodTooLong),
        "the period is longer than 1000000000 ticks",
    ),
    (
        Refusal::Rate(RateError::BudgetOverPeriod),
        "the budget is larger than the period",
    ),
    (
        Refusal::Rate(RateError::BadBound),
        "a bound N/D needs 1 <= N <= D <= 1000000",
    ),
    (
        Refusal::Admit(AdmitError::TooManyServers),
        "the plan has 64 servers already, and takes no more",
    ),
    (
        Refusal::Admit(AdmitError::PeriodsTooFine),
        "the least common multiple of all periods would pass 10^18: choose periods that share more factors",
    ),
    (
        Refusal::Admit(AdmitError::OverBound),
        "the total bandwidth would pass the plan's bound: a smaller budget or a longer period may fit",
    ),
    (
        Refusal::House(HouseError::BadBacklog),
        "the backlog is not within 1 to 4096 jobs",
    ),
    (
        Refusal::House(HouseError::BadRing),
        "the ring is not within 1 to 1024 messages",
    ),
    (Refusal::House(HouseError::OutOfMemory), "out of memory"),
    (
        Refusal::House(HouseError::NoSuchServer),
        "there is no such server",
    ),
    (
        Refusal::House(HouseError::ClockEnd),
        "the clock would pass its end, 1000000000000 ticks, or stands there with a job unfinished",
    ),
    (
        Refusal::House(HouseError::Stalled),
        "the clients did not send all in the rounds that they are given",
    ),
    (
        Refusal::House(HouseError::NotRunning),
        "the server did not run the last unit, or other ticks have passed since",
    ),
    (
        Refusal::Task(TaskError::EmptyJob),
        "the job is empty: a job has at least 1 unit",
    ),
    (
        Refusal::Task(TaskError::TooLong),
        "the job is too long: a job has at most 1000000 units",
    ),
    (Refusal::Send(SendError::Ended), "the client has ended"),
    (Refusal::Send(SendError::RingFull), "the ring is full"),
    (
        Refusal::Handle(HandleError::NotOpen),
        "the handle is not open",
    ),
    (
        Refusal::Handle(HandleError::OtherKind),
        "the handle is of the other kind",
    ),
    (
        Refusal::Handle(HandleError::WrongCount),
        "there are not as many clients as servers",
    ),
    (
        Refusal::Handle(HandleError::BadMode),
        "the mode is neither soft nor throttled",
    ),
    (
        Refusal::Handle(HandleError::HouseGone),
        "the client's house was freed",
    ),
    (
        Refusal::Handle(HandleError::NoTape),
        "the house has no tape, or the place is shorter than its memory",
    ),
];

/// Returns the text of a status that a C call returns.
pub fn text_of(status: u32) -> &'static str {
    if status == 0 {
        return "no error";
    }
    for (refusal, text) in TEXTS.iter() {
        if refusal.status() == status {
            return text;
        }
    }
    "no such status"
}
