//! Tests that the contents of a handle may go to another thread, and tests of the text of each status.

use super::{same, says};
use cbs_embed::{Handle, HandleError, Held, Refusal, text_of};
use cbs_house::{HouseError, SendError};
use cbs_job::TaskError;
use cbs_rate::{AdmitError, RateError};
use std::alloc::Global;
use std::process::Abort;

/// Requires that the value may go to another thread, and returns it.
fn crossing<T: Send>(value: T) -> T {
    value
}

#[test]
fn may_cross(rt: HostRuntime) {
    let alloc = rt.alloc();
    let mut handle = crossing(Handle::shut(alloc));
    let held = handle.take(alloc).map(|held: Box<Held>| crossing(held));
    assert!(rt; held.is_none());
}

/// The status of each refusal of a reservation or of an admission.
static OF_RESERVATIONS: [(Refusal, u32); 7] = [
    (Refusal::Rate(RateError::ZeroBudget), 0x101),
    (Refusal::Rate(RateError::PeriodTooLong), 0x102),
    (Refusal::Rate(RateError::BudgetOverPeriod), 0x103),
    (Refusal::Rate(RateError::BadBound), 0x104),
    (Refusal::Admit(AdmitError::TooManyServers), 0x201),
    (Refusal::Admit(AdmitError::PeriodsTooFine), 0x202),
    (Refusal::Admit(AdmitError::OverBound), 0x203),
];

/// The status of each refusal of a house, of a task or of a client.
static OF_HOUSES: [(Refusal, u32); 10] = [
    (Refusal::House(HouseError::BadBacklog), 0x301),
    (Refusal::House(HouseError::BadRing), 0x302),
    (Refusal::House(HouseError::OutOfMemory), 0x303),
    (Refusal::House(HouseError::NoSuchServer), 0x304),
    (Refusal::House(HouseError::ClockEnd), 0x305),
    (Refusal::House(HouseError::Stalled), 0x306),
    (Refusal::Task(TaskError::EmptyJob), 0x401),
    (Refusal::Task(TaskError::TooLong), 0x402),
    (Refusal::Send(SendError::Ended), 0x501),
    (Refusal::Send(SendError::RingFull), 0x502),
];

/// Checks the status of a refusal, and that the text of the status is the text of its error.
fn tells(rt: &impl Abort, alloc: Global, refusal: Refusal, status: u32) {
    same(rt, "status", refusal.status(), status);
    let text = text_of(status);
    match refusal {
        Refusal::Rate(error) => says(rt, alloc, &error, text),
        Refusal::Admit(error) => says(rt, alloc, &error, text),
        Refusal::House(error) => says(rt, alloc, &error, text),
        Refusal::Task(error) => says(rt, alloc, &error, text),
        Refusal::Send(error) => says(rt, alloc, &error, text),
        Refusal::Handle(_) => panic!(rt; "a handle's refusal has a text of its own"),
    }
}

#[test]
fn reservations_are_refused_by_their_texts(rt: HostRuntime) {
    for &(refusal, status) in &OF_RESERVATIONS {
        tells(&rt, rt.alloc(), refusal, status);
    }
}

#[test]
fn houses_and_clients_refuse_by_their_texts(rt: HostRuntime) {
    for &(refusal, status) in &OF_HOUSES {
        tells(&rt, rt.alloc(), refusal, status);
    }
}

/// The status of each error of a handle, and the text of the status.
static OF_HANDLES: [(HandleError, u32, &str); 6] = [
    (HandleError::NotOpen, 0x601, "the handle is not open"),
    (
        HandleError::OtherKind,
        0x602,
        "the handle is of the other kind",
    ),
    (
        HandleError::WrongCount,
        0x603,
        "there are not as many clients as servers",
    ),
    (
        HandleError::BadMode,
        0x604,
        "the mode is neither soft nor throttled",
    ),
    (
        HandleError::HouseGone,
        0x605,
        "the client's house was freed",
    ),
    (
        HandleError::NoTape,
        0x606,
        "the house has no tape, or the place is shorter than its memory",
    ),
];

#[test]
fn handles_are_refused_by_texts_of_their_own(rt: HostRuntime) {
    for &(error, status, text) in &OF_HANDLES {
        same(&rt, "status", Refusal::Handle(error).status(), status);
        same(&rt, "text", text_of(status), text);
    }
}

#[test]
fn no_other_status_has_a_text(rt: HostRuntime) {
    same(&rt, "text", text_of(0), "no error");
    same(&rt, "text", text_of(0x100), "no such status");
    same(&rt, "text", text_of(0x607), "no such status");
}
