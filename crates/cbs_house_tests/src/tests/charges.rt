//! Tests of charges of a house, and of the state that they leave.

use super::calls::sends;
use super::house_of;
use super::rows::{Case, Row, does_all, plays_all};
use cbs_house::{House, HouseError, Poll};
use cbs_job::SumJob;
use cbs_rules::{LIMIT, Mode};
use std::alloc::Global;
use std::process::Abort;

/// A unit of the first job of server 0, not its last.
const UNIT: Row = Row::Unit(0, 0);

static CASES: [Case; 3] = [
    Case {
        name: "a soft server is charged",
        mode: Mode::Soft,
        rate: (2, 5),
        limits: (4, 4),
        rows: &[
            Row::Send(&[1, 1, 1], 0),
            Row::Poll(0, Poll::Took(0)),
            UNIT,
            Row::State(0, 1, 5, false),
            // The 4 ticks were two budgets.
            Row::Charge(3, Ok(())),
            Row::State(0, 2, 15, false),
            Row::Now(4),
            Row::Charges(0, Ok((3, 3))),
            UNIT,
            Row::ChargeServer(0, 1, Ok(())),
            Row::State(0, 2, 20, false),
            Row::Now(6),
            Row::Charges(0, Ok((4, 3))),
            Row::Done(0, 0, 3),
            // The charge comes in two parts: 1, and then 2.
            Row::Charge(1, Ok(())),
            Row::State(0, 2, 25, false),
            Row::ChargeServer(0, 2, Ok(())),
            Row::State(0, 2, 30, false),
            Row::Charge(0, Ok(())),
            Row::State(0, 2, 30, false),
            Row::Now(10),
            Row::Charges(0, Ok((7, 3))),
            Row::Results(0, Ok(&[3])),
        ],
    },
    Case {
        name: "a turn and a drain wait for a throttled server that was charged",
        mode: Mode::Throttled,
        rate: (2, 5),
        limits: (4, 4),
        rows: &[
            Row::Send(&[1, 1, 1], 0),
            Row::Poll(0, Poll::Took(0)),
            UNIT,
            // 3 ticks beyond the budget: one whole budget, and an overrun of 1.
            Row::Charge(4, Ok(())),
            Row::State(0, 0, 10, true),
            Row::Now(5),
            Row::IdleSpan(Some(5)),
            Row::Turn(0, 5),
            Row::State(0, 1, 15, false),
            Row::Charge(1, Err(HouseError::NotRunning)),
            UNIT,
            Row::State(0, 0, 15, true),
            Row::Charge(1, Ok(())),
            Row::State(0, 0, 15, true),
            Row::Now(12),
            Row::Drain(Ok(())),
            Row::Now(16),
            Row::State(0, 0, 20, true),
            Row::Results(0, Ok(&[3])),
            Row::Charges(0, Ok((5, 4))),
        ],
    },
    Case {
        name: "a refused charge changes nothing",
        mode: Mode::Soft,
        rate: (2, 5),
        limits: (4, 4),
        rows: &[
            Row::Charge(1, Err(HouseError::NotRunning)),
            Row::Charge(0, Err(HouseError::NotRunning)),
            Row::Charge(u64::MAX, Err(HouseError::NotRunning)),
            Row::ChargeServer(0, 1, Err(HouseError::NotRunning)),
            Row::ChargeServer(1, 1, Err(HouseError::NoSuchServer)),
            Row::Charges(1, Err(HouseError::NoSuchServer)),
            Row::Send(&[1, 1], 0),
            Row::Poll(0, Poll::Took(0)),
            Row::Charge(1, Err(HouseError::NotRunning)),
            Row::State(0, 2, 5, false),
            Row::Now(0),
            UNIT,
            Row::Charge(LIMIT, Err(HouseError::ClockEnd)),
            Row::ChargeServer(0, u64::MAX, Err(HouseError::ClockEnd)),
            Row::ChargeServer(1, u64::MAX, Err(HouseError::NoSuchServer)),
            Row::Charge(0, Ok(())),
            Row::State(0, 1, 5, false),
            Row::Now(1),
            Row::Advance(1, Ok(())),
            Row::Charge(1, Err(HouseError::NotRunning)),
            Row::Charge(u64::MAX, Err(HouseError::NotRunning)),
            Row::ChargeServer(0, 0, Err(HouseError::NotRunning)),
            Row::State(0, 1, 5, false),
            Row::Charges(0, Ok((0, 0))),
            Row::Now(2),
        ],
    },
];

#[test]
fn a_house_charges_the_server_that_runs(rt: HostRuntime) {
    plays_all(&rt, rt.alloc(), &CASES);
}

/// Returns a house of a soft and a throttled server with 2 ticks in every 5 each. The client of each sent a sum of
/// three ones, and is gone.
fn two_servers(rt: &impl Abort, alloc: Global) -> House<SumJob> {
    let servers = [(Mode::Soft, 2, 5), (Mode::Throttled, 2, 5)];
    let (house, mut clients) = house_of(rt, alloc, &servers, (4, 4));
    for client in &mut clients {
        sends(rt, alloc, ("two servers", 0), client, &[1, 1, 1], 0);
    }
    house
}

/// A unit of the throttled server's job, not its last.
const UNIT_OF_1: Row = Row::Unit(1, 0);

static OF_TWO: [Row; 29] = [
    Row::Poll(0, Poll::Took(0)),
    Row::Poll(1, Poll::Took(0)),
    UNIT,
    Row::ChargeServer(1, 1, Err(HouseError::NotRunning)),
    Row::ChargeServer(2, 1, Err(HouseError::NoSuchServer)),
    Row::Charge(1, Ok(())),
    Row::State(0, 2, 10, false),
    Row::State(1, 2, 5, false),
    // The deadline of server 0 is now the later one.
    UNIT_OF_1,
    Row::ChargeServer(0, 1, Err(HouseError::NotRunning)),
    Row::Charge(1, Ok(())),
    Row::State(0, 2, 10, false),
    Row::State(1, 0, 5, true),
    Row::Now(4),
    Row::Charges(0, Ok((1, 1))),
    Row::Charges(1, Ok((1, 1))),
    Row::Charges(2, Err(HouseError::NoSuchServer)),
    UNIT,
    Row::State(1, 2, 10, false),
    Row::Done(0, 0, 3),
    UNIT_OF_1,
    Row::ChargeServer(1, 2, Ok(())),
    Row::State(1, 0, 10, true),
    Row::Now(9),
    Row::Drain(Ok(())),
    Row::Now(11),
    Row::Results(0, Ok(&[3])),
    Row::Results(1, Ok(&[3])),
    Row::Charges(1, Ok((3, 2))),
];

#[test]
fn each_server_of_a_house_pays_for_its_own_units(rt: HostRuntime) {
    let mut house = two_servers(&rt, rt.alloc());
    let name = "each server pays for its own units";
    does_all(&rt, name, &mut house, &OF_TWO);
}
