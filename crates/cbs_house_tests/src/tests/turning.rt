//! Tests of turns that a house takes by itself.

use super::calls::gave;
use super::polling::one_client;
use super::rows::{Case, Row, plays_all};
use super::{same, sum_of};
use cbs_house::{Client, Poll, SendError};
use cbs_job::SumJob;
use cbs_rules::Mode;
use std::alloc::Global;
use std::process::Abort;

/// A client that starts late.
const LATE: [Row; 7] = [
    Row::IdleTurns,
    Row::Now(0),
    Row::Send(&[5], 0),
    Row::DoneTurn(1, 0, 5),
    Row::Now(1),
    Row::Turn(0, 0),
    Row::Now(1),
];

/// A client that ends at once.
const ENDED: [Row; 5] = [
    Row::End(Ok(())),
    Row::Turn(1, 0),
    Row::IdleTurns,
    Row::Now(0),
    Row::Results(0, Ok(&[])),
];

static CASES: [Case; 10] = [
    Case {
        name: "a soft house waits for a client that starts late",
        mode: Mode::Soft,
        rate: (2, 5),
        limits: (4, 4),
        rows: &LATE,
    },
    Case {
        name: "a throttled house waits for a client that starts late",
        mode: Mode::Throttled,
        rate: (2, 5),
        limits: (4, 4),
        rows: &LATE,
    },
    Case {
        name: "a client of a soft house that ends at once takes no time",
        mode: Mode::Soft,
        rate: (2, 5),
        limits: (4, 4),
        rows: &ENDED,
    },
    Case {
        name: "a client of a throttled house that ends at once takes no time",
        mode: Mode::Throttled,
        rate: (2, 5),
        limits: (4, 4),
        rows: &ENDED,
    },
    Case {
        name: "a turn advances to the replenishment",
        mode: Mode::Throttled,
        rate: (1, 4),
        limits: (4, 4),
        rows: &[
            Row::Send(&[1], 0),
            Row::Send(&[2], 1),
            Row::DoneTurn(1, 0, 1),
            // The budget is used up at tick 1, and comes back at the deadline, 4.
            Row::Turn(1, 3),
            Row::Now(4),
            Row::DoneTurn(0, 1, 2),
            // The server is throttled again, but no job is held.
            Row::Turn(0, 0),
            Row::Now(5),
        ],
    },
    Case {
        name: "a soft server goes on without an advance",
        mode: Mode::Soft,
        rate: (1, 4),
        limits: (4, 4),
        rows: &[
            Row::Send(&[1], 0),
            Row::Send(&[2], 1),
            Row::DoneTurn(1, 0, 1),
            Row::DoneTurn(1, 1, 2),
            Row::Now(2),
        ],
    },
    Case {
        name: "results are handed out between turns",
        mode: Mode::Soft,
        rate: (2, 5),
        limits: (4, 4),
        rows: &[
            Row::Send(&[5], 0),
            Row::Send(&[7], 1),
            Row::Send(&[9], 2),
            Row::DoneTurn(1, 0, 5),
            Row::DoneTurn(1, 1, 7),
            Row::TakeResults(0, Ok(&[5, 7])),
            Row::DoneTurn(1, 2, 9),
            Row::TakeResults(0, Ok(&[9])),
            Row::Turn(0, 0),
            Row::TakeResults(0, Ok(&[])),
        ],
    },
    Case {
        name: "a turn takes what a poll before it left",
        mode: Mode::Soft,
        rate: (2, 5),
        limits: (4, 4),
        rows: &[
            Row::Send(&[5], 0),
            Row::Send(&[7], 1),
            Row::Poll(0, Poll::Took(0)),
            Row::DoneTurn(1, 0, 5),
            Row::DoneTurn(0, 1, 7),
            Row::IdleTurns,
            Row::Send(&[9], 2),
            Row::DoneTurn(1, 2, 9),
        ],
    },
    Case {
        name: "a turn takes what a full backlog left, with no send between",
        mode: Mode::Soft,
        rate: (2, 5),
        limits: (1, 4),
        rows: &[
            Row::Send(&[5], 0),
            Row::Send(&[7], 1),
            Row::Poll(0, Poll::Took(0)),
            // The backlog is full, so the turn takes nothing.
            Row::DoneTurn(0, 0, 5),
            Row::DoneTurn(1, 1, 7),
            Row::IdleTurns,
            Row::Send(&[9], 2),
            Row::DoneTurn(1, 2, 9),
        ],
    },
    Case {
        name: "a turn takes what was only looked at",
        mode: Mode::Soft,
        rate: (2, 5),
        limits: (4, 4),
        rows: &[
            Row::IdleTurns,
            Row::Send(&[5], 0),
            Row::Settle(1),
            Row::DoneTurn(1, 0, 5),
            Row::Settle(0),
            Row::Turn(0, 0),
        ],
    },
];

#[test]
fn each_turn_answers_as_by_hand(rt: HostRuntime) {
    plays_all(&rt, rt.alloc(), &CASES);
}

/// Sends as many as fit of the jobs from this number on, each a unit of its number. Returns the next number.
fn fills(rt: &impl Abort, alloc: Global, client: &mut Client<SumJob>, from: u32) -> u32 {
    for number in from..10 {
        if let Err(refused) = client.send(sum_of(rt, alloc, &[number])) {
            same(rt, "error", refused.error, SendError::RingFull);
            return number;
        }
    }
    10
}

#[test]
fn more_than_ring_and_backlog_hold_comes_through_in_order(rt: HostRuntime) {
    let alloc = rt.alloc();
    for mode in [Mode::Soft, Mode::Throttled] {
        let (mut house, mut client) = one_client(&rt, alloc, mode, (1, 4), (1, 2));
        let mut next = 0;
        // A throttled server has one unit in each four ticks: one turn runs it, and one advances.
        for _turn in 0..20 {
            next = fills(&rt, alloc, &mut client, next);
            house.turn();
        }
        same(&rt, "sent", client.sent(), 10);
        gave(&rt, &house, 0, &[0, 1, 2, 3, 4, 5, 6, 7, 8, 9]);
    }
}
