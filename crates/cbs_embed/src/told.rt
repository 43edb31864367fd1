//! What a run, a turn and a pacer tell.

use cbs_core::Ran;
use cbs_pacer::Next;

/// The result of a run, and the token of the job that got the unit.
#[derive(Clone, Copy, Debug, PartialEq, Eq)]
pub struct Unit {
    /// The result of the run.
    pub ran: Ran,
    /// The token of the job that got the unit, or 0.
    pub token: u64,
}

/// The result of a turn, the token of the job that got a unit, and whether all is over.
#[derive(Clone, Copy, Debug, PartialEq, Eq)]
pub struct Turn {
    /// The result of the turn.
    pub turn: cbs_house::Turn,
    /// The token of the job that got a unit, or 0.
    pub token: u64,
    /// Whether every server is closed and every job is finished, after the turn.
    pub over: bool,
}

/// What the host of a house does next, and what its pacer tells besides.
#[derive(Clone, Copy, Debug, PartialEq, Eq)]
pub struct Asked {
    /// What the host does next.
    pub next: Next,
    /// The token of the job whose unit it does, or 0.
    pub token: u64,
    /// How many messages were taken, at most one of each server.
    pub taken: u32,
}
