//! The reasons why a house or a client refuses.

ghost use Rattle.std.specs.Prelude.{◌≡◌};

use cbs_core::CoreError;
use thiserror::Error;

/// The reason why a house refuses a call.
#[derive(Clone, Copy, Debug, PartialEq, Eq, Error)]
pub enum HouseError {
    /// The backlog is not within 1 to 4096 jobs.
    #[error("the backlog is not within 1 to 4096 jobs")]
    BadBacklog = 1,
    /// The ring is not within 1 to [`MAX_RING`](crate::MAX_RING) messages.
    #[error("the ring is not within 1 to 1024 messages")]
    BadRing = 2,
    /// An allocation was refused.
    #[error("out of memory")]
    OutOfMemory = 3,
    /// No server has that number.
    #[error("there is no such server")]
    NoSuchServer = 4,
    /// The clock would pass its end, or stands there with a job unfinished.
    #[error("the clock would pass its end, 1000000000000 ticks, or stands there with a job unfinished")]
    ClockEnd = 5,
    /// The clients did not send all their messages in the rounds that they are given.
    #[error("the clients did not send all in the rounds that they are given")]
    Stalled = 6,
    /// The server did not run the last unit, or a tick has passed since that was not charged for the unit.
    #[error("the server did not run the last unit, or other ticks have passed since")]
    NotRunning = 7,
}

impl HouseError {
    ghost use Rattle.cbs_clients.specs.Errors.{house_error_number, house_error_name, charge_error};

    /// Returns the error's number, from 1.
    pub fn number(self) -> u8
        ensures { result ≡ house_error_number self }
    {
        self as u8
    }

    /// Returns the error's name: that of its variant.
    pub fn name(self) -> &'static str
        ensures { result.now ≡ house_error_name self }
    {
        match self {
            HouseError::BadBacklog => "BadBacklog",
            HouseError::BadRing => "BadRing",
            HouseError::OutOfMemory => "OutOfMemory",
            HouseError::NoSuchServer => "NoSuchServer",
            HouseError::ClockEnd => "ClockEnd",
            HouseError::Stalled => "Stalled",
            HouseError::NotRunning => "NotRunning",
        }
    }

    /// Returns the house's error for an error of its core on a charge or an early end.
    pub(crate) fn of_charge(error: CoreError) -> HouseError
        ensures { result ≡ charge_error error }
    {
        match error {
            CoreError::NoSuchServer => HouseError::NoSuchServer,
            CoreError::NotRunning => HouseError::NotRunning,
            _ => HouseError::ClockEnd,
        }
    }
}

/// The reason why a client sends no message.
#[derive(Clone, Copy, Debug, PartialEq, Eq, Error)]
pub enum SendError {
    /// The client has ended.
    #[error("the client has ended")]
    Ended = 1,
    /// The ring has no free slot, or the client has sent 2^64 - 1 jobs.
    #[error("the ring is full")]
    RingFull = 2,
}

impl SendError {
    ghost use Rattle.cbs_clients.specs.Errors.{send_error_number, send_error_name};

    /// Returns the error's number, from 1.
    pub fn number(self) -> u8
        ensures { result ≡ send_error_number self }
    {
        self as u8
    }

    /// Returns the error's name: that of its variant.
    pub fn name(self) -> &'static str
        ensures { result.now ≡ send_error_name self }
    {
        match self {
            SendError::Ended => "Ended",
            SendError::RingFull => "RingFull",
        }
    }
}
