//! The cases that are rows of calls.

use anyhow::{Result, bail};

/// A call that takes memory, or one that shows what such a call left.
#[derive(Clone, Copy)]
pub enum Call {
    Collector(CollectorCall),
    House(HouseCall),
    Client(ClientCall),
}

/// A call of a collector of one server's results.
#[derive(Clone, Copy)]
pub enum CollectorCall {
    /// A place for a result, without an announcement.
    MakeRoom,
    /// The announcement of a completion.
    Expect,
    /// The completion of the job with this number and this result.
    Take(u64, u64),
    /// The results that are there.
    Results,
}

/// A call of a house of one server.
#[derive(Clone, Copy)]
pub enum HouseCall {
    Poll,
    View,
    Turn,
    Run,
    Drain,
    Results,
    /// The results, handed out.
    TakeResults,
    /// A run until the client's end is taken and its jobs are finished.
    Close,
}

/// A call for the client of that house.
#[derive(Clone, Copy)]
pub enum ClientCall {
    /// A job that adds this one number up.
    Send(u32),
    /// How many messages stand in the ring.
    Settle,
    End,
}

/// A case: calls, each with the word for its result.
pub struct Rows {
    word: &'static str,
    /// The calls before the one under test.
    pub before: &'static [(&'static str, Call)],
    /// The call under test, and those after it.
    pub after: &'static [(&'static str, Call)],
}

/// The cases, by their words.
static CASES: [Rows; 6] = [
    // A collector makes a place for a result that is not announced.
    Rows {
        word: "collector_room",
        before: &[],
        after: &[
            ("first", Call::Collector(CollectorCall::MakeRoom)),
            ("take", Call::Collector(CollectorCall::Take(0, 6))),
            ("again", Call::Collector(CollectorCall::MakeRoom)),
            ("take", Call::Collector(CollectorCall::Take(0, 6))),
            ("results", Call::Collector(CollectorCall::Results)),
        ],
    },
    // A completion is announced to a collector.
    Rows {
        word: "expect",
        before: &[],
        after: &[
            ("first", Call::Collector(CollectorCall::Expect)),
            ("take", Call::Collector(CollectorCall::Take(0, 6))),
            ("again", Call::Collector(CollectorCall::Expect)),
            ("take", Call::Collector(CollectorCall::Take(0, 6))),
            ("take the next", Call::Collector(CollectorCall::Take(1, 7))),
            ("results", Call::Collector(CollectorCall::Results)),
        ],
    },
    // A house polls a ring with two messages.
    Rows {
        word: "poll",
        before: &[
            ("sent", Call::Client(ClientCall::Send(5))),
            ("sent", Call::Client(ClientCall::Send(7))),
        ],
        after: &[
            ("first", Call::House(HouseCall::Poll)),
            ("settle", Call::Client(ClientCall::Settle)),
            ("view", Call::House(HouseCall::View)),
            ("again", Call::House(HouseCall::Poll)),
            ("settle", Call::Client(ClientCall::Settle)),
            ("drain", Call::House(HouseCall::Drain)),
            ("results", Call::House(HouseCall::Results)),
        ],
    },
    // A house hands results out while a job is held.
    Rows {
        word: "take_results",
        before: &[
            ("sent", Call::Client(ClientCall::Send(5))),
            ("sent", Call::Client(ClientCall::Send(7))),
            ("poll", Call::House(HouseCall::Poll)),
            ("poll", Call::House(HouseCall::Poll)),
            ("run", Call::House(HouseCall::Run)),
        ],
        after: &[
            ("first", Call::House(HouseCall::TakeResults)),
            ("results", Call::House(HouseCall::Results)),
            ("again", Call::House(HouseCall::TakeResults)),
            ("drain", Call::House(HouseCall::Drain)),
            ("results", Call::House(HouseCall::Results)),
        ],
    },
    // A house with two messages in its ring takes a turn, and two more.
    Rows {
        word: "turn",
        before: &[
            ("sent", Call::Client(ClientCall::Send(5))),
            ("sent", Call::Client(ClientCall::Send(7))),
        ],
        after: &[
            ("first", Call::House(HouseCall::Turn)),
            ("view", Call::House(HouseCall::View)),
            ("again", Call::House(HouseCall::Turn)),
            ("next", Call::House(HouseCall::Turn)),
            ("results", Call::House(HouseCall::Results)),
        ],
    },
    // A house runs whose client has sent two jobs and its end.
    Rows {
        word: "run_until_closed",
        before: &[
            ("sent", Call::Client(ClientCall::Send(5))),
            ("sent", Call::Client(ClientCall::Send(7))),
            ("end", Call::Client(ClientCall::End)),
        ],
        after: &[
            ("first", Call::House(HouseCall::Close)),
            ("results", Call::House(HouseCall::Results)),
            ("again", Call::House(HouseCall::Close)),
            ("results", Call::House(HouseCall::Results)),
        ],
    },
];

/// Returns the calls of the case that this word names.
pub fn rows_of(word: &str) -> Result<&'static Rows> {
    for rows in &CASES {
        if rows.word == word {
            return Ok(rows);
        }
    }
    bail!("no such call: {word}")
}
