//! The results of a poll.

/// The result of a poll of a server.
#[derive(Clone, Copy, Debug, PartialEq, Eq)]
pub enum Poll {
    /// The server is closed, or no message is seen in its ring. Nothing was popped.
    Nothing,
    /// The next message was a job. It was accepted, with this number.
    Took(u64),
    /// The next message was the end. The server is closed from then on.
    Closed,
    /// A message is seen, but the backlog of the server is full. Nothing was popped.
    Full,
    /// A message is seen, but memory for it was refused. Nothing was popped.
    OutOfMemory,
    /// There is no such server. Nothing was popped.
    NoSuchServer,
}
