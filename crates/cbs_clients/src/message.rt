//! The messages that a client sends.

use cbs_job::{Task, Work};

/// A message in a client's ring.
#[derive(Drop)]
pub enum Message<W: Work> {
    /// A job for the client's server.
    Job(Task<W>),
    /// No further job: the server is to be closed.
    End,
}
