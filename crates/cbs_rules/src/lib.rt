//! The rules of scheduling for one server: its budget, its deadline, and when it is throttled.
#![tactic(auto)]

mod mode;
mod modes;
mod server_state;
mod setup;

pub use mode::Mode;
pub use modes::Modes;
pub use server_state::{LIMIT, MAX_DEADLINE, ServerState};
pub use setup::Setup;
