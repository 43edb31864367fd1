//! Numbers that size a load: the greatest budget of each server, the demand of its sources, and within how many ticks
//! their jobs are finished.
#![tactic(auto)]

mod asked;
mod budgets;
mod divisor;
mod lateness;
mod recoveries;
mod server_load;
mod shares;

pub use asked::Asked;
pub use budgets::{greatest_budget_at, greatest_budgets};
pub use divisor::greatest_common_divisor;
pub use lateness::greatest_delay;
pub use recoveries::recovery;
pub use server_load::{ServerLoad, least_within, promised_at_best, proposal_for, server_loads};
pub use shares::{is_within, left_over};
