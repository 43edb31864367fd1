//! Simulation: a core runs a load of releases, step by step, up to a tick.
#![tactic(auto)]

mod alone;
mod charge;
mod driver;
mod load;
mod load_job;
mod merged;
mod moves;
mod range;
mod release;
mod releases;
mod seen;
mod source;
mod terms;
mod turns;

pub use alone::simulate_plan;
pub use driver::simulate;
pub use load::load_of;
pub use load_job::LoadJob;
pub use merged::Merged;
pub use range::Range;
pub use release::Release;
pub use releases::Releases;
pub use seen::seen_by;
pub use source::Source;
pub use terms::SourceTerms;
