//! Callers of cbs_rate, cbs_job, cbs_rules and cbs_core.

pub mod executor;
pub mod job;
pub mod rate;
pub mod rules;
