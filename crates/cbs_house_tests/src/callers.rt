//! Callers of cbs_house and cbs_embed.

pub mod house;
pub mod promises;
pub mod serving;
