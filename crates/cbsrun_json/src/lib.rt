//! Objects of JSON, put together key by key.
#![tactic(auto)]

mod line;
mod members;
mod scalar;

pub use line::line_of;
pub use members::{ToJson, object_of, put_all};
pub use scalar::{Scalar, told};
