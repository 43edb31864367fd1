//! The rules for the steps of an executor of Constant Bandwidth Servers, and the laws for whole lists of steps. They
//! say who runs, what reply each step has, and that no server is late or takes more than its share. The crate contains
//! no executor.
#![tactic(auto)]

mod charges;
mod error;
mod reply;
mod step;
mod theorem;
mod view;

pub use charges::Charges;
pub use error::CoreError;
pub use reply::{Ran, Reply, SubmitRefused};
pub use step::{Step, StepsRefused};
pub use theorem::all_punctual;
pub use view::ServerView;
