//! The calls for a host program that is not written in Rattle. It gets handles of houses and clients, and a job whose
//! units the host does itself.
#![tactic(auto)]

mod box_ptr;
pub mod calls;
mod handle;
mod held;
mod in_time;
mod job;
mod on_client;
mod on_house;
mod opening;
mod parts;
mod planning;
mod refusal;
mod server;
mod texts;
mod told;

pub use cbs_rules::Setup;
pub use handle::Handle;
pub use held::Held;
pub use job::UnitJob;
pub use opening::open;
pub use planning::{admit, greatest_budget, mode_of, take_all, whole_processor};
pub use refusal::{HandleError, Refusal};
pub use server::Server;
pub use texts::text_of;
pub use told::{Asked, Turn, Unit};
