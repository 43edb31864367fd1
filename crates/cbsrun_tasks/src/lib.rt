//! Task files: a plan of servers with their modes, the limits of their queues, and a list of steps. They are read from
//! the bytes of a TOML document.
#![tactic(auto)]

mod file;
mod kinds;
mod stream;
mod task_file;
mod top;

pub use cbsrun_toml_tables::{Bounded, FileFault, FileKind, MEMORY, Place, wants_within};
pub use file::{read_file, read_file_within};
pub use kinds::{Found, find_within};
pub use task_file::{Parts, TaskFile};
