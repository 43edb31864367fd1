//! Jobs as step machines: work that is done in units, one at a time.
#![tactic(auto)]

mod completion;
mod file;
mod peak;
mod running;
mod sum;
mod task;
mod work;

pub use completion::Completion;
pub use file::FileJob;
pub use peak::PeakJob;
pub use running::Running;
pub use sum::SumJob;
pub use task::{MAX_UNITS, Task, TaskError, TaskRefused};
pub use work::Work;
