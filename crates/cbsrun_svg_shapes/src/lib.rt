//! The shapes of a picture of a run, as SVG. They stand at the places of ticks and of the parts of a row.
//!
//! All lengths are hundredths of a pixel. The only error of each call is out of memory.
#![tactic(auto)]

mod axis;
mod columns;
mod escape;
mod layout;
mod marks;
mod shapes;
mod spans;

pub use axis::Axis;
pub use columns::{Layer, append_columns, cell_counts, heights_of};
pub use escape::escaped;
pub use layout::Layout;
pub use marks::{
    append_arrivals, append_budget, append_completions, append_deadlines, append_refused,
};
pub use shapes::{append_label, append_path, append_stretch, append_titled, append_upright};
pub use spans::{Place, append_from_to, append_late, append_pale, append_span, bar_class};
