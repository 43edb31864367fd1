//! The legends: what the signs of a timeline mean.

/// The legend of the signs of ticks.
pub(crate) const LEGEND: &str = "\
a b c   a unit of job 0, 1, 2 ..; a capital where it used the budget up
.       has a job, waits      /  throttled, with a job      x  refused
^       a job comes           v  server's deadline          *  both
";

/// The legend of the signs of columns that have several ticks.
pub(crate) const COLUMN_LEGEND: &str = "\
1 to 9  ran in so many tenths of the column's ticks; # in all; + in fewer
.       has a job, waits      /  throttled, with a job
x       a job refused         !  a job late
";

/// The legend of the sign of charged ticks.
pub(crate) const CHARGED_LEGEND: &str = "\
$       charged for its last unit
";
