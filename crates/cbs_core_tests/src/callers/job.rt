//! A caller of cbs_job.

ghost use Rattle.std.specs.Prelude.{◌≡◌};
ghost use Rattle.cbs_job.specs.Work.{whole};

use cbs_job::{Task, Work};

/// Returns the whole result of a task, after doing all its units.
pub fn result_of<W: Work>(task: Task<W>) -> u64
    ensures { result ≡ whole W.meaning task }
{
    let mut running = task.start();
    while running.left() > 0 {
        running.step();
    }
    running.output()
}
