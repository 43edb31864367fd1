//! A caller of cbs_core.

ghost use Rattle.cbs_core.specs.Held.{KeepsBudgets};

use cbs_core::{Core, Ran};
use cbs_job::{Task, Work};

/// Gives a job to server 0, and runs until a job is done. Returns its result, or `None` if no job is done in `units`
/// units.
pub fn first_result<W: Work>(core: &mut Core<W>, task: Task<W>, units: u32) -> Option<u64>
    ensures { KeepsBudgets core.new }
{
    core.submit(0, task).ok()?;
    for _unit in 0..units {
        if let Ran::Done(done) = core.run() {
            return Some(done.result);
        }
    }
    None
}
