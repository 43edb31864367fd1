//! The jobs of a run, as CSV.

ghost use Rattle.std.specs.Prelude.{◌≡◌, IfOk, OnOk, map, string_bytes};
ghost use Rattle.std.specs.Bool.{OnTrue};
ghost use Rattle.cbsrun_csv.specs.Csv.{IsCsv};

use crate::progress::{Progress, Telling};
use crate::run::Run;
use cbsrun_csv::CsvView;
use std::alloc::{AllocError, Global};

/// Returns the names of the servers of a run, by number. The only error is out of memory.
pub fn names_of<R: Run>(alloc: Global, run: &R) -> Result<Vec<String>, AllocError>
    ensures { IfOk result (λ names. map string_bytes names.items ≡ (R.run run.now).names) }
{
    // Reading the modes gives the proof that each server has a name.
    let _modes = run.modes();
    let servers = run.plan().len() as u16;
    let mut names = Vec::with_capacity(alloc, usize::from(servers))?;
    for server in 0..servers {
        names.push(run.name(alloc, server)?)?;
    }
    Ok(names)
}

/// Returns the jobs of a run, whose steps it makes, as CSV: see [`CsvView`]. Reports to `progress` now and then how far the
/// run is, if its end is known. A load is unchanged. The only error is out of memory.
pub fn csv_of<R: Run, P: Progress>(
    alloc: Global,
    run: &mut R,
    progress: &mut P,
) -> Result<String, AllocError>
    ensures csv { IfOk result (λ text. IsCsv (R.run run.old).names (R.run run.old).end
        (R.run run.old).seen (string_bytes text)) }
    ensures lawful { OnOk result (R.lawful run.old) }
    ensures leaves { OnTrue R.repeats (run.new ≡ run.old) }
{
    let names = names_of(alloc, run)?;
    let view = CsvView::new(alloc, names.len())?;
    let mut telling = Telling::new(view, run.until());
    let shown = run.show(alloc, &mut telling, progress);
    progress.end();
    let end = shown?;
    telling.view.text(alloc, &names, end)
}
