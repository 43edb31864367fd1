//! The lines of jobs. The only error of each call is out of memory.

ghost use Rattle.std.specs.Prelude.{◌≡◌, ◌<◌, ◌++◌, OnOk, flat_map, get_or, length, string_bytes};
ghost use Rattle.cbsrun_csv.specs.Jobs.{unfinished_jobs};
ghost use Rattle.cbsrun_csv.specs.Lines.{cell, job_line, late_cell, refused_line, server_lines, state_cell, time_cells};

use crate::job::CsvJob;
use crate::jobs::Jobs;
use cbsrun_text::append_pair;
use std::alloc::AllocError;

/// The header line: the names of the columns.
pub(crate) const HEADER: &str = "server,job,came,finished,response,late,charged,state\n";

/// Appends a cell after another one: a number, or nothing.
fn append_cell(text: &mut String, number: Option<u64>) -> Result<(), AllocError>
    ensures { OnOk result (string_bytes text.new ≡ string_bytes text.old ++ cell number) }
{
    match number {
        Some(number) => append_pair(text, ",", number),
        None => text.push_str(","),
    }
}

/// Returns the cell of whether a job is late.
fn late_cell(late: bool) -> &'static str
    ensures { result.now ≡ late_cell late }
{
    if late { ",1" } else { ",0" }
}

/// Returns the cell of the state of a job that ended at this tick or is unfinished, with the line's end.
fn state_cell(finish: Option<u64>) -> &'static str
    ensures { result.now ≡ state_cell finish }
{
    match finish {
        Some(_) => ",finished\n",
        None => ",unfinished\n",
    }
}

/// Appends the cells of when a job came, when it ended and how long that took.
#[tactic(auto, unfolding(crate::specs::Lines::time_cells))]
fn append_times(text: &mut String, job: &CsvJob) -> Result<(), AllocError>
    ensures { OnOk result (string_bytes text.new ≡ string_bytes text.old ++ time_cells job.now) }
{
    append_pair(text, ",", job.came)?;
    append_cell(text, job.finish)?;
    append_cell(text, job.response())
}

/// Appends the line of an accepted job of the server of this name, in a run that ends at the tick `end`.
#[tactic(auto, unfolding(crate::specs::Lines::job_line))]
fn append_job(text: &mut String, name: &str, end: u64, job: &CsvJob) -> Result<(), AllocError>
    ensures { OnOk result (string_bytes text.new ≡ string_bytes text.old
        ++ job_line name.now end job.now) }
{
    text.push_str(name)?;
    append_pair(text, ",", job.number)?;
    append_times(text, job)?;
    text.push_str(late_cell(job.is_late(end)))?;
    append_pair(text, ",", job.charged)?;
    text.push_str(state_cell(job.finish))
}

/// Appends the lines of accepted jobs.
fn append_jobs(text: &mut String, name: &str, end: u64, jobs: &[CsvJob]) -> Result<(), AllocError>
    ensures { OnOk result (string_bytes text.new ≡ string_bytes text.old
        ++ flat_map (job_line name.now end) jobs.now) }
{
    for job in jobs {
        append_job(text, name, end, job)?;
    }
    Ok(())
}

/// Appends the line of a refused job of the server of this name.
#[tactic(auto, unfolding(crate::specs::Lines::refused_line))]
fn append_refused(text: &mut String, name: &str, came: u64) -> Result<(), AllocError>
    ensures { OnOk result (string_bytes text.new ≡ string_bytes text.old
        ++ refused_line name.now came) }
{
    text.push_str(name)?;
    append_pair(text, ",,", came)?;
    text.push_str(",,,,,refused\n")
}

/// Appends the lines of refused jobs, which came at these ticks.
fn append_all_refused(text: &mut String, name: &str, refused: &[u64]) -> Result<(), AllocError>
    ensures { OnOk result (string_bytes text.new ≡ string_bytes text.old
        ++ flat_map (refused_line name.now) refused.now) }
{
    for came in refused {
        append_refused(text, name, *came)?;
    }
    Ok(())
}

impl Jobs {
    /// Returns the unfinished job at this place, with the ticks that were charged for its units.
    fn unfinished(&self, place: usize) -> CsvJob
        requires { place < length self.now.waiting }
        ensures { result ≡ get_or (unfinished_jobs self.now) place result }
    {
        let job = self.waiting[place];
        if place == 0 {
            job.with_charged(self.charged)
        } else {
            job
        }
    }

    /// Appends the lines of the unfinished jobs.
    fn append_unfinished(&self, text: &mut String, name: &str, end: u64) -> Result<(), AllocError>
        ensures { OnOk result (string_bytes text.new ≡ string_bytes text.old
            ++ flat_map (job_line name.now end) (unfinished_jobs self.now)) }
    {
        for place in 0..self.waiting.len() {
            append_job(text, name, end, &self.unfinished(place))?;
        }
        Ok(())
    }

    /// Appends the lines of all jobs: the finished ones, the unfinished and the refused.
    pub fn append_lines(&self, text: &mut String, name: &str, end: u64) -> Result<(), AllocError>
        ensures { OnOk result (string_bytes text.new ≡ string_bytes text.old
            ++ server_lines name.now end self.now) }
    {
        append_jobs(text, name, end, &self.finished)?;
        if let Some(job) = &self.newest {
            append_job(text, name, end, job)?;
        }
        self.append_unfinished(text, name, end)?;
        append_all_refused(text, name, &self.refused)
    }
}
