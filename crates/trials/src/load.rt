//! A load: servers, and the jobs of their clients.

use crate::setup::{admit, no_servers, task_of};
use anyhow::{Result, bail, ensure};
use cbs_job::{FileJob, Task};
use cbs_rules::{Mode, Setup};
use std::alloc::Global;
use std::str::SplitWhitespace;

/// The servers, their jobs, and the seed of the delays.
#[derive(Drop)]
pub struct Load {
    pub seed: u64,
    pub backlog: u64,
    pub ring: u64,
    pub setup: Setup,
    /// The jobs of each server, in order.
    pub jobs: Vec<Vec<Task<FileJob>>>,
}

/// Reads a load, and returns it. Its first line is `SEED BACKLOG RING`. Each further line is
/// `server BUDGET PERIOD MODE`, or `job SERVER KIND NUMBERS..` for a server of a line above.
pub fn read_load(alloc: Global, text: &str) -> Result<Load> {
    let mut load = Load {
        seed: 0,
        backlog: 0,
        ring: 0,
        setup: no_servers(),
        jobs: Vec::new(alloc),
    };
    read_lines(alloc, &mut load, text)?;
    Ok(load)
}

/// Reads the lines of this text into the load.
fn read_lines(alloc: Global, load: &mut Load, text: &str) -> Result<()> {
    let mut number = 0u64;
    for line in text.lines() {
        number = number.saturating_add(1);
        if let Err(error) = read_line(alloc, load, number, &mut line.split_whitespace()) {
            bail!("line {number}: {error}");
        }
    }
    ensure!(number > 0, "line 1: there is none");
    Ok(())
}

/// Reads the line with this number into the load.
fn read_line(
    alloc: Global,
    load: &mut Load,
    number: u64,
    words: &mut SplitWhitespace<'_>,
) -> Result<()> {
    if number == 1 {
        return read_first(load, words);
    }
    match words.next() {
        Some("server") => read_server(alloc, load, words),
        Some("job") => read_job(alloc, &mut load.jobs, words),
        _ => bail!("neither a server nor a job"),
    }
}

/// Reads the numbers of the first line.
fn read_first(load: &mut Load, words: &mut SplitWhitespace<'_>) -> Result<()> {
    load.seed = number(words)?;
    load.backlog = number(words)?;
    load.ring = number(words)?;
    Ok(())
}

/// Reads one more server, which has no job yet.
fn read_server(alloc: Global, load: &mut Load, words: &mut SplitWhitespace<'_>) -> Result<()> {
    let (budget, period) = (number(words)?, number(words)?);
    admit(&mut load.setup, budget, period, mode(words)?)?;
    load.jobs.push(Vec::new(alloc))?;
    Ok(())
}

/// Returns the mode that the next word names.
fn mode(words: &mut SplitWhitespace<'_>) -> Result<Mode> {
    match words.next() {
        Some("soft") => Ok(Mode::Soft),
        Some("throttled") => Ok(Mode::Throttled),
        _ => bail!("neither soft nor throttled"),
    }
}

/// Reads one more job.
fn read_job(
    alloc: Global,
    jobs: &mut [Vec<Task<FileJob>>],
    words: &mut SplitWhitespace<'_>,
) -> Result<()> {
    let server = number(words)? as usize;
    let Some(list) = jobs.get_mut(server) else {
        bail!("no such server");
    };
    list.push(read_task(alloc, words)?)?;
    Ok(())
}

/// Returns the task of a kind and its numbers.
fn read_task(alloc: Global, words: &mut SplitWhitespace<'_>) -> Result<Task<FileJob>> {
    let kind = words.next().unwrap_or("");
    let mut numbers = Vec::new(alloc);
    for word in words {
        read_unit(&mut numbers, word)?;
    }
    task_of(kind, numbers)
}

/// Reads one more number of a job.
fn read_unit(numbers: &mut Vec<u32>, word: &str) -> Result<()> {
    numbers.push(word.parse()?)?;
    Ok(())
}

/// Returns the next word as a number.
fn number(words: &mut SplitWhitespace<'_>) -> Result<u64> {
    let Some(word) = words.next() else {
        bail!("a number is missing");
    };
    Ok(word.parse()?)
}
