//! The parts that are tried from outside: calls to which scripts refuse memory, and loads that are served with random
//! delays.
//!
//! `growth CALL` makes the call that the word names. `soak` serves the load on standard input. With no word, all calls
//! are made in turn and the load is served.
#![tactic(auto)]

mod growths;
mod load;
mod setup;
mod soak;
mod telling;

use anyhow::{Context, Result, bail};
use std::alloc::Global;
use std::env;
use std::io::Input;
use std::thread::Threads;
use std::time::Clock;
use telling::title;

/// Tries both parts.
fn try_all<R: Print + Input + Threads + Clock + Sync>(rt: &R, alloc: Global) -> Result<()> {
    growths::make_all(rt, alloc)?;
    title(rt, "soak");
    soak::serve_input(rt, alloc)
}

/// Tries the part that a word names, with what the next word gives it.
fn try_part<R: Print + Input + Threads + Clock + Sync>(
    rt: &R,
    alloc: Global,
    part: &str,
    given: Option<&str>,
) -> Result<()> {
    match part {
        "growth" => growths::make(rt, alloc, given.context("usage: growth CALL")?),
        "soak" => soak::serve_input(rt, alloc),
        _ => bail!("usage: [growth CALL | soak]"),
    }
}

fn main(rt: HostRuntime) -> Result<()> {
    let mut words = env::args(&rt)?.skip(1);
    match words.next() {
        None => try_all(&rt, rt.alloc()),
        Some(part) => try_part(&rt, rt.alloc(), &part, words.next().as_deref()),
    }
}
