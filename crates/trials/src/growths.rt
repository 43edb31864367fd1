//! Makes the call that a word names, and prints the result. It prints the line `call` just before the call, and another
//! line just after it. Between the two, `scripts/growths` refuses memory. Most calls are then made once more, with
//! memory.

mod calls;
mod core_cases;
mod new_cases;
mod rows;
mod serving_cases;
mod wide;

use crate::telling::title;
use anyhow::Result;
use calls::make_rows;
use rows::rows_of;
use std::alloc::Global;
use std::thread::Threads;
use std::time::Clock;

/// The words of all calls.
static CASES: [&str; 15] = [
    "core",
    "make_room",
    "submit",
    "run_steps",
    "open_house",
    "feeds_of",
    "collector",
    "collector_room",
    "expect",
    "poll",
    "take_results",
    "turn",
    "run_until_closed",
    "serve_round",
    "serve",
];

/// Makes the call that this word names.
pub fn make<R: Print + Threads + Clock + Sync>(rt: &R, alloc: Global, case: &str) -> Result<()> {
    match case {
        "core" => new_cases::core(rt, alloc),
        "open_house" => new_cases::house(rt, alloc),
        "collector" => new_cases::collector(rt, alloc),
        "make_room" => core_cases::make_room(rt, alloc),
        "submit" => core_cases::submit(rt, alloc),
        "run_steps" => core_cases::run_steps(rt, alloc),
        "feeds_of" => serving_cases::feeds(rt, alloc),
        "serve_round" => serving_cases::serve_three(rt, alloc, true),
        "serve" => serving_cases::serve_three(rt, alloc, false),
        _ => make_rows(rt, alloc, rows_of(case)?),
    }
}

/// Makes all calls, one after another.
pub fn make_all<R: Print + Threads + Clock + Sync>(rt: &R, alloc: Global) -> Result<()> {
    for &case in &CASES {
        title(rt, case);
        make(rt, alloc, case)?;
    }
    Ok(())
}
