//! The lines that serving a task file writes.

ghost use Rattle.std.specs.Prelude.{◌≡◌, ◌++◌, IfOk, OnOk, length, string_bytes};
ghost use Rattle.cbs_clients.specs.Houses.{core_of, results_of};
ghost use Rattle.cbsrun_commands.specs.ResultLines.{server_line, kept_lines};

use cbs_house::House;
use cbs_job::FileJob;
use cbsrun_text::append_pair;
use std::alloc::{AllocError, Global};

/// Appends the line of a server with these results. The only error is out of memory.
#[tactic(auto, unfolding(crate::specs::ResultLines::server_line))]
fn append_line(text: &mut String, server: u16, results: &[u64]) -> Result<(), AllocError>
    ensures { OnOk result (string_bytes text.new ≡ string_bytes text.old
        ++ server_line server results.now) }
{
    append_pair(text, "server ", u64::from(server))?;
    text.push_str(":")?;
    for value in results {
        append_pair(text, " ", *value)?;
    }
    text.push_str("\n")
}

/// Returns the lines of all servers of a house, in order of their numbers, with the results that the house keeps. The
/// only error is out of memory.
pub fn result_text(alloc: Global, house: &House<FileJob>) -> Result<String, AllocError>
    ensures { IfOk result (λ text. string_bytes text
        ≡ kept_lines (results_of house.now) (length (core_of house.now).faces)) }
{
    let mut text = String::new(alloc);
    for server in 0..house.servers() {
        let results = house.results(server).unwrap();
        append_line(&mut text, server, results)?;
    }
    Ok(text)
}
