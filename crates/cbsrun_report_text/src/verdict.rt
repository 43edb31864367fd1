//! The first line of a report.

ghost use Rattle.std.specs.Prelude.{◌≡◌, ◌++◌, ◌≤◌, OnOk, length, position, string_bytes};
ghost use Rattle.cbsrun_report_text.specs.Reports.{released, sum_of};
ghost use Rattle.cbsrun_report_text.specs.Notes.{is_wrong, not_in_time, late_text, refused_text, wrong_text, others_text, server_text, first_text, verdict_text};

use crate::report::ServerReport;
use crate::totals::Total;
use std::alloc::AllocError;
use std::fmt::Write;

/// Appends how many of the accepted jobs of a server are late.
fn append_late(text: &mut String, server: &ServerReport) -> Result<(), AllocError>
    ensures { OnOk result (string_bytes text.new ≡ string_bytes text.old
        ++ late_text server.now.figures) }
{
    let late = server.late();
    let accepted = server.accepted();
    write!(text, "{late} of {accepted} jobs late")
}

/// Appends how many of the jobs that came to a server were refused.
fn append_refused(text: &mut String, server: &ServerReport) -> Result<(), AllocError>
    ensures { OnOk result (string_bytes text.new ≡ string_bytes text.old
        ++ refused_text server.now.figures) }
{
    let refused = server.figures.refused;
    let released = server.released();
    write!(text, "{refused} of {released} refused")
}

/// Appends what is wrong with a server: late jobs, refused jobs, or both.
fn append_wrong(text: &mut String, server: &ServerReport) -> Result<(), AllocError>
    ensures { OnOk result (string_bytes text.new ≡ string_bytes text.old
        ++ wrong_text server.now.figures) }
{
    if server.figures.refused == 0 {
        return append_late(text, server);
    }
    if server.late() == 0 {
        return append_refused(text, server);
    }
    append_late(text, server)?;
    text.push_str(", ")?;
    append_refused(text, server)
}

/// Appends how many more servers there are.
fn append_others(text: &mut String, count: usize) -> Result<(), AllocError>
    ensures { OnOk result (string_bytes text.new ≡ string_bytes text.old ++ others_text count) }
{
    match count {
        0 => Ok(()),
        1 => text.push_str(", and 1 server more"),
        _ => write!(text, ", and {count} servers more"),
    }
}

/// Returns the place of the first server with a job that is late or was refused, or `None` if there is none.
fn first_wrong(servers: &[ServerReport]) -> Option<usize>
    ensures { result ≡ position is_wrong servers.now }
{
    servers.iter().position(|server| !server.is_in_time())
}

/// Returns how many servers have a job that is late or was refused.
pub(crate) fn count_wrong(servers: &[ServerReport]) -> usize
    ensures { result ≡ length (not_in_time servers.now) }
{
    servers.iter().filter(|server| !server.is_in_time()).count()
}

/// Appends a server that is not in time, with what is wrong with it, and how many more such servers there are.
fn append_server(text: &mut String, server: &ServerReport, others: usize) -> Result<(), AllocError>
    ensures { OnOk result (string_bytes text.new ≡ string_bytes text.old
        ++ server_text server.now others) }
{
    let name = &server.name;
    write!(text, "not in time: {name}: ")?;
    append_wrong(text, server)?;
    append_others(text, others)
}

/// Appends the first server with a job that is late or was refused, and how many more there are. If there is none,
/// appends that.
fn append_first(text: &mut String, servers: &[ServerReport]) -> Result<(), AllocError>
    requires { length servers.now ≤ 64 }
    ensures { OnOk result (string_bytes text.new ≡ string_bytes text.old
        ++ first_text (sum_of released servers.now) (not_in_time servers.now)) }
{
    match first_wrong(servers) {
        Some(place) => append_server(text, &servers[place], count_wrong(&servers[place + 1..])),
        None => {
            let released = Total::Released.of(servers);
            write!(text, "in time: no job late, none refused, of {released}")
        }
    }
}

/// Appends the verdict: that all jobs are in time, or the first server with a job that is late or was refused.
#[tactic(auto, unfolding(crate::specs::Notes::verdict_text))]
pub(crate) fn append_verdict(text: &mut String, servers: &[ServerReport]) -> Result<(), AllocError>
    requires { length servers.now ≤ 64 }
    ensures { OnOk result (string_bytes text.new ≡ string_bytes text.old
        ++ verdict_text servers.now) }
{
    append_first(text, servers)?;
    text.push_str("\n")
}
