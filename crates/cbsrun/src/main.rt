//! `cbsrun` runs task files and loads: jobs on Constant Bandwidth Servers, under earliest deadline first.
#![tactic(auto)]

mod bytes;
mod lost;
mod progress;

ghost use Rattle.std.specs.Prelude.{◌≡◌, ◌-◌, ◌<◌, ◌^◌};
ghost use Rattle.cbsrun_io.specs.Writers.{MayWrite};

use crate::bytes::{Unread, bytes_of, write_reason};
use crate::lost::write_loss;
use crate::progress::Teller;
use cbsrun_command_line::{WordsFault, read_words};
use cbsrun_commands::{
    Action, Asked, BAD_FILE, ByteOutput, DONE, Form, Listing, MEMORY_VARIABLE, Progress, RUN_FAULT,
    RecordForm, RunError, SweepForm, ToWrite, Verb, WRONG_WORDS, check_bytes_within, cut_after,
    draw_load_within, draw_record_within, draw_tasks_within, is_record, memory_bound,
    record_again_within, record_load_within, record_tasks_within, replay_record_within,
    report_bytes_within, report_record_within, run_bytes_within, simulate_bytes_within,
    simulate_jobs_within, simulate_lines_within, size_bytes_within, sweep_bytes_within,
    write_pieces, write_read_fault, write_run_fault,
};
use cbsrun_refusal_texts::printable;
use cbsrun_tasks::MEMORY;
use cbsrun_text_colours::Painted;
use std::alloc::{AllocError, Global};
use std::env;
use std::env::VarError;
use std::io::{ErrorKind, IsTerminal};
use std::process::ExitCode;
use std::thread::{Threads, available_parallelism};
use std::time::Clock;

/// Returns the words of the command line.
fn words_of(rt: &HostRuntime, alloc: Global) -> Result<Vec<String>, WordsFault> {
    match env::args(rt) {
        Ok(words) => Ok(words.collect(alloc)?),
        Err(error) if error.kind() == ErrorKind::OutOfMemory => Err(WordsFault::OutOfMemory),
        Err(_) => {
            let text = String::from_str(alloc, "cbsrun: the command line is not UTF-8\n")?;
            Err(WordsFault::Usage(text))
        }
    }
}

/// Returns the fault of an environment variable whose bound on memory is no number.
fn no_bound(alloc: Global) -> Result<WordsFault, AllocError> {
    let text = String::from_str(alloc, "cbsrun: CBSRUN_MEMORY is no whole number of MiB\n")?;
    Ok(WordsFault::Usage(text))
}

/// Returns how much memory the file may need, in bytes.
fn memory_of(rt: &HostRuntime, alloc: Global) -> Result<u64, WordsFault> {
    match env::var(rt, MEMORY_VARIABLE) {
        Ok(mebibytes) => match memory_bound(mebibytes.as_str()) {
            Ok(memory) => Ok(memory),
            Err(_) => Err(no_bound(alloc)?),
        },
        Err(VarError::NotPresent) => Ok(MEMORY),
        Err(VarError::NotUnicode) => Err(no_bound(alloc)?),
        Err(VarError::OutOfMemory) => Err(WordsFault::OutOfMemory),
    }
}

/// Returns the request of the command line, and how much memory its file may need, in bytes.
fn asked_of(rt: &HostRuntime, alloc: Global) -> Result<(Asked, u64), WordsFault> {
    let asked = read_words(alloc, words_of(rt, alloc)?)?;
    Ok((asked, memory_of(rt, alloc)?))
}

/// Returns how many threads many runs are split among: as many as there are processors, or one if that is not known.
fn processors(rt: &impl Threads) -> usize {
    match available_parallelism(rt) {
        Ok(count) => count.get(),
        Err(_) => 1,
    }
}

/// Returns the form of a record that is a tape, or else a text.
fn form_of(taped: bool) -> RecordForm {
    if taped {
        RecordForm::Tape
    } else {
        RecordForm::Text
    }
}

/// Runs the command that the command line asks for on the bytes of the file `name`, and returns the status. It runs and
/// serves on `threads`.
fn answered<R: Threads + Clock + Sync, P: Progress, O: ByteOutput, E: ByteOutput>(
    threads: &R,
    alloc: Global,
    memory: u64,
    asked: &Asked,
    name: &str,
    bytes: &[u8],
    progress: &mut P,
    out: &mut O,
    err: &mut E,
) -> u8
    requires out { MayWrite (O.state out.old) }
    requires err { MayWrite (E.state err.old) }
{
    let servers = asked.servers.as_slice();
    match asked.action {
        Action::Check { form, strict } => {
            check_bytes_within(alloc, memory, form, strict, name, bytes, out, err)
        }
        Action::Size { all } => { size_bytes_within(alloc, memory, all, name, bytes, out, err) }
        Action::ReportLoad(report) => {
            simulate_bytes_within(alloc, memory, report, name, bytes, progress, out, err)
        }
        Action::ListLoad(Listing::Lines, changes) => {
            simulate_lines_within(alloc, memory, changes, name, bytes, out, err)
        }
        Action::ListLoad(Listing::Csv, changes) => {
            simulate_jobs_within(alloc, memory, changes, name, bytes, progress, out, err)
        }
        Action::ListLoad(Listing::Record, changes) => {
            let form = RecordForm::Text;
            record_load_within(alloc, memory, form, changes, name, bytes, out, err)
        }
        Action::ListLoad(Listing::Tape, changes) => {
            let form = RecordForm::Tape;
            record_load_within(alloc, memory, form, changes, name, bytes, out, err)
        }
        Action::SweepLoad(sweep) => {
            let count = processors(threads);
            sweep_bytes_within(threads, count, alloc, memory, sweep, name, bytes, out, err)
        }
        Action::DrawLoad(drawing, changes) => draw_load_within(
            alloc, memory, drawing, servers, changes, name, bytes, progress, out, err,
        ),
        Action::ReportTasks(form) if is_record(bytes) => {
            report_record_within(alloc, memory, form, name, bytes, out, err)
        }
        Action::ReportTasks(form) => report_bytes_within(
            alloc, memory, form, name, bytes, out, err,
        ),
        Action::DrawTasks(drawing) if is_record(bytes) => {
            draw_record_within(alloc, memory, drawing, servers, name, bytes, out, err)
        }
        Action::DrawTasks(drawing) => {
            draw_tasks_within(alloc, memory, drawing, servers, name, bytes, out, err)
        }
        Action::RecordTasks { taped } if is_record(bytes) => {
            record_again_within(alloc, memory, form_of(taped), name, bytes, out, err)
        }
        Action::RecordTasks { taped } => {
            record_tasks_within(alloc, memory, form_of(taped), name, bytes, out, err)
        }
        Action::Run(Verb::Replay) if is_record(bytes) => {
            replay_record_within(alloc, memory, name, bytes, out, err)
        }
        Action::Run(verb) => run_bytes_within(threads, alloc, memory, verb, bytes, out, err),
    }
}

/// Returns whether the environment allows colours. It does not if `NO_COLOR` is set and not empty.
fn may_have_colours(rt: &HostRuntime) -> bool {
    env::var(rt, "NO_COLOR").map_or(true, |value| value.is_empty())
}

/// Returns whether the output of an action is a text for people.
fn is_for_people(action: Action) -> bool {
    match action {
        Action::Check { form, .. } => form == Form::Report,
        Action::ReportLoad(report) => report.form == Form::Report,
        Action::SweepLoad(sweep) => sweep.form == SweepForm::Report,
        Action::ReportTasks(form) => form == Form::Report,
        _ => false,
    }
}

/// Writes why the words of the command line make no request, and returns the status.
fn status_of_words(rt: &HostRuntime, fault: WordsFault) -> u8 {
    let mut out = ToWrite::new(rt.stdout());
    let mut err = ToWrite::new(rt.stderr());
    match fault {
        WordsFault::Help(text) => {
            let _written = write_pieces(&mut out, &[text.as_str()]);
            DONE
        }
        WordsFault::Usage(text) => {
            let _written = write_pieces(&mut err, &[text.as_str()]);
            WRONG_WORDS
        }
        WordsFault::OutOfMemory => {
            let _written = write_run_fault(&mut err, RunError::OutOfMemory);
            RUN_FAULT
        }
    }
}

/// Returns whether a fault of an action is explained below its line.
fn is_explained(action: Action) -> bool {
    !matches!(action, Action::Run(_))
}

/// Writes why the file `name` could not be read, and returns the status.
fn status_of_unread<E: ByteOutput>(
    rt: &HostRuntime,
    asked: &Asked,
    name: &str,
    unread: &Unread,
    err: &mut E,
) -> u8
    requires { (E.state err.old).failed ≡ 0 }
{
    let _written = write_read_fault(err, unread.fault());
    if is_explained(asked.action) {
        write_reason(rt, rt.alloc(), name, unread, err);
    }
    BAD_FILE
}

/// Runs the command that the command line asks for on the file `name`, and returns the status. It runs and serves on
/// `threads`.
fn status_of<R: Threads + Clock + Sync>(
    rt: &HostRuntime,
    threads: &R,
    asked: &Asked,
    name: &str,
    memory: u64,
) -> u8 {
    let alloc = rt.alloc();
    let colours = may_have_colours(rt);
    let in_out = colours && is_for_people(asked.action) && rt.stdout().is_terminal();
    let mut out = ToWrite::new(Painted::new(rt.stdout(), alloc, in_out));
    let in_err = colours && rt.stderr().is_terminal();
    let mut err = ToWrite::new(Painted::new(rt.stderr(), alloc, in_err));
    let bytes = match bytes_of(rt, alloc, name) {
        Ok(bytes) => bytes,
        Err(unread) => return status_of_unread(rt, asked, name, &unread, &mut err),
    };
    let mut teller = Teller::new(rt);
    let status = answered(
        threads,
        alloc,
        memory,
        asked,
        name,
        &bytes,
        &mut teller,
        &mut out,
        &mut err,
    );
    if status == DONE && makes_steps(asked.action) && is_record(&bytes) {
        let mut below = ToWrite::new(Painted::new(rt.stderr(), alloc, in_err));
        write_cut(alloc, name, &bytes, &mut below);
    }
    if status == RUN_FAULT && is_explained(asked.action) {
        let mut below = ToWrite::new(Painted::new(rt.stderr(), alloc, in_err));
        write_loss(alloc, &out, &mut below);
    }
    status
}

/// Returns whether an action makes the steps of a record, if its file is one.
fn makes_steps(action: Action) -> bool {
    matches!(
        action,
        Action::Run(Verb::Replay)
            | Action::ReportTasks(_)
            | Action::DrawTasks(_)
            | Action::RecordTasks { .. }
    )
}

/// Writes that the tape of a record is cut, if it is. If out of memory, writes nothing.
fn write_cut<E: ByteOutput>(alloc: Global, name: &str, bytes: &[u8], err: &mut E)
    requires { MayWrite (E.state err.old) }
{
    let Ok(Some(entries)) = cut_after(alloc, bytes) else {
        return;
    };
    let Ok(shown) = printable(alloc, name) else {
        return;
    };
    if let Ok(text) = format!(in alloc;
        "note: {shown} is cut after {entries} entries: more steps may have been made\n"
    ) {
        let _written = write_pieces(err, &[text.as_str()]);
    }
}

/// Returns the heading of the output of a file, as `head` writes it. An empty line stands before each but the first.
fn heading_of(alloc: Global, place: usize, name: &str) -> Result<String, AllocError> {
    let shown = printable(alloc, name)?;
    let before = if place > 0 { "\n" } else { "" };
    format!(in alloc; "{before}==> {shown} <==\n")
}

/// Writes the heading of the output of a file, if it is one of several and the output is for people. If out of memory,
/// writes nothing.
fn write_heading(rt: &HostRuntime, asked: &Asked, place: usize, name: &str) {
    if asked.files.len() < 2 || !is_for_people(asked.action) {
        return;
    }
    if let Ok(heading) = heading_of(rt.alloc(), place, name) {
        let mut out = ToWrite::new(rt.stdout());
        let _written = write_pieces(&mut out, &[heading.as_str()]);
    }
}

/// Runs the command that the command line asks for on each of its files, in order, and returns the greatest status. It runs
/// and serves on `threads`.
fn greatest_status<R: Threads + Clock + Sync>(
    rt: &HostRuntime,
    threads: &R,
    asked: &Asked,
    memory: u64,
) -> u8 {
    let mut greatest = DONE;
    for (place, file) in asked.files.iter().enumerate() {
        write_heading(rt, asked, place, file.as_str());
        greatest = greatest.max(status_of(rt, threads, asked, file.as_str(), memory));
    }
    greatest
}

/// Runs the whole program: reads its words, its environment and its files, and runs the command. Returns the status. It
/// runs and serves on `threads`.
fn status<R: Threads + Clock + Sync>(rt: &HostRuntime, threads: &R) -> u8 {
    match asked_of(rt, rt.alloc()) {
        Ok((asked, memory)) => greatest_status(rt, threads, &asked, memory),
        Err(fault) => status_of_words(rt, fault),
    }
}

fn main(rt: HostRuntime) -> ExitCode {
    ExitCode::from(status(&rt, &rt))
}
