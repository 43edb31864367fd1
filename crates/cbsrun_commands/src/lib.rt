//! The commands, from the bytes of a file to a status. A task file is run, to a trace of its steps or the results of
//! its jobs. A record is run again, and a load is simulated. Each can be checked, and drawn as a picture of its run.
#![tactic(auto)]

mod check;
mod drawn;
mod ending;
mod environment;
mod fault_lines;
mod jobs_by_server;
mod load_jobs;
mod load_steps;
mod pictures;
mod reading;
mod records;
mod report;
mod result_lines;
mod run;
mod run_records;
mod serve;
mod servers;
mod size;
mod sweeps;

pub use cbsrun_io::{
    ByteInput, ByteOutput, FromRead, MAX_BYTES, ReadError, ToWrite, read_all, write_pieces,
    write_text,
};
pub use cbsrun_lines::{RunError, replay};
pub use cbsrun_options::{
    Action, Asked, Changes, Drawing, Form, Listing, LoadReport, LoadSweep, RunDrawing, Seeds,
    SweepForm, Verb, Window,
};
pub use cbsrun_records::{cut_after, is_record};
pub use cbsrun_run_records::RecordForm;
pub use cbsrun_runs::{NoProgress, Progress};
pub use check::check_bytes_within;
pub use ending::{ANSWER_IS_NO, BAD_FILE, DONE, RUN_FAULT, WRONG_WORDS};
pub use environment::{MEMORY_VARIABLE, memory_bound};
pub use fault_lines::{write_file_fault, write_read_fault, write_run_fault};
pub use load_jobs::simulate_jobs_within;
pub use load_steps::simulate_lines_within;
pub use pictures::{draw_load_within, draw_tasks_within};
pub use records::{draw_record_within, replay_record_within, report_record_within};
pub use report::{report_bytes_within, simulate_bytes_within};
pub use run::{run_bytes, run_bytes_within};
pub use run_records::{record_again_within, record_load_within, record_tasks_within};
pub use serve::serve_file;
pub use size::size_bytes_within;
pub use sweeps::sweep_bytes_within;
