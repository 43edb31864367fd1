//! The texts of the help.

pub(crate) const ABOUT: &str =
    "Sizes, simulates, runs and draws Constant Bandwidth Servers under EDF: jobs on one thread, \
each server with a budget of so many ticks in every period.";

// The version, and below it the name of the logic that checked the proofs. Several kits have the same logic.
pub(crate) const VERSION: &str = "0.1.0\nproved by rattle logic dac8208d650f15bf";

pub(crate) const FILES: &str = "\
FILE is a task file, a load or a record, in TOML; - is standard input. --help has an
example of each, what is guaranteed, and the exit statuses.";

pub(crate) const GUIDE: &str = "\
FILE is a task file, a load or a record, in TOML; - is standard input, and ./- a file
of that name. simulate and size take a load, serve takes a task file, replay a task
file or a record, and check any of them. A load says which jobs come, and how often:

  load = 1
  bound = [1, 1]                           # the bandwidths add up to at most 1/1
  backlog = 4                              # unfinished jobs that a server may have
  until = 200                              # the simulation ends at this tick
  server = [
    { name = \"control\", mode = \"soft\", budget = 2, period = 5 },
    { name = \"camera\", mode = \"throttled\", budget = 6, period = 20 },
  ]
  source = [
    { server = \"control\", every = 5, units = 1 },
    { server = \"camera\", every = 20, units = [3, 6] },        # 3 to 6 units a job
  ]

size takes it also with no budget and period for some servers, and proposes them.
Saved as LOAD.toml, it is checked, simulated and drawn by
  cbsrun check LOAD.toml
  cbsrun simulate LOAD.toml
  cbsrun simulate --as svg --to 60 LOAD.toml > load.svg

A task file names the servers and the steps:

  format = 2
  bound = [1, 1]
  backlog = 4
  ring = 4                                 # places in a client's ring of messages
  server = [
    { budget = 2, period = 5, mode = \"soft\" },          # 2 ticks in every 5
    { budget = 1, period = 4, mode = \"throttled\" },     # waits when they are used up
  ]
  step = [
    { op = \"submit\", server = 0, job = \"sum\", units = [1, 2, 3] },
    { op = \"run\" },
    { op = \"advance\", ticks = 3 },
    { op = \"close\", server = 0 },
  ]

Saved as FIRST.toml, it is checked and run by
  cbsrun check FIRST.toml
  cbsrun replay FIRST.toml
  cbsrun serve FIRST.toml

A record has the steps of a run. Of a job it says only its number of units:

  record = 1
  bound = [1, 1]
  backlog = 4
  server = [
    { name = \"control\", mode = \"soft\", budget = 2, period = 5 },
  ]
  step = [
    { op = \"submit\", server = 0, units = 3 },
    { op = \"run\", times = 2 },                            # twice
    { op = \"charge\", server = 0, ticks = 1 },             # the last unit ran over
    { op = \"run\" },
  ]

Saved as RECORD.toml, it is checked, run and drawn by
  cbsrun check RECORD.toml
  cbsrun replay RECORD.toml
  cbsrun replay --as svg RECORD.toml > record.svg

simulate and replay write one by --as record, or in few bytes by --as tape.

Guaranteed, for soft and throttled servers, whatever the clients ask for:
  - No server takes more than its share: its deadline pays for what it gets, by a
    period for each budget.
  - No server is ever late, and each job is finished by a tick that is known when it
    is accepted, as long as nobody is charged and no advance comes while somebody is
    ready before its last tick. serve and simulate make no such advance, and charge
    only what a source has as overrun; check counts these charges.
Not guaranteed:
  - Time. A tick is one unit of one job, however long that takes.
  - That an advance takes nobody's time. One while somebody is ready does.

A file without dotted keys and headers in single brackets, with its steps last, is read
piece by piece. Another that may want more than 960 MiB of memory is refused, with
status 3. CBSRUN_MEMORY, in the environment, is another bound, in MiB.

Exit status:
  0  done, or this help; also if jobs are late or refused: that is an answer; also if
     the output is a pipe that was closed, but not with --strict
  1  done, and with --strict a job was late or refused, or is not promised; or size
     found no load in which each job is promised in time; or a record would be too long
  2  the command line is wrong, the run ends before the first tick to show, or
     CBSRUN_MEMORY is no whole number
  3  the file could not be read, or has a fault
  4  the run ended early: no memory, the output could not be written, or, in
     serve, the clock came to its end or the clients stalled";

pub(crate) const CHECK: &str =
    "Says what the servers of a file have and could have, and which jobs of a load \
are in time always; or what is wrong with the file";

pub(crate) const CHECKS: &str =
    "What is written: report (text, for people) or json (the same for programs) \
[default: report]";

pub(crate) const SIZE: &str =
    "Writes a load with a reservation for each server that has none: the one of least share that \
promises its jobs in time";

pub(crate) const ALL: &str = "Each server gets a reservation, also if it has one";

pub(crate) const SIMULATE: &str =
    "Releases the jobs of a load's sources, runs them, and reports, draws, records, or writes a line for each step or job";

pub(crate) const REPLAY: &str =
    "Runs the steps of a task file or of a record, and writes a line for each, reports, draws, or records";

pub(crate) const SERVE: &str =
    "Gives each server's submits to a client of its own, serves them all, \
and writes the results of each server";

pub(crate) const REPORTS: &str =
    "What is written: report (figures of each server), json (the same for programs), \
text (a timeline), svg (a picture), trace (for ui.perfetto.dev), lines (one for \
each step), csv (one for each job), record (all steps, for replay) or tape (the \
same, in few bytes) [default: report]";

pub(crate) const TRACES: &str =
    "What is written: lines (one for each step), report (figures of each server), \
json (the same for programs), text (a timeline), svg (a picture), trace (for \
ui.perfetto.dev), record (all steps, for replay) or tape (the same, in few bytes) \
[default: lines]";

pub(crate) const FROM: &str =
    "The first tick that a picture, a timeline or a trace shows [default: 0]";

pub(crate) const TO: &str =
    "The tick after the last one that it shows: at most 20000 later, but of a trace [default: \
the end, or as many]";

pub(crate) const SERVER: &str =
    "The name of a server to draw, in a picture, a timeline or a trace; may be given several times \
[default: all servers]";

pub(crate) const SEED: &str =
    "The seed of the numbers that are drawn, in place of the load's own: 0 to 2^63 - 1";

pub(crate) const SEEDS: &str =
    "Many simulations, one with each of these seeds, as 1..1000: at most 10^6; what they tell of each \
server is written as report, json or csv";

pub(crate) const UNTIL: &str =
    "The tick at which the simulation ends, in place of the load's own: 1 to 10^12";

pub(crate) const IN_TIME: &str =
    "Ends with status 1 if a job was late or refused; with a report or json alone";

pub(crate) const PROMISED: &str =
    "Ends with status 1 if the jobs of a source are not promised to be in time";
