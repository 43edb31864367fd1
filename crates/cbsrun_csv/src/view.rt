//! The collector of the jobs of a run: a view of steps.

ghost use Rattle.std.specs.Prelude.{◌≡◌, ◌++◌, List, IfOk, OnOk, flat_map, length, map, min, string_bytes};
ghost use Rattle.std.specs.List.{range_with_len};
ghost use Rattle.cbsrun_events.specs.declared.seen.Seen.{Seen};
ghost use Rattle.cbsrun_csv.specs.Csv.{IsCsv};
ghost use Rattle.cbsrun_csv.specs.Kept.{kept_lines, kept_seen, kept_with, new_kept};

use crate::jobs::Jobs;
use crate::lines::HEADER;
use cbsrun_events::{Seen, View};
use std::alloc::{AllocError, Global};
use std::marker::Model;

/// The jobs of servers, from the steps that it sees.
///
/// It keeps each job that came: an accepted one as its line tells it, and of a refused one the tick at which it came.
#[derive(Drop)]
pub struct CsvView {
    servers: Vec<Jobs>,
}

impl Model for CsvView {
    ghost use Rattle.std.specs.Prelude.{List};
    ghost use Rattle.cbsrun_csv.specs.Jobs.{JobsSeen};

    ghost Value = { List JobsSeen };

    ghost view = { λ v. v.servers.items };
}

impl CsvView {
    /// Returns the view of this many servers, before the first step. The only error is out of memory.
    pub fn new(alloc: Global, count: usize) -> Result<CsvView, AllocError>
        ensures { IfOk result (λ view. view ≡ new_kept count) }
    {
        let mut servers = Vec::with_capacity(alloc, count)?;
        for _server in 0..count {
            servers.push(Jobs::new(alloc))?;
        }
        Ok(CsvView { servers })
    }

    /// Adds a step of the server with this number, or of no server. Refuses if out of memory.
    #[inline]
    fn add(&mut self, server: Option<u16>, seen: &Seen) -> Result<(), AllocError>
        ensures { OnOk result (self.new ≡ kept_with server seen.now self.old) }
    {
        let Some(server) = server else {
            return Ok(());
        };
        let index = usize::from(server);
        if index < self.servers.len() {
            self.servers[index].add(seen.clock, seen.event)?;
        }
        Ok(())
    }

    /// Appends the lines of all servers that have a name. The only error is out of memory.
    fn append_servers(
        &self,
        text: &mut String,
        names: &[String],
        end: u64,
    ) -> Result<(), AllocError>
        ensures { OnOk result (string_bytes text.new ≡ string_bytes text.old
            ++ flat_map (kept_lines (map string_bytes names.now) end self.now)
            (range_with_len 0 (min (length names.now) (length self.now)))) }
    {
        for server in 0..names.len().min(self.servers.len()) {
            self.servers[server].append_lines(text, &names[server], end)?;
        }
        Ok(())
    }

    /// Returns the CSV of the jobs that came in a run that ends at the tick `end`. The servers have these names, by
    /// number. Names are written as they are: one with a comma or a line end makes other columns or lines. The only
    /// error is out of memory.
    pub fn text(&self, alloc: Global, names: &[String], end: u64) -> Result<String, AllocError>
        ensures { IfOk result (λ text. (seen : List Seen)
            → self.now ≡ kept_seen (new_kept (length names.now)) seen
            → IsCsv (map string_bytes names.now) end seen (string_bytes text)) }
    {
        let mut text = String::from_str(alloc, HEADER)?;
        self.append_servers(&mut text, names, end)?;
        Ok(text)
    }
}

impl View<()> for CsvView {
    ghost use Rattle.cbsrun_csv.specs.Kept.{kept_seen};

    ghost saw = { λ first now seen. now.0 ≡ kept_seen first.0 seen };

    #[inline]
    fn see(&mut self, _lent: &mut (), seen: Seen) -> Result<(), AllocError> {
        self.add(seen.event.server(), &seen)
    }
}
