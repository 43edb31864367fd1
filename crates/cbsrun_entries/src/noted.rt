//! The faults of a file, as they are noted: the first ones, and how many there are.

ghost use Rattle.std.specs.Prelude.{◌≢◌, ◌+◌, ◌^◌, ◌++◌, ◌<◌, ℕ, List, [], Some, OnOk};
ghost use Rattle.cbsrun_toml_tables.specs.declared.fault.FileFault.{FileFault};
ghost use Rattle.cbsrun_toml_tables.specs.declared.fault.FileKind.TheVariants.{OutOfMemory};
ghost use Rattle.cbsrun_entries.specs.Noted.{told_at, AreFaults};

use cbsrun_toml_tables::{FileFault, FileKind, Place, faulty};
use std::alloc::{AllocError, Global};

/// The faults of a file.
#[derive(Drop)]
pub struct Faults {
    /// The first faults, in the order in which the tables are read.
    pub first: Vec<FileFault>,
    /// How many faults there are, with those that are not among the first.
    pub count: u64,
}

impl Faults {
    /// Returns no faults.
    pub fn new(alloc: Global) -> Faults
        ensures { (most : ℕ) → AreFaults most [] result }
    {
        Faults {
            first: Vec::new(alloc),
            count: 0,
        }
    }

    /// Notes the fault of this kind at this place, if there is one. At most `most` faults are kept, and all are counted.
    /// The only error is out of memory.
    pub fn note(
        &mut self,
        most: usize,
        place: Place,
        kind: Option<FileKind>,
    ) -> Result<(), AllocError>
        requires { self.old.count + 1 < 2 ^ 64 }
        ensures noted { OnOk result ((all : List FileFault) → AreFaults most all self.old
            → AreFaults most (all ++ told_at place kind) self.new) }
        ensures memory { OnOk result (kind ≢ Some OutOfMemory) }
    {
        let Some(kind) = kind else {
            return Ok(());
        };
        if kind == FileKind::OutOfMemory {
            return Err(AllocError);
        }
        self.count += 1;
        if self.first.len() < most {
            self.first.push(faulty(place, kind))?;
        }
        Ok(())
    }
}
