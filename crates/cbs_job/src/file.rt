//! The jobs that a task file may ask for.

ghost use Rattle.std.specs.Prelude.{◌≡◌};

use crate::peak::PeakJob;
use crate::sum::SumJob;
use crate::work::Work;

/// A job of a task file. It does what the job inside does.
pub enum FileJob {
    /// A job that adds numbers up.
    Sum(SumJob),
    /// A job that seeks the greatest number.
    Peak(PeakJob),
}

// An owner of a job calls this one function at each exit, instead of the drops of each kind of job.
impl Drop for FileJob {
    fn drop(self) {
        match self {
            FileJob::Sum(_) | FileJob::Peak(_) => {}
        }
    }
}

impl Work for FileJob {
    ghost use Rattle.cbs_job.specs.FileJobs.{of_files, of_files_lowers};

    ghost meaning = { of_files };

    ghost lowers = { of_files_lowers };

    fn left(&self) -> u32 {
        match self {
            FileJob::Sum(job) => job.left(),
            FileJob::Peak(job) => job.left(),
        }
    }

    fn step(&mut self) {
        match self {
            FileJob::Sum(job) => job.step(),
            FileJob::Peak(job) => job.step(),
        }
    }

    fn output(&self) -> u64 {
        match self {
            FileJob::Sum(job) => job.output(),
            FileJob::Peak(job) => job.output(),
        }
    }
}

impl From<SumJob> for FileJob {
    ghost use Rattle.std.specs.Prelude.{◌≡◌};
    ghost use Rattle.cbs_job.specs.Work.{whole};
    ghost use Rattle.cbs_job.specs.Numbers.{summing};
    ghost use Rattle.cbs_job.specs.FileJobs.{of_files};
    ghost use Rattle.cbs_job.specs.declared.file.FileJob.TheVariants.{Sum};

    ghost from_gives = { λ job f. (f ≡ Sum job) × (of_files.left f ≡ summing.left job) × (whole of_files f ≡ whole summing job) };

    fn from(job: SumJob) -> FileJob {
        FileJob::Sum(job)
    }
}

impl From<PeakJob> for FileJob {
    ghost use Rattle.std.specs.Prelude.{◌≡◌};
    ghost use Rattle.cbs_job.specs.Work.{whole};
    ghost use Rattle.cbs_job.specs.Numbers.{peaking};
    ghost use Rattle.cbs_job.specs.FileJobs.{of_files};
    ghost use Rattle.cbs_job.specs.declared.file.FileJob.TheVariants.{Peak};

    ghost from_gives = { λ job f. (f ≡ Peak job) × (of_files.left f ≡ peaking.left job) × (whole of_files f ≡ whole peaking job) };

    fn from(job: PeakJob) -> FileJob {
        FileJob::Peak(job)
    }
}
