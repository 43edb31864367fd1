//! The jobs of all servers, in one queue for each server.

ghost use Rattle.std.specs.Prelude.{◌≡◌, ◌+◌, ◌%◌, ◌^◌, ◌<◌, [], ◌∷◌, ◌++◌, length, replicate, drop, Some, IfOk, OnOk, IsOk};
ghost use Rattle.std.specs.List.{sum_by, AllByRecursion};
ghost use Rattle.cbs_queues.specs.Queues.{front_output, room_of, KeepsRoom, list_at, jobs_run, result_run};
ghost use Rattle.cbs_lists.specs.Lists.{changed_at};
ghost use Rattle.cbs_rate.specs.Limits.{most_backlog};

use crate::chains::Chains;
use cbs_job::{Running, Task, Work};
use std::alloc::{AllocError, Allocator, Global};
use std::marker::Model;

/// A job in its queue.
#[derive(Drop)]
struct QueuedJob<W: Work> {
    job: Running<W>,
    // The units that the server had taken in just after this job came, modulo 2^64.
    taken_in: u64,
}

/// The jobs of all servers, in one queue for each server.
#[derive(Drop)]
pub struct Queues<W: Work, A: Allocator = Global> {
    jobs: Chains<QueuedJob<W>, A>,
    // The units that each server has taken in, modulo 2^64. Less a job's `taken_in`, they are the units that came after
    // it.
    taken_in: Vec<u64, A>,
}

impl<W: Work, A: Allocator> Model for Queues<W, A> {
    ghost use Rattle.std.specs.Prelude.{map};
    ghost use Rattle.std.specs.List.{AllZip};
    ghost use Rattle.cbs_queues.specs.Queues.{Queued, jobs_of, IsCounted};

    ghost Value = { Queued W };

    ghost view = { λ q. record { lists = map jobs_of q.jobs.lists; rooms = q.jobs.rooms } };

    ghost invariant = { λ q. AllZip (IsCounted W.meaning) q.jobs.lists q.taken_in.items };
}

impl<W: Work> QueuedJob<W> {
    /// Returns how many units came after this job, if its server has taken in `taken_in` units.
    fn behind(&self, taken_in: u64) -> u64
        ensures { (self.now.taken_in + result) % 2 ^ 64 ≡ taken_in }
    {
        taken_in.wrapping_sub(self.taken_in)
    }
}

impl<W: Work, A: Allocator> Queues<W, A> {
    /// Returns an empty queue for each of so many servers, or the error if an allocation is refused.
    pub fn new(alloc: &A, servers: u16) -> Result<Self, AllocError>
    where
        A: Clone,
        ensures empty { IfOk result (λ q. q.lists ≡ replicate servers []) }
    {
        let taken_in = vec![in alloc.clone()?; 0; usize::from(servers)]?;
        Ok(Queues {
            jobs: Chains::new(alloc, servers)?,
            taken_in,
        })
    }

    /// Returns how many units the jobs of a server have left.
    pub fn owed(&self, server: u16) -> u64
        requires { server < length self.now.lists }
        ensures { result ≡ sum_by W.meaning.left (list_at self.now.lists server) }
    {
        match self.jobs.first(server) {
            Some(first) => {
                u64::from(first.job.left()) + first.behind(self.taken_in[usize::from(server)])
            }
            None => 0,
        }
    }

    /// Returns the output so far of the first job of a server, or `None` if the server has no job.
    pub fn front_output(&self, server: u16) -> Option<u64>
        requires { server < length self.now.lists }
        ensures { result ≡ front_output W.meaning (list_at self.now.lists server) }
    {
        let first = self.jobs.first(server)?;
        Some(first.job.output())
    }

    /// Makes room for one more job of a server. Returns the error if an allocation is refused.
    pub fn reserve(&mut self, server: u16) -> Result<(), AllocError>
        requires { server < length self.old.lists }
        ensures lists { self.new.lists ≡ self.old.lists }
        ensures room { OnOk result (0 < room_of self.new.rooms server) }
        ensures kept { KeepsRoom self.old.rooms self.new.rooms }
        ensures succeeds { 0 < room_of self.old.rooms server → IsOk result }
    {
        self.jobs.reserve(server)
    }

    /// Puts a job at the end of a server's queue. There must be room for the job.
    pub fn push(&mut self, server: u16, task: Task<W>)
        requires within { server < length self.old.lists }
        requires room { 0 < room_of self.old.rooms server }
        requires few { length (list_at self.old.lists server) < most_backlog }
        ensures lists { self.new.lists ≡ changed_at (λ jobs. jobs
            ++ task ∷ []) self.old.lists server }
        ensures some { 0 < W.meaning.left task }
    {
        let units = u64::from(task.left());
        let taken_in = self.taken_in[usize::from(server)].wrapping_add(units);
        self.taken_in[usize::from(server)] = taken_in;
        let job = task.start();
        self.jobs.push(server, QueuedJob { job, taken_in });
    }

    /// Runs one unit of the first job of a server. If the unit was the job's last, the job leaves the queue, and its
    /// output is returned. Else returns `None`.
    #[tactic(auto, using(crate::proofs::QueueRuns::job_there))]
    #[inline(always)]
    pub fn run_first(&mut self, server: u16) -> Option<u64>
        requires some { 0 < length (list_at self.old.lists server) }
        requires unfinished { AllByRecursion (λ w.
            0 < W.meaning.left w) (list_at self.old.lists server) }
        ensures lists { self.new.lists ≡ changed_at (jobs_run W.meaning) self.old.lists server }
        ensures result { result ≡ result_run W.meaning (list_at self.old.lists server) }
        ensures kept { KeepsRoom self.old.rooms self.new.rooms }
    {
        let job = &mut self.jobs.first_mut(server).job;
        job.step();
        if job.left() > 0 {
            return None;
        }
        let result = job.output();
        self.jobs.pop(server);
        Some(result)
    }
    /// Takes the first job of a server out of its queue, however many units it has left. Returns its output so far.
    pub fn end_first(&mut self, server: u16) -> u64
        requires { 0 < length (list_at self.old.lists server) }
        ensures lists { self.new.lists ≡ changed_at (drop 1) self.old.lists server }
        ensures output { front_output W.meaning (list_at self.old.lists server) ≡ Some result }
        ensures kept { KeepsRoom self.old.rooms self.new.rooms }
    {
        self.jobs.pop(server).job.output()
    }
}
