//! Makes the calls of a case that is rows.

ghost use Rattle.std.specs.Prelude.{◌≡◌};
ghost use Rattle.cbs_clients.specs.Clients.{IsOpened};
ghost use Rattle.cbs_clients.specs.Houses.{rings_of};

use super::rows::{Call, ClientCall, CollectorCall, HouseCall, Rows};
use crate::setup::{setup_of, sum_of};
use crate::telling::{begin, tell};
use anyhow::{Result, bail};
use cbs_house::{Client, CollectError, Collector, House, NoSink, open_house};
use cbs_job::{Completion, FileJob, Task};
use cbs_rules::Mode;
use std::alloc::Global;
use std::time::Clock;

/// A house of one soft server with 2 ticks in every 5, its client, and a collector of one server's results.
#[derive(Drop)]
struct Parts {
    house: House<FileJob>,
    client: Client<FileJob>,
    collector: Collector,
    ghost opened: { IsOpened (rings_of house) client },
}

/// Returns the parts, of which none has made a call.
fn new_parts(alloc: Global) -> Result<Parts> {
    let collector = Collector::new(alloc, 1)?;
    let (plan, modes) = setup_of(&[(2, 5, Mode::Soft)])?.into_parts();
    let (house, mut clients) = open_house(alloc, plan, modes, 4, 4)?;
    let Some(client) = clients.pop() else {
        bail!("a house without a client");
    };
    Ok(Parts {
        house,
        client,
        collector,
    })
}

/// Takes the completion of a job.
fn takes(collector: &mut Collector, seq: u64, output: u64) -> Result<(), CollectError> {
    collector.take(Completion {
        server: 0,
        seq,
        result: output,
    })
}

/// Takes the results, and prints them.
fn hands_out(rt: &impl Print, what: &str, house: &mut House<FileJob>)
    ensures { rings_of house.new ≡ rings_of house.old }
{
    match house.take_results(0) {
        Ok(results) => tell(rt, what, results.as_slice()),
        Err(error) => tell(rt, what, error),
    }
}

/// Makes a call of a collector, and prints its result.
fn of_collector(rt: &impl Print, what: &str, collector: &mut Collector, call: CollectorCall) {
    match call {
        CollectorCall::MakeRoom => tell(rt, what, collector.make_room(0)),
        CollectorCall::Expect => tell(rt, what, collector.expect(0)),
        CollectorCall::Take(seq, output) => tell(rt, what, takes(collector, seq, output)),
        CollectorCall::Results => tell(rt, what, collector.results(0)),
    }
}

impl Parts {
    /// Makes a call of the house, and prints its result.
    fn of_house<R: Print + Clock>(&mut self, rt: &R, what: &str, call: HouseCall) {
        let house = &mut self.house;
        match call {
            HouseCall::Poll => tell(rt, what, house.poll(0)),
            HouseCall::View => tell(rt, what, house.view(0)),
            HouseCall::Turn => tell(rt, what, house.turn()),
            HouseCall::Run => tell(rt, what, house.run()),
            HouseCall::Drain => tell(rt, what, house.drain()),
            HouseCall::Results => tell(rt, what, house.results(0)),
            HouseCall::TakeResults => hands_out(rt, what, house),
            HouseCall::Close => tell(rt, what, house.run_until_closed(rt, &mut NoSink, 1)),
        }
    }

    /// Makes a call for the client, and prints its result.
    fn of_client(
        &mut self,
        rt: &impl Print,
        alloc: Global,
        what: &str,
        call: ClientCall,
    ) -> Result<()> {
        match call {
            ClientCall::Send(number) => self.sends(rt, what, sum_of(alloc, &[number])?),
            ClientCall::Settle => tell(rt, what, self.house.settle(&mut self.client)),
            ClientCall::End => tell(rt, what, self.client.end()),
        }
        Ok(())
    }

    /// Sends a job, and prints its number.
    fn sends(&mut self, rt: &impl Print, what: &str, task: Task<FileJob>) {
        match self.client.send(task) {
            Ok(number) => tell(rt, what, number),
            Err(refused) => tell(rt, "not sent", refused.error),
        }
    }

    /// Makes these calls, one after another.
    fn make_each<R: Print + Clock>(
        &mut self,
        rt: &R,
        alloc: Global,
        calls: &[(&'static str, Call)],
    ) -> Result<()> {
        for &(what, call) in calls {
            match call {
                Call::Collector(call) => of_collector(rt, what, &mut self.collector, call),
                Call::House(call) => self.of_house(rt, what, call),
                Call::Client(call) => self.of_client(rt, alloc, what, call)?,
            }
        }
        Ok(())
    }
}

/// Makes the calls of these rows.
pub fn make_rows<R: Print + Clock>(rt: &R, alloc: Global, rows: &Rows) -> Result<()> {
    let mut parts = new_parts(alloc)?;
    parts.make_each(rt, alloc, rows.before)?;
    begin(rt);
    parts.make_each(rt, alloc, rows.after)
}
