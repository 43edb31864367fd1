//! What the host of a house does next, by the readings of its clock.

ghost use Rattle.std.specs.Prelude.{◌≡◌, ◌<◌, ◌≤◌, ◌+◌, min, None, Some, Bool, false, true};
ghost use Rattle.cbs_pace.specs.Paces.{pacing_begun, pacing_seen, time_to, IsDue, IsNotAhead};
ghost use Rattle.cbs_clients.specs.Houses.{core_of, Made};
ghost use Rattle.cbs_clients.specs.Meters.{charge_steps};
ghost use Rattle.cbs_core.specs.Held.{is_running};
ghost use Rattle.cbs_rules.specs.Rules.{clock_end};
ghost use Rattle.cbs_core.specs.Agreement.{Agrees};
ghost use Rattle.cbs_steps.specs.History.{History, world_after};
ghost use Rattle.cbs_steps.specs.Quiet.{IsAtRest, IsIdleSpan};
ghost use Rattle.cbs_pacer.specs.Paced.{doing_of, paced_of, paced_seen, ticks_to_pass, PaysUnit, Passes, Prepares, Does, Paces, AsksToSleep};
ghost use Rattle.cbs_pacer.specs.Timed.{GoesOnInTime};

use crate::next::Next;
use crate::pacer::Pacer;
use cbs_clients::{House, poll_marked};
use cbs_core::{LIMIT, Ran};
use cbs_job::Work;
use cbs_pace::{Counts, Pace, Rounding, Tick};
use std::alloc::Allocator;

impl Pacer {
    /// Returns a pacer of a house whose clock stands at tick `now`. Its time begins at this
    /// reading, in nanoseconds.
    pub fn begin(tick: Tick, rounding: Rounding, now: u64, reading: u64) -> Pacer
        ensures { paced_of result ≡ record {
          pace = pacing_begun tick rounding now reading;
          doing = None;
          listens = false;
          taken = 0;
        } }
    {
        Pacer {
            pace: Pace::begin(tick, rounding, now, reading),
            server: 0,
            does: false,
            listens: false,
            taken: 0,
        }
    }

    /// Returns what was seen so far.
    pub fn counts(&self) -> Counts
        ensures { result ≡ self.now.pace.counts }
    {
        self.pace.counts()
    }

    /// Returns how many messages the last polls took from the rings, 0 before the first. Whoever
    /// waits for room in a ring may try again if it is not 0.
    pub fn taken(&self) -> u32
        ensures { result ≡ self.now.taken }
    {
        self.taken
    }

    /// Takes a reading of the clock in nanoseconds, and returns what the host does next.
    ///
    /// A unit that was being done ends with the reading, and its server is charged the time since
    /// the last one. Then the ticks pass that are over, as long as nobody is ready, and each server
    /// is polled once. If somebody is ready and the tick of its unit has come, the unit is run.
    pub fn next<W: Work, A: Allocator>(&mut self, house: &mut House<W, A>, reading: u64) -> Next
        ensures paces { Paces W.meaning (time_to reading self.old.pace)
            (paced_seen reading self.old) house.old result house.new (paced_of self.new) }
        ensures ahead { IsNotAhead self.old.pace (core_of house.old).clock
            → IsNotAhead self.new.pace (core_of house.new).clock }
        ensures timed { GoesOnInTime W.meaning (time_to reading self.old.pace)
            (paced_seen reading self.old) (core_of house.old)
            (core_of house.new) (paced_of self.new) }
        ensures awake { (doing_of self.old) ≡ None
            → IsDue (pacing_seen reading self.old.pace) (core_of house.old).clock
            → ¬ AsksToSleep result }
    {
        self.next_measured(house, reading, u64::MAX)
    }

    /// Does what [`next`](Pacer::next) does, and returns the same. But the unit that was being done
    /// is charged for `took` nanoseconds, by whatever clock the host measured them, as that of its
    /// thread.
    ///
    /// More than the time since the last reading is not charged. The rest of that time is nobody's,
    /// and the house's clock falls behind by it.
    pub fn next_measured<W: Work, A: Allocator>(
        &mut self,
        house: &mut House<W, A>,
        reading: u64,
        took: u64,
    ) -> Next
        ensures paces { Paces W.meaning (min took (time_to reading self.old.pace))
            (paced_seen reading self.old) house.old result house.new (paced_of self.new) }
        ensures ahead { IsNotAhead self.old.pace (core_of house.old).clock
            → IsNotAhead self.new.pace (core_of house.new).clock }
        ensures timed { GoesOnInTime W.meaning (min took (time_to reading self.old.pace))
            (paced_seen reading self.old) (core_of house.old)
            (core_of house.new) (paced_of self.new) }
        ensures awake { (doing_of self.old) ≡ None
            → IsDue (pacing_seen reading self.old.pace) (core_of house.old).clock
            → ¬ AsksToSleep result }
    {
        let over = self.pace.see(reading);
        self.ask(house, took.min(over))
    }

    /// Takes a reading of the clock in nanoseconds. A unit that was being done ends with it, and
    /// its server is charged the time since the last reading. It is for a host that stops, since
    /// [`next`](Pacer::next) does this, too.
    pub fn done<W: Work, A: Allocator>(&mut self, house: &mut House<W, A>, reading: u64)
        ensures pays { PaysUnit W.meaning (time_to reading self.old.pace) (doing_of self.old)
            (pacing_seen reading self.old.pace) house.old house.new self.new.pace }
        ensures kept { paced_of self.new ≡ record (paced_of self.old) {
          pace = self.new.pace;
          doing = None;
        } }
        ensures ahead { IsNotAhead self.old.pace (core_of house.old).clock
            → IsNotAhead self.new.pace (core_of house.new).clock }
        ensures timed { GoesOnInTime W.meaning (time_to reading self.old.pace)
            (paced_seen reading self.old) (core_of house.old) (core_of house.new)
            (paced_of self.new) }
    {
        self.done_measured(house, reading, u64::MAX)
    }

    /// Does what [`done`](Pacer::done) does, but charges for `took` nanoseconds, as
    /// [`next_measured`](Pacer::next_measured) does.
    pub fn done_measured<W: Work, A: Allocator>(
        &mut self,
        house: &mut House<W, A>,
        reading: u64,
        took: u64,
    )
        ensures pays { PaysUnit W.meaning (min took (time_to reading self.old.pace))
            (doing_of self.old) (pacing_seen reading self.old.pace) house.old house.new
            self.new.pace }
        ensures kept { paced_of self.new ≡ record (paced_of self.old) {
          pace = self.new.pace;
          doing = None;
        } }
        ensures ahead { IsNotAhead self.old.pace (core_of house.old).clock
            → IsNotAhead self.new.pace (core_of house.new).clock }
        ensures timed { GoesOnInTime W.meaning (min took (time_to reading self.old.pace))
            (paced_seen reading self.old) (core_of house.old) (core_of house.new)
            (paced_of self.new) }
    {
        let over = self.pace.see(reading);
        self.pay(house, took.min(over));
    }

    /// Returns what the host does next. A unit that was being done took `took` nanoseconds.
    fn ask<W: Work, A: Allocator>(&mut self, house: &mut House<W, A>, took: u64) -> Next
        ensures { Paces W.meaning took (paced_of self.old) house.old result house.new
            (paced_of self.new) }
    {
        if self.prepare(house, took) {
            return Next::OutOfMemory;
        }
        match house.idle_span() {
            None => self.go_on(house),
            Some(span) => self.rest(house, span),
        }
    }

    /// Charges the server whose unit was being done, if one was, for the nanoseconds that it took.
    fn pay<W: Work, A: Allocator>(&mut self, house: &mut House<W, A>, took: u64)
        ensures pays { PaysUnit W.meaning took (doing_of self.old) self.old.pace house.old house.new
            self.new.pace }
        ensures done { (doing_of self.new) ≡ None }
        ensures listens { self.new.listens ≡ self.old.listens }
        ensures taken { self.new.taken ≡ self.old.taken }
    {
        if self.does {
            self.does = false;
            pay_unit(&mut self.pace, house, self.server, took);
        }
    }

    /// Lets the ticks pass that are over, as long as nobody is ready.
    fn catch_up<W: Work, A: Allocator>(&mut self, house: &mut House<W, A>)
        ensures passes { Passes W.meaning self.old.pace house.old house.new self.new.pace }
        ensures doing { (doing_of self.new) ≡ (doing_of self.old) }
        ensures listens { self.new.listens ≡ self.old.listens }
    {
        let behind = self.pace.behind(house.now());
        let passed = to_pass(house.idle_span(), behind);
        if passed > 0 {
            house.advance(passed).unwrap();
        }
        self.pace.note_behind(behind - passed);
    }

    /// Returns whether a poll found no memory for a message. Before, it charges the unit that was
    /// being done, lets the ticks pass that are over, and polls each server once.
    fn prepare<W: Work, A: Allocator>(&mut self, house: &mut House<W, A>, took: u64) -> bool
        ensures prepares { Prepares W.meaning took (doing_of self.old) self.old.pace house.old
            house.new self.new.pace self.new.taken result }
        ensures listens { self.new.listens ≡ self.old.listens }
        ensures done { (doing_of self.new) ≡ None }
    {
        self.pay(house, took);
        self.catch_up(house);
        let polls = poll_marked(house);
        self.taken = polls.took as u32;
        polls.out_of_memory
    }

    /// Returns what the host does next if somebody is ready. Runs a unit if its tick has come.
    fn go_on<W: Work, A: Allocator>(&mut self, house: &mut House<W, A>) -> Next
        requires none { (doing_of self.old) ≡ None }
        requires ready { (M : History W) → Agrees W.meaning (core_of house.old) M
            → ¬ IsAtRest W.meaning (world_after W.meaning M) }
        ensures does { (heard : Bool) → Does W.meaning self.old.pace heard self.old.taken
            house.old result house.new (doing_of self.new) self.new.listens }
        ensures pace { self.new.pace ≡ self.old.pace }
        ensures taken { self.new.taken ≡ self.old.taken }
    {
        self.listens = false;
        let now = house.now();
        if now == LIMIT {
            return Next::ClockEnd;
        }
        if !self.pace.is_due(now) {
            return Next::SleepUntil(self.pace.due(now));
        }
        // Reading the number of servers tells the proof that there are few.
        let _servers = house.servers();
        let ran = house.run();
        match ran {
            Ran::Unit { server, .. } => self.begin_unit(server),
            Ran::Done(done) => self.begin_unit(done.server),
            Ran::Idle | Ran::ClockEnd => unreachable!(),
        }
        Next::Do(ran)
    }

    /// Keeps in mind whose unit is being done.
    fn begin_unit(&mut self, server: u16)
        requires { server < 64 }
        ensures doing { doing_of self.new ≡ Some server }
        ensures pace { self.new.pace ≡ self.old.pace }
        ensures listens { self.new.listens ≡ self.old.listens }
        ensures taken { self.new.taken ≡ self.old.taken }
    {
        self.server = server;
        self.does = true;
    }

    /// Returns how the host rests if nobody will be ready for `span` ticks.
    fn rest<W: Work, A: Allocator>(&mut self, house: &House<W, A>, span: u64) -> Next
        requires none { (doing_of self.old) ≡ None }
        requires span { (M : History W) → Agrees W.meaning (core_of house.now) M
            → IsIdleSpan W.meaning (world_after W.meaning M) span }
        ensures does { Does W.meaning self.old.pace self.old.listens self.old.taken house.now result
            house.now (doing_of self.new) self.new.listens }
        ensures pace { self.new.pace ≡ self.old.pace }
        ensures taken { self.new.taken ≡ self.old.taken }
    {
        if house.is_over() {
            return Next::Over;
        }
        let now = house.now();
        if now == LIMIT {
            return Next::ClockEnd;
        }
        if self.taken > 0 || !self.listens {
            self.listens = true;
            return Next::Listen;
        }
        self.listens = false;
        Next::WaitUntil(self.pace.due(now.saturating_add(span)))
    }
}

/// Returns how many ticks pass, by the idle span, if nobody is ready, and by how many ticks the
/// house's clock is behind.
fn to_pass(span: Option<u64>, behind: u64) -> u64
    ensures { result ≡ ticks_to_pass span behind }
{
    match span {
        Some(span) => span.min(behind),
        None => 0,
    }
}

/// Charges a server for the nanoseconds that its unit took.
fn pay_unit<W: Work, A: Allocator>(pace: &mut Pace, house: &mut House<W, A>, server: u16, took: u64)
    requires { server < 64 }
    ensures { PaysUnit W.meaning took (Some server) pace.old house.old house.new pace.new }
{
    let due = pace.charge(server, took).min(LIMIT - house.now());
    let charged = charge_running(house, server, due);
    pace.note_charge(charged);
}

/// Returns how many ticks a server was charged: `ticks` if it still runs and the house's clock can
/// hold them, or none.
fn charge_running<W: Work, A: Allocator>(house: &mut House<W, A>, server: u16, ticks: u64) -> u64
    ensures made { Made W.meaning house.old house.new (charge_steps server result) }
    ensures most { result ≤ ticks }
    ensures in_full { is_running (core_of house.old) server ≡ true
        → (core_of house.old).clock + ticks ≤ clock_end → result ≡ ticks }
{
    if ticks == 0 {
        return 0;
    }
    match house.charge_server(server, ticks) {
        Ok(()) => ticks,
        Err(_) => 0,
    }
}
