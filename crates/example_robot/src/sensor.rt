//! The robot's sensors. Each is a client of the house, and sends its readings as jobs.

ghost use Rattle.std.specs.Prelude.{◌≤◌};

use crate::track::TrackJob;
use anyhow::Result;
use cbs_house::Client;
use cbs_job::Task;
use std::alloc::Global;

/// The distance of the wall at the start, in millimetres.
const START: u32 = 1200;

/// By how much an echo is too far, in millimetres. One reading in four is an echo.
const ECHO: u32 = 3000;

/// The installation of a sensor: its name, the reservation of its server, and the number of turns from one reading to
/// the next.
#[derive(Clone, Copy)]
pub struct Fitting {
    pub name: &'static str,
    pub budget: u64,
    pub period: u64,
    pub every: u64,
}

/// A sensor of distances.
#[derive(Drop)]
pub struct Sensor {
    pub fitting: Fitting,
    /// The latest known distance, in millimetres.
    pub distance: u32,
    /// How many jobs a full ring refused.
    pub refused: u64,
    client: Client<TrackJob>,
}

impl Sensor {
    pub fn new(fitting: Fitting, client: Client<TrackJob>) -> Sensor {
        Sensor {
            fitting,
            distance: START,
            refused: 0,
            client,
        }
    }

    /// Returns the server that follows the sensor's distance.
    pub fn server(&self) -> u16 {
        self.client.server()
    }

    /// Prints how many jobs the sensor has sent, and how many a full ring refused.
    pub fn print(&self, rt: &impl Print) -> Result<()> {
        let (name, sent, refused) = (self.fitting.name, self.client.sent(), self.refused);
        Ok(println!(rt; "{name}: {sent} jobs sent, {refused} refused")?)
    }

    /// Sends four readings as one job, if the sensor reads in this turn.
    pub fn read(&mut self, alloc: Global, turn: u64) -> Result<()> {
        if turn % self.fitting.every.max(1) != 0 {
            return Ok(());
        }
        let wall = wall_at(turn);
        let readings = Vec::from_array(alloc, [wall, wall + ECHO, wall, wall])?;
        let work = TrackJob::new(self.distance, readings);
        let task = Task::new(work).map_err(|refused| refused.error)?;
        // A job that a full ring refuses is not kept: it would be old when there is a free slot.
        if self.client.send(task).is_err() {
            self.refused = self.refused.saturating_add(1);
        }
        Ok(())
    }
}

/// Returns the distance of the wall at a turn, in millimetres: it comes nearer by 5 per turn.
fn wall_at(turn: u64) -> u32
    ensures { result ≤ START }
{
    let nearer = turn.saturating_mul(5).min(u64::from(START)) as u32;
    START - nearer
}
