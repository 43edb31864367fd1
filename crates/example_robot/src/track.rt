//! A job of the robot: it follows a distance by the readings of a sensor.

ghost use Rattle.std.specs.Prelude.{◌≡◌, ◌≤◌, length, drop};
ghost use Rattle.example_robot.specs.Tracks.{Track, smoothed, is_outlier, tracking};

use cbs_job::Work;
use std::marker::Model;

/// A reading further than this from the estimate is an outlier, in millimetres.
const FAR: u32 = 500;

/// How many outliers in a row are put aside. The next one is used: the robot has turned.
const PATIENCE: u32 = 2;

/// A job that follows a distance by readings in millimetres, one in each unit. Its output is the estimate.
#[derive(Drop)]
pub struct TrackJob {
    readings: Vec<u32>,
    next: usize,
    distance: u32,
    outliers: u32,
}

impl Model for TrackJob {
    ghost Value = { Track };

    ghost view = { λ j. record { readings = drop j.next j.readings.items; distance = j.distance; outliers = j.outliers } };

    ghost invariant = { λ j. (j.next ≤ length j.readings.items) × (length j.readings.items ≤ 4294967295) × (j.outliers ≤ 2) };
}

impl TrackJob {
    /// Returns a job for at most 4,294,967,295 readings, from an estimate on.
    pub fn new(distance: u32, readings: Vec<u32>) -> TrackJob
        requires { length readings.items ≤ 4294967295 }
        ensures { result ≡ record { readings = readings.items; distance = distance; outliers = 0 } }
    {
        TrackJob {
            readings,
            next: 0,
            distance,
            outliers: 0,
        }
    }
}

impl Work for TrackJob {
    ghost use Rattle.example_robot.specs.Tracks.{tracking_lowers};

    ghost meaning = { tracking };

    ghost lowers = { tracking_lowers };

    fn left(&self) -> u32 {
        (self.readings.len() - self.next) as u32
    }

    fn step(&mut self) {
        let reading = self.readings[self.next];
        if is_outlier(self.distance, self.outliers, reading) {
            self.outliers += 1;
        } else {
            self.distance = smoothed(self.distance, reading);
            self.outliers = 0;
        }
        self.next += 1;
    }

    fn output(&self) -> u64 {
        u64::from(self.distance)
    }
}

/// Returns whether a reading is put aside.
fn is_outlier(distance: u32, outliers: u32, reading: u32) -> bool
    ensures { result ≡ is_outlier distance outliers reading }
{
    distance.abs_diff(reading) > FAR && outliers < PATIENCE
}

/// Returns the estimate after a reading was taken in by a quarter.
fn smoothed(distance: u32, reading: u32) -> u32
    ensures { result ≡ smoothed distance reading }
{
    ((3 * u64::from(distance) + u64::from(reading)) / 4) as u32
}
