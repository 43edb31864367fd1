//! A robot that follows distances by three sensors, each with its own server. Its loop takes one turn of the house at a
//! time, and reads the results as they come. One sensor is broken, and reads in every turn. The others are not
//! affected.
#![tactic(auto)]

mod sensor;
mod track;

use anyhow::Result;
use cbs_house::{Client, House, open_house};
use cbs_rate::{Bound, Reservation};
use cbs_rules::{Mode, Setup};
use sensor::{Fitting, Sensor};
use std::alloc::Global;
use track::TrackJob;

/// The sensors, whose jobs have four units. The sensor on the right is broken: it reads in every turn, although its
/// server has only one tick in four.
const FITTINGS: [Fitting; 3] = [
    Fitting {
        name: "front",
        budget: 4,
        period: 8,
        every: 8,
    },
    Fitting {
        name: "left",
        budget: 4,
        period: 16,
        every: 16,
    },
    Fitting {
        name: "right",
        budget: 1,
        period: 4,
        every: 1,
    },
];

/// How many turns the robot drives. Each turn is one tick; in real time it might be a millisecond.
const TURNS: u64 = 48;

/// Returns a setup with a soft server for each sensor.
fn setup() -> Result<Setup> {
    let mut setup = Setup::new(Bound::new(1, 1)?);
    for fitting in FITTINGS {
        let reservation = Reservation::new(fitting.budget, fitting.period)?;
        setup.admit(reservation, Mode::Soft)?;
    }
    Ok(setup)
}

/// Returns the house, with a server for each sensor, and the sensors.
fn open(alloc: Global) -> Result<(House<TrackJob>, Vec<Sensor>)> {
    let (plan, modes) = setup()?.into_parts();
    let (house, clients) = open_house(alloc, plan, modes, 4, 4)?;
    Ok((house, fitted(alloc, clients)?))
}

/// Returns the sensors, each with a client.
fn fitted(alloc: Global, clients: Vec<Client<TrackJob>>) -> Result<Vec<Sensor>> {
    let mut sensors = Vec::new(alloc);
    for (client, fitting) in clients.into_iter().zip(FITTINGS) {
        sensors.push(Sensor::new(fitting, client))?;
    }
    Ok(sensors)
}

/// Takes the results of a sensor's readings, and prints them.
fn follow(rt: &impl Print, house: &mut House<TrackJob>, sensor: &mut Sensor) -> Result<()> {
    let name = sensor.fitting.name;
    for result in house.take_results(sensor.server())? {
        sensor.distance = u32::try_from(result)?;
        println!(rt; "tick {}: {name} at {result} mm", house.now())?;
    }
    Ok(())
}

/// Drives one turn: the sensors read, the house takes its turn, and the robot follows the results.
fn drive(
    rt: &impl Print,
    alloc: Global,
    turn: u64,
    house: &mut House<TrackJob>,
    sensors: &mut [Sensor],
) -> Result<()> {
    for sensor in sensors.iter_mut() {
        sensor.read(alloc, turn)?;
    }
    house.turn();
    for sensor in sensors.iter_mut() {
        follow(rt, house, sensor)?;
    }
    Ok(())
}

/// Drives all turns, and prints what each sensor sent.
fn drive_all(
    rt: &impl Print,
    alloc: Global,
    house: &mut House<TrackJob>,
    sensors: &mut [Sensor],
) -> Result<()> {
    for turn in 0..TURNS {
        drive(rt, alloc, turn, house, sensors)?;
    }
    for sensor in sensors.iter() {
        sensor.print(rt)?;
    }
    Ok(())
}

fn main(rt: HostRuntime) -> Result<()> {
    let alloc = rt.alloc();
    let (mut house, mut sensors) = open(alloc)?;
    drive_all(&rt, alloc, &mut house, &mut sensors)
}
