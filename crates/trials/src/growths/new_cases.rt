//! A core, a house and a collector are made, of two servers each.

use super::wide::WideJob;
use crate::setup::setup_of;
use crate::telling::{begin, tell};
use anyhow::Result;
use cbs_core::{Core, CoreError};
use cbs_house::{CollectError, Collector, HouseError, open_house_of};
use cbs_job::FileJob;
use cbs_rules::{Mode, Setup};
use std::alloc::Global;

/// Returns a setup of two servers.
fn two_servers() -> Result<Setup> {
    setup_of(&[(2, 5, Mode::Soft), (2, 5, Mode::Soft)])
}

/// Returns why a core of these servers is refused, or `None` if it is made.
fn core_refusal(alloc: Global, setup: &Setup) -> Option<CoreError> {
    Core::<WideJob>::of(alloc, setup.plan(), setup.modes(), 4).err()
}

/// Makes a core.
pub fn core(rt: &impl Print, alloc: Global) -> Result<()> {
    let setup = two_servers()?;
    begin(rt);
    tell(rt, "first", core_refusal(alloc, &setup));
    tell(rt, "again", core_refusal(alloc, &setup));
    Ok(())
}

/// Returns why a house of these servers is refused, or `None` if it is opened.
fn house_refusal(alloc: Global, setup: &Setup) -> Option<HouseError> {
    open_house_of::<FileJob, Global>(alloc, setup.plan(), setup.modes(), 4, 4).err()
}

/// Opens a house.
pub fn house(rt: &impl Print, alloc: Global) -> Result<()> {
    let setup = two_servers()?;
    begin(rt);
    tell(rt, "first", house_refusal(alloc, &setup));
    tell(rt, "again", house_refusal(alloc, &setup));
    Ok(())
}

/// Returns why a collector is refused, or `None` if it is made.
fn collector_refusal(alloc: Global) -> Option<CollectError> {
    Collector::new(alloc, 2).err()
}

/// Makes a collector.
pub fn collector(rt: &impl Print, alloc: Global) -> Result<()> {
    begin(rt);
    tell(rt, "first", collector_refusal(alloc));
    tell(rt, "again", collector_refusal(alloc));
    Ok(())
}
