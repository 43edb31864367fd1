//! The pacer of a house.

ghost use Rattle.std.specs.Prelude.{◌<◌};

use cbs_pace::Pace;

/// What tells the host of a house what it does next. It knows the pace of the house, and the server
/// whose unit is being done, if one is. It also knows whether the host listens for its bell.
#[repr(C)]
#[derive(Debug, Drop)]
pub struct Pacer {
    pub(crate) pace: Pace,
    // The server whose unit is being done, if one is.
    pub(crate) server: u16,
    pub(crate) does: bool,
    pub(crate) listens: bool,
    // How many messages the last polls took.
    pub(crate) taken: u32,
    ghost there: { server < 64 },
}
