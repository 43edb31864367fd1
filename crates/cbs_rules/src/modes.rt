//! The modes of several servers.

ghost use Rattle.std.specs.Prelude.{◌≡◌, ◌↔◌, ◌≤◌, ◌<◌, [], ◌∷◌, ◌++◌, length, replicate, slice_get, IsTrue};
ghost use Rattle.cbs_rate.specs.Limits.{most_servers};

use crate::mode::Mode;
use arrayvec::ArrayVec;
use cbs_rate::MAX_SERVERS;
use std::marker::Model;

/// The modes of at most [`MAX_SERVERS`] servers, which are numbered from 0. The modes lie in the value itself: no call
/// takes memory.
#[derive(Debug, Drop)]
pub struct Modes {
    modes: ArrayVec<Mode, MAX_SERVERS>,
}

impl Model for Modes {
    ghost use Rattle.std.specs.Prelude.{List};
    ghost use Rattle.cbs_rules.specs.declared.mode.Mode.{Mode};

    ghost Value = { List Mode };

    ghost view = { λ m. m.modes.items };
}

impl Modes {
    /// Returns the modes of no server.
    pub fn new() -> Modes
        ensures { result ≡ [] }
    {
        Modes {
            modes: ArrayVec::new(),
        }
    }

    /// Returns the modes of `servers` servers, at most [`MAX_SERVERS`], all with the same mode.
    pub fn uniform(mode: Mode, servers: u16) -> Modes
        requires { servers ≤ most_servers }
        ensures { result ≡ replicate servers mode }
    {
        let mut modes = Modes::new();
        for _server in 0..servers {
            modes.push(mode);
        }
        modes
    }

    /// Adds one more server, with this mode. There must be fewer than [`MAX_SERVERS`].
    pub fn push(&mut self, mode: Mode)
        requires { length self.old < most_servers }
        ensures { self.new ≡ self.old ++ mode ∷ [] }
    {
        self.modes.push(mode);
    }

    /// Returns the number of servers.
    pub fn len(&self) -> usize
        ensures value { result ≡ length self.now }
        ensures few { length self.now ≤ most_servers }
    {
        self.modes.len()
    }

    /// Returns whether there is no server.
    pub fn is_empty(&self) -> bool
        ensures { IsTrue result ↔ (self.now ≡ []) }
    {
        self.modes.is_empty()
    }

    /// Returns the mode of the server with this number, or `None` if there is no such server.
    pub fn get(&self, server: u16) -> Option<Mode>
        ensures { result ≡ slice_get self.now server }
    {
        self.modes.get(usize::from(server)).copied()
    }
}
