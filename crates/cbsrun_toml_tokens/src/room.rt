//! How much memory may hold what is read piece by piece.

ghost use Rattle.std.specs.Prelude.{◌≡◌, ◌+◌, ◌<◌, ◌≤◌, OnOk, IfErr};
ghost use Rattle.cbsrun_toml_tokens.specs.declared.stop.Stop.TheVariants.{Unusual};

use crate::stop::Stop;

/// How many bytes a value takes: itself and the place of its text.
const VALUE: u64 = 64;

/// How many bytes a pair of a table takes beside its value: its key, and its share of a block of the table.
pub const PAIR: u64 = 256;

/// How many bytes a table with a pair takes: a block with places for fifteen pairs.
pub const TABLE: u64 = 1280;

/// How many bytes of memory may still be taken for values. The texts of values are not counted, since they are no
/// longer than the text that is read.
#[derive(Clone, Copy)]
pub struct Room {
    pub left: u64,
}

impl Room {
    /// Returns room for 64 MiB. A job with the most units that a job may have, 1,000,000, takes 64 MB at most.
    pub fn new() -> Room
        ensures { result.left ≡ 67108864 }
    {
        Room { left: 67_108_864 }
    }

    /// Takes this many bytes. If fewer are left, returns [`Stop::Unusual`]: the text has to be read in another way.
    pub fn take(&mut self, bytes: u64) -> Result<(), Stop>
        ensures taken { OnOk result (self.new.left + bytes ≡ self.old.left) }
        ensures refusal { IfErr result (λ e. (e ≡ Unusual) × (self.old.left < bytes)) }
    {
        let Some(left) = self.left.checked_sub(bytes) else {
            return Err(Stop::Unusual);
        };
        self.left = left;
        Ok(())
    }
}

/// Returns how many bytes a value with this first byte takes.
pub fn size_of_value(first: u8) -> u64 {
    if first == b'{' { VALUE + TABLE } else { VALUE }
}
