//! The CRC-32 of bytes, which may go on.

ghost use Rattle.std.specs.Prelude.{◌≡◌};
ghost use Rattle.cbs_sums.specs.Sums.{shifted, share_of, AreShares, updated, after, initial, sum_of};

use std::marker::Model;

/// The polynomial of IEEE 802.3, with its lowest power in the highest bit.
const POLYNOMIAL: u32 = 0xEDB8_8320;

/// Returns the register after one bit.
fn shifted(register: u32) -> u32
    ensures { result ≡ shifted register }
{
    if register & 1 == 1 {
        POLYNOMIAL ^ (register >> 1)
    } else {
        register >> 1
    }
}

/// Returns what a byte brings into the register.
#[tactic(auto, unfolding(crate::specs::Sums::share_of))]
fn share_of(byte: u32) -> u32
    ensures { result ≡ share_of byte }
{
    let mut register = byte;
    for _ in 0..8_u32 {
        register = shifted(register);
    }
    register
}

/// Returns what each byte brings into the register, by its number.
fn shares() -> [u32; 256]
    ensures { AreShares result }
{
    let mut shares = [0; 256];
    for byte in 0..256 {
        shares[byte] = share_of(byte as u32);
    }
    shares
}

/// The CRC-32 of bytes, to which more can be added. A contract sees its register.
#[derive(Drop)]
pub struct Sum {
    shares: [u32; 256],
    register: u32,
}

impl Model for Sum {
    ghost use Rattle.std.specs.Prelude.{ℕ};
    ghost use Rattle.cbs_sums.specs.Sums.{AreShares};

    ghost Value = { ℕ };

    ghost view = { λ s. s.register };

    ghost invariant = { λ s. AreShares s.shares };
}

impl Sum {
    /// Returns the sum of no byte.
    pub fn new() -> Sum
        ensures { result ≡ initial }
    {
        Sum {
            shares: shares(),
            register: 0xFFFF_FFFF,
        }
    }

    /// Adds bytes after those that it has.
    pub fn add(&mut self, bytes: &[u8])
        ensures { self.new ≡ after self.old bytes.now }
    {
        let mut register = self.register;
        for byte in bytes {
            register = self.updated(register, *byte);
        }
        self.register = register;
    }

    /// Returns a register after one more byte.
    #[inline(always)]
    fn updated(&self, register: u32, byte: u8) -> u32
        ensures { result ≡ updated register byte }
    {
        let share = self.shares[((register ^ u32::from(byte)) & 255) as usize];
        share ^ (register >> 8)
    }

    /// Returns the sum of the bytes.
    pub fn value(&self) -> u32
        ensures { result ≡ sum_of self.now }
    {
        self.register ^ 0xFFFF_FFFF
    }
}
