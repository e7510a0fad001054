// A table of what eight steps make of the register, and the step of a byte that looks one up.
ghost use Rattle.std.specs.Prelude.{◌≡◌, ◌*◌, ◌<◌, ◌≤◌, true, length};
ghost use Rattle.crc.specs.Crc.{bits_entered};
ghost use Rattle.crc.specs.Tables.{tabulates};

use crate::{Method, table_index};

/// At each place, what eight steps make of a register that holds `SCALE` times the place. The rule is tested over the whole
/// table where one is written down. It is borrowed: the entries stand in the program once, and are not laid anew at each look-up.
pub struct StepTable<const N: usize, const SCALE: u16> {
    pub entries: &'static [u16; N],
    ghost whole: { length entries.now ≡ N },
    ghost few: { N ≤ 256 },
    ghost rule: { tabulates SCALE entries.now ≡ true },
}

impl<const N: usize, const SCALE: u16> StepTable<N, SCALE> {
    /// What eight steps make of a register that holds `SCALE` times the place.
    pub fn at(&self, place: usize) -> u16
        requires { place < N }
        ensures { result ≡ bits_entered 8 (place * SCALE) 0 }
    {
        self.entries[place]
    }
}

/// A method that looks up the eight steps of a byte at once.
pub trait LooksUp {
    /// What eight steps make of a register that holds `index`.
    fn eight_steps(index: u8) -> u16
        ensures { result ≡ bits_entered 8 index 0 };
}

impl<L: LooksUp> Method for L {
    fn update(register: u16, byte: u8) -> u16 {
        (register >> 8) ^ L::eight_steps(table_index(register, byte))
    }
}
