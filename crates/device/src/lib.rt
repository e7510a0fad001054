//! What a device is to the node that it stands behind: variables, memories and a few constants. Any device that keeps the contract of
//! the trait `Device` can be put behind a node.
#![tactic(auto)]

ghost use Rattle.std.specs.Prelude.{◌≡◌, length};
ghost use Rattle.device.specs.Meaning.{Meaning};
ghost use Rattle.device.specs.Changes.{accepts, offered, can_store, stored, restarted};
ghost use Rattle.device.specs.Answers.{address_of, state_at, byte_at, reading_answer};
ghost use Rattle.device.specs.Laws.{WellFormed};
ghost use Rattle.device.specs.declared.VariableKind.TheVariants.{Setting, Reading};

use refusals::Refusal;

pub mod assignments;
pub mod widths;

/// The most bits of a variable.
pub const MAX_WIDTH: u8 = 32;

/// The most bytes of a memory.
pub const MAX_MEMORY: usize = 65536;

/// Who may change a variable: a request changes a setting, and the device itself tells new values of a reading.
#[derive(Clone, Copy, PartialEq, Eq)]
pub enum VariableKind {
    Setting,
    Reading,
}

/// What a device tells of a variable: how many bits a new value may have, who may change it, and what it holds.
#[derive(Clone, Copy)]
pub struct VariableState {
    pub width: u8,
    pub kind: VariableKind,
    pub present: u32,
}

impl VariableState {
    /// Of a variable of a kind.
    pub fn new(kind: VariableKind, width: u8, present: u32) -> VariableState
        ensures { result ≡ record { width = width; kind = kind; present = present } }
    {
        VariableState {
            width,
            kind,
            present,
        }
    }
}

/// What a device tells of a byte of a memory.
#[derive(Clone, Copy)]
pub struct MemoryByte {
    pub value: u8,
    pub writable: bool,
}

/// A device, known by what it means. Questions and refusals change nothing; an accepted change makes one present value the given one
/// and leaves all else. Where a refusal has no reason to tell, the answer is a `bool`.
pub trait Device {
    ghost means: { Self → Meaning };

    /// How many variables there are.
    fn variable_count(&self) -> usize
        ensures { result ≡ length (means self.now).variables };

    /// The address of variable number `index`, counted from 0 by ascending address.
    fn address_of(&self, index: usize) -> Option<u16>
        ensures { result ≡ address_of (means self.now) index };

    /// Width, kind and present value of the variable at `address`.
    fn variable(&self, address: u16) -> Option<VariableState>
        ensures { result ≡ state_at (means self.now) address };

    /// The identity string, of at most 255 bytes.
    fn identity(&self) -> &[u8]
        ensures { result.now ≡ (means self.now).identity };

    /// The option number, below 16.
    fn option(&self) -> u8
        ensures { result ≡ (means self.now).option };

    /// The implementation number.
    fn implementation(&self) -> u8
        ensures { result ≡ (means self.now).implementation };

    /// The estimated time of a restart.
    fn estimate(&self) -> u16
        ensures { result ≡ (means self.now).estimate };

    /// Sets the setting at `address`: accepted exactly where there is one and the value is below 2 to its width.
    fn set(&mut self, address: u16, value: u32) -> bool
        ensures answer { result ≡ accepts Setting (means self.old) address value }
        ensures after { means self.new ≡ offered Setting (means self.old) address value };

    /// Whether `set` would accept this value.
    fn can_set(&self, address: u16, value: u32) -> bool
        ensures { result ≡ accepts Setting (means self.now) address value }
    {
        self.variable(address).is_some_and(|variable| {
            variable.kind == VariableKind::Setting && widths::fits(value, variable.width)
        })
    }

    /// Takes a new value of the reading at `address`: accepted exactly where there is one and the value is below 2 to its width.
    fn new_reading(&mut self, address: u16, value: u32) -> Result<(), Refusal>
        ensures answer { result ≡ reading_answer (means self.old) address value }
        ensures after { means self.new ≡ offered Reading (means self.old) address value };

    /// Byte `offset` of a memory, and whether it is writable. There are the memories 0 to 3.
    fn byte(&self, memory: u8, offset: usize) -> Option<MemoryByte>
        ensures { result ≡ byte_at (means self.now) memory offset };

    /// Stores a byte: accepted exactly where there is such a byte and it is writable.
    fn store(&mut self, memory: u8, offset: usize, value: u8) -> bool
        ensures answer { result ≡ can_store (means self.old) memory offset }
        ensures after { means self.new ≡ stored (means self.old) memory offset value };

    /// Gives every present value its power-up value.
    fn restart(&mut self)
        ensures { means self.new ≡ restarted (means self.old) };

    ghost laws: { (d : Self) → WellFormed (means d) };
}
