// A cell, what stands at one address of a bus, and what it answers.
ghost use Rattle.std.specs.Prelude.{◌≡◌};
ghost use Rattle.bus.specs.Cell.{kind_of, kind_number, read_of, write_of};

use super::address::Address;
use super::refusal::{Fault, Refusal};

// A tag is a number of the bus or layer that the cell belongs to, given when that is made.
#[derive(Clone, Copy, Debug, PartialEq, Eq)]
pub enum Cell {
    // Answers neither a read nor a write.
    Silent { tag: u8 },
    // Has a byte that no write changes.
    Fixed { byte: u8, tag: u8 },
    // Has a byte that a write replaces.
    Open { byte: u8 },
}

#[derive(Clone, Copy, Debug, PartialEq, Eq)]
pub enum Kind {
    Silent = 0,
    Fixed = 1,
    Open = 2,
}

impl From<Kind> for u8 {
    ghost from_gives = { λ kind number. number ≡ kind_number kind };

    fn from(kind: Kind) -> u8 {
        kind as u8
    }
}

impl Cell {
    pub fn kind(self) -> Kind
        ensures { result ≡ kind_of self }
    {
        match self {
            Cell::Silent { .. } => Kind::Silent,
            Cell::Fixed { .. } => Kind::Fixed,
            Cell::Open { .. } => Kind::Open,
        }
    }

    // What a read of this cell at this address answers.
    pub fn read(self, address: Address) -> Result<u8, Refusal>
        ensures { result ≡ read_of address self }
    {
        match self {
            Cell::Silent { tag } => Err(Refusal::Fault(Fault::Silent { address, tag })),
            Cell::Fixed { byte, .. } => Ok(byte),
            Cell::Open { byte } => Ok(byte),
        }
    }

    // What a write to this cell at this address answers; the byte is the bus's to store.
    pub fn check_write(self, address: Address) -> Result<(), Refusal>
        ensures { result ≡ write_of address self }
    {
        match self {
            Cell::Silent { tag } => Err(Refusal::Fault(Fault::Silent { address, tag })),
            Cell::Fixed { tag, .. } => Err(Refusal::Fault(Fault::Fixed { address, tag })),
            Cell::Open { .. } => Ok(()),
        }
    }
}
