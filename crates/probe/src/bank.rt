// The probe bank: 32 one-byte registers at consecutive addresses, silent cells everywhere else.
ghost use Rattle.std.specs.Prelude.{◌≡◌};

mod cells;
mod host;

use bus::extent::Extent;
pub use host::{a_setting_changes_one_register_at_most, cells_and_shape_determine_a_bank};

// How many registers a bank has.
pub const REGISTERS: u32 = 32;

const PLACES: usize = REGISTERS as usize;

#[derive(Clone, Copy, Debug, Default, PartialEq, Eq)]
pub enum Direction {
    // The plant sets the byte: the cell is fixed.
    #[default]
    Input,
    // Whoever writes to the bus sets the byte: the cell is open.
    Output,
}

// A new register is an input of 0 that does not answer.
#[derive(Clone, Copy, Debug, Default, PartialEq, Eq)]
pub struct Register {
    pub direction: Direction,
    // Where it does not answer, the cell is silent. The byte stays, so it is no `Option`.
    pub answering: bool,
    pub byte: u8,
}

#[derive(Debug, Drop)]
pub struct ProbeBank {
    base: u32,
    tag: u8,
    registers: [Register; PLACES],
}

// Where a bank has its registers.
fn extent(base: u32) -> Extent
    ensures { result ≡ record { base = base; length = 32 } }
{
    Extent {
        base,
        length: PLACES,
    }
}
