// Join: below a boundary address the cells of one bus, from it on those of another.
ghost use Rattle.std.specs.Prelude.{◌≡◌, ◌≤◌, nat_lt};
ghost use Rattle.bus.specs.Address.{space};
ghost use Rattle.bus.specs.Meaning.{Agree};
ghost use Rattle.layers.specs.Join.{boundary_answer, joined, join_cells, join_shape};

use bus::address::Address;
use bus::cell::Cell;
use bus::contract::Bus;
use bus::extent::Extent;
use bus::refusal::Refusal;

// The two buses are public: a host reaches one of them by its name.
#[derive(Debug, Drop)]
pub struct Join<L, R> {
    boundary: u32,
    pub low: L,
    pub high: R,
}

// Tests the boundary of a join: it is at most 16,777,216.
pub fn check(boundary: u32) -> Result<(), Refusal>
    ensures { result ≡ boundary_answer boundary }
{
    let below = Extent {
        base: 0,
        length: boundary as usize,
    };
    below.check()
}

impl<L: Bus, R: Bus> Join<L, R> {
    // A join of the two, whatever the boundary: where it is above the last address, the second has no address.
    pub fn new(boundary: u32, low: L, high: R) -> Join<L, R>
        ensures join { result ≡ record { boundary = boundary; low = low; high = high } }
        ensures cells { join_cells L.Bus.cells R.Bus.cells result ≡ joined boundary (L.Bus.cells low) (R.Bus.cells high) }
        ensures beyond { space ≤ boundary → Agree (join_cells L.Bus.cells R.Bus.cells result) (L.Bus.cells low) }
    {
        Join {
            boundary,
            low,
            high,
        }
    }

    // Whether an address belongs to the first bus.
    fn is_low(&self, address: Address) -> bool
        ensures { result ≡ nat_lt address.value self.now.boundary }
    {
        u32::from(address) < self.boundary
    }
}

impl<L: Bus, R: Bus> Bus for Join<L, R> {
    ghost cells = { join_cells L.Bus.cells R.Bus.cells };

    ghost shape = { join_shape L.Bus.cells L.Bus.shape R.Bus.cells R.Bus.shape };

    fn cell(&self, address: Address) -> Cell {
        if self.is_low(address) {
            self.low.cell(address)
        } else {
            self.high.cell(address)
        }
    }

    fn store(&mut self, address: Address, byte: u8) -> Cell {
        if self.is_low(address) {
            self.low.store(address, byte)
        } else {
            self.high.store(address, byte)
        }
    }
}
