// Shift: at each address the cell that lies a distance further on in the bus below, which goes on at 0 after $FFFFFF.
ghost use Rattle.std.specs.Prelude.{◌≡◌, ◌%◌};
ghost use Rattle.bus.specs.Address.{space};
ghost use Rattle.layers.specs.Shift.{distance_answer, target, shifted, shift_cells, shift_shape};

use bus::address::{ADDRESSES, Address};
use bus::cell::Cell;
use bus::contract::Bus;
use bus::extent::Extent;
use bus::refusal::Refusal;

// The bus below is public: a host reaches it by its name.
#[derive(Debug, Drop)]
pub struct Shift<B> {
    distance: u32,
    pub below: B,
}

// Tests the distance of a shift: it is below 16,777,216.
pub fn check(distance: u32) -> Result<(), Refusal>
    ensures { result ≡ distance_answer distance }
{
    let target = Extent {
        base: distance,
        length: 1,
    };
    target.check()
}

impl<B: Bus> Shift<B> {
    // A shift of the bus, whatever the distance: it counts modulo 16,777,216.
    pub fn new(distance: u32, below: B) -> Shift<B>
        ensures shift { result ≡ record { distance = distance; below = below } }
        ensures cells { shift_cells B.Bus.cells result ≡ shifted distance (B.Bus.cells below) }
        ensures modulo { shifted distance (B.Bus.cells below) ≡ shifted (distance % space) (B.Bus.cells below) }
    {
        Shift { distance, below }
    }

    // The address below at which the cell of an address lies.
    fn target(&self, address: Address) -> Address
        ensures { result.value ≡ target self.now.distance address.value }
    {
        Address::wrapping(u32::from(address) + self.distance % ADDRESSES)
    }
}

impl<B: Bus> Bus for Shift<B> {
    ghost cells = { shift_cells B.Bus.cells };

    ghost shape = { shift_shape B.Bus.shape };

    fn cell(&self, address: Address) -> Cell {
        self.below.cell(self.target(address))
    }

    fn store(&mut self, address: Address, byte: u8) -> Cell {
        let target = self.target(address);
        self.below.store(target, byte)
    }
}
