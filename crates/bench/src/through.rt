// What a caller knows of the two buses of a join after a write through it.
ghost use Rattle.std.specs.Prelude.{◌≡◌, if◌then◌else◌, nat_lt};
ghost use Rattle.bus.specs.Contract.{write_answer, put};
ghost use Rattle.layers.specs.Join.{join_cells, join_shape};

use bus::contract::Bus;
use bus::refusal::Refusal;
use layers::join::Join;

// A write through a join, told by the cells of its two buses.
pub fn write_joined<L: Bus, R: Bus>(
    join: &mut Join<L, R>,
    address: u32,
    byte: u8,
) -> Result<(), Refusal>
    ensures answer { result ≡ write_answer (join_cells L.Bus.cells R.Bus.cells join.old) address }
    ensures kept { join_shape L.Bus.cells L.Bus.shape R.Bus.cells R.Bus.shape join.new ≡ join_shape L.Bus.cells L.Bus.shape R.Bus.cells R.Bus.shape join.old }
    ensures low { L.Bus.cells join.new.low ≡ (if nat_lt address join.old.boundary then put (L.Bus.cells join.old.low) address byte else L.Bus.cells join.old.low) }
    ensures high { R.Bus.cells join.new.high ≡ (if nat_lt address join.old.boundary then R.Bus.cells join.old.high else put (R.Bus.cells join.old.high) address byte) }
{
    join.write(address, byte)
}
