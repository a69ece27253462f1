// Bytes that a host lends to a memory for one write, and what it knows of each of them afterwards.
ghost use Rattle.std.specs.Prelude.{◌≡◌};
ghost use Rattle.bus.specs.Contract.{write_answer, put};
ghost use Rattle.storage.specs.Lent.{lent_answer, lent_after};

use super::memory::Memory;
use bus::contract::Bus;
use bus::refusal::Refusal;

// Writes a byte to the lent bytes, through a memory over them from the base on.
pub fn write(bytes: &mut [u8], base: u32, tag: u8, address: u32, byte: u8) -> Result<(), Refusal>
    ensures answer { result ≡ lent_answer tag base bytes.old address }
    ensures bytes { bytes.new ≡ lent_after base bytes.old address byte }
{
    Memory::check(base, bytes.len())?;
    let mut memory = Memory::new(base, tag, bytes);
    write_any(&mut memory, address, byte)
}

// Code over any bus, to which the memory is lent: it promises its cells and its shape alone.
fn write_any<B: Bus>(bus: &mut B, address: u32, byte: u8) -> Result<(), Refusal>
    ensures answer { result ≡ write_answer (B.Bus.cells bus.old) address }
    ensures after { B.Bus.cells bus.new ≡ put (B.Bus.cells bus.old) address byte }
    ensures kept { B.Bus.shape bus.new ≡ B.Bus.shape bus.old }
{
    bus.write(address, byte)
}
