// What a bus owes. Whoever adds a bus implements `Bus` and proves exactly this of it.
ghost use Rattle.std.specs.Prelude.{◌≡◌, ◌≢◌, ℕ, OnErr};
ghost use Rattle.bus.specs.declared.cell.Kind.TheVariants.{Open};
ghost use Rattle.bus.specs.Cell.{kind_of};
ghost use Rattle.bus.specs.Meaning.{WholeMeaning};
ghost use Rattle.bus.specs.Contract.{Cells, Shape, kind_answer, read_answer, write_answer, put, OneByte};

use super::address::Address;
use super::cell::{Cell, Kind};
use super::refusal::Refusal;

pub trait Bus {
    // The cell at each address: the whole meaning of a bus.
    ghost cells: { Self → Cells };

    // All that a bus holds and its cells do not show. No call changes it; that relates the bus before a call and after it, so a clause says it and
    // no invariant.
    ghost shape: { Self → Shape };

    // The cell at an address.
    fn cell(&self, address: Address) -> Cell
        ensures { result ≡ cells self.now address.value };

    // Puts the byte into the cell if it is open, and leaves the whole bus as it was if it is not. Answers the cell that was there, so that a write goes
    // down through the layers once.
    fn store(&mut self, address: Address, byte: u8) -> Cell
        ensures was { result ≡ cells self.old address.value }
        ensures after { cells self.new ≡ put (cells self.old) address.value byte }
        ensures kept { shape self.new ≡ shape self.old }
        ensures untouched { (kind_of result ≢ Open) → self.new ≡ self.old };

    // Which kind the cell is of.
    fn kind(&self, address: u32) -> Result<Kind, Refusal>
        ensures { result ≡ kind_answer (cells self.now) address }
    {
        let address = Address::try_from(address)?;
        Ok(self.cell(address).kind())
    }

    // The byte of a fixed or an open cell.
    fn read(&self, address: u32) -> Result<u8, Refusal>
        ensures { result ≡ read_answer (cells self.now) address }
    {
        let address = Address::try_from(address)?;
        self.cell(address).read(address)
    }

    // Puts the byte into an open cell. A refusal leaves the whole bus as it was, and not only what the cells and the shape tell of it.
    fn write(&mut self, address: u32, byte: u8) -> Result<(), Refusal>
        ensures answer { result ≡ write_answer (cells self.old) address }
        ensures after { cells self.new ≡ put (cells self.old) address byte }
        ensures kept { shape self.new ≡ shape self.old }
        ensures untouched { OnErr result (self.new ≡ self.old) }
    {
        let address = Address::try_from(address)?;
        self.store(address, byte).check_write(address)
    }
}

// What `put` means, said without its definition: `OneByte` in `specs/Contract.antt`.
pub fn a_write_changes_one_byte_at_most()
    ensures { (before : Cells) (a v : ℕ) → OneByte before a v }
{}

// The cells are the whole meaning of a bus: the same cells mean the same answers to any calls, and the other way round.
pub fn cells_are_the_whole_meaning()
    ensures { (one other : Cells) → WholeMeaning one other }
{}
