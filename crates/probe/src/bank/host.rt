// What the host does with a probe bank: make it, and set its registers one at a time.
ghost use Rattle.std.specs.Prelude.{◌≡◌, ℕ, OnOk, OnErr, Ok};
ghost use Rattle.std.specs.Fn.{FnOnceReturnsAtMut};
ghost use Rattle.bus.specs.Extent.{fits};
ghost use Rattle.probe.specs.Bank.{new_bank, bank_cells, silent_cells, BankDetermined, OneRegister, in_bank, register_of, with_register, with_direction, with_answering, with_byte, replaced};

use super::{Direction, PLACES, ProbeBank, Register, extent};
use bus::refusal::Refusal;

impl ProbeBank {
    // Tests the base of a bank: all its registers lie below 16,777,216.
    pub fn check(base: u32) -> Result<(), Refusal>
        ensures { result ≡ fits base 32 }
    {
        extent(base).check()
    }

    // A bank of registers that do not answer, whatever the base: registers that lie above $FFFFFF have no cell.
    pub fn new(base: u32, tag: u8) -> ProbeBank
        ensures bank { result ≡ new_bank tag base }
        ensures cells { bank_cells result ≡ silent_cells tag }
    {
        ProbeBank {
            base,
            tag,
            registers: [Register::default(); PLACES],
        }
    }

    // What a register is set to.
    pub fn register(&self, number: u32) -> Result<Register, Refusal>
        ensures { result ≡ in_bank number (Ok (register_of self.now number)) }
    {
        let place = number as usize;
        self.registers
            .get(place)
            .copied()
            .ok_or(Refusal::OutOfRange)
    }

    // Changes one register. A host gives any number and is refused with 4, so the number of a register is no type of its own.
    fn set<F: FnOnce(&mut Register)>(&mut self, number: u32, change: F) -> Result<(), Refusal>
        requires { F.IsAlwaysCallable change }
        ensures answer { result ≡ in_bank number (Ok tt) }
        ensures ok { OnOk result ((r : Register) × FnOnceReturnsAtMut F.FnOnce change (register_of self.old number) tt r × (self.new ≡ with_register number (λ _. r) self.old)) }
        ensures err { OnErr result (self.new ≡ self.old) }
    {
        let place = number as usize;
        if place >= PLACES {
            return Err(Refusal::OutOfRange);
        }
        change(&mut self.registers[place]);
        Ok(())
    }

    pub fn set_direction(&mut self, number: u32, direction: Direction) -> Result<(), Refusal>
        ensures answer { result ≡ in_bank number (Ok tt) }
        ensures bank { self.new ≡ with_register number (with_direction direction) self.old }
        ensures cells { bank_cells self.new ≡ replaced number (with_direction direction) self.old }
    {
        self.set(number, |register| register.direction = direction)
    }

    pub fn set_answering(&mut self, number: u32, answering: bool) -> Result<(), Refusal>
        ensures answer { result ≡ in_bank number (Ok tt) }
        ensures bank { self.new ≡ with_register number (with_answering answering) self.old }
        ensures cells { bank_cells self.new ≡ replaced number (with_answering answering) self.old }
    {
        self.set(number, |register| register.answering = answering)
    }

    pub fn set_byte(&mut self, number: u32, byte: u8) -> Result<(), Refusal>
        ensures answer { result ≡ in_bank number (Ok tt) }
        ensures bank { self.new ≡ with_register number (with_byte byte) self.old }
        ensures cells { bank_cells self.new ≡ replaced number (with_byte byte) self.old }
    {
        self.set(number, |register| register.byte = byte)
    }
}

// What `with_register` means, said without its definition: `OneRegister` in `specs/Bank.antt`.
pub fn a_setting_changes_one_register_at_most()
    ensures { (bank : ProbeBank) (n : ℕ) (change : Register → Register) → OneRegister bank n change }
{}

// A bank holds nothing beside its cells and its shape: another with the same is the same.
pub fn cells_and_shape_determine_a_bank()
    ensures { BankDetermined }
{}
