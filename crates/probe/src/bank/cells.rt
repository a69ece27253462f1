// The probe bank as a bus.
ghost use Rattle.std.specs.Prelude.{◌≡◌};
ghost use Rattle.probe.specs.Bank.{register_cell, bank_cells, bank_shape};

use super::{Direction, ProbeBank, Register, extent};
use bus::address::Address;
use bus::cell::{Cell, Kind};
use bus::contract::Bus;

impl Register {
    fn cell(self, tag: u8) -> Cell
        ensures { result ≡ register_cell tag self }
    {
        let byte = self.byte;
        if !self.answering {
            return Cell::Silent { tag };
        }
        match self.direction {
            Direction::Input => Cell::Fixed { byte, tag },
            Direction::Output => Cell::Open { byte },
        }
    }
}

impl Bus for ProbeBank {
    ghost cells = { bank_cells };

    ghost shape = { bank_shape };

    fn cell(&self, address: Address) -> Cell {
        match extent(self.base).offset(address) {
            Some(number) => self.registers[number].cell(self.tag),
            None => Cell::Silent { tag: self.tag },
        }
    }

    fn store(&mut self, address: Address, byte: u8) -> Cell {
        let old = self.cell(address);
        if let Some(number) = extent(self.base).offset(address) {
            let register = &mut self.registers[number];
            if old.kind() == Kind::Open {
                register.byte = byte;
            }
        }
        old
    }
}
