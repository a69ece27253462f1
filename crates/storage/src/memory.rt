// Memory: open cells over lent bytes from a base address on, silent cells everywhere else.
ghost use Rattle.std.specs.Prelude.{◌≡◌, length};
ghost use Rattle.bus.specs.Extent.{fits, offset_in};
ghost use Rattle.storage.specs.Memory.{open_from, memory_cells, memory_shape, MemoryDetermined};

use bus::address::Address;
use bus::cell::Cell;
use bus::contract::Bus;
use bus::extent::Extent;
use bus::refusal::Refusal;

#[derive(Debug, Drop)]
pub struct Memory<'a> {
    base: u32,
    tag: u8,
    bytes: &'a mut [u8],
}

impl<'a> Memory<'a> {
    // Tests the numbers of a memory: base plus length is at most 16,777,216.
    pub fn check(base: u32, length: usize) -> Result<(), Refusal>
        ensures { result ≡ fits base length }
    {
        Extent { base, length }.check()
    }

    // A memory over the lent bytes, whatever the numbers: bytes that lie above $FFFFFF have no cell and keep their value.
    pub fn new(base: u32, tag: u8, bytes: &'a mut [u8]) -> Memory<'a>
        ensures memory { result ≡ record { base = base; tag = tag; bytes = bytes.entry } }
        ensures cells { memory_cells result ≡ open_from tag base bytes.old }
    {
        Memory { base, tag, bytes }
    }

    // Where in the bytes the address lies.
    fn offset(&self, address: Address) -> Option<usize>
        ensures { result ≡ offset_in self.now.base (length self.now.bytes.now) address.value }
    {
        let extent = Extent {
            base: self.base,
            length: self.bytes.len(),
        };
        extent.offset(address)
    }
}

impl Bus for Memory<'_> {
    ghost cells = { memory_cells };

    ghost shape = { memory_shape };

    fn cell(&self, address: Address) -> Cell {
        match self.offset(address) {
            Some(offset) => Cell::Open {
                byte: self.bytes[offset],
            },
            None => Cell::Silent { tag: self.tag },
        }
    }

    fn store(&mut self, address: Address, byte: u8) -> Cell {
        let old = self.cell(address);
        if let Some(offset) = self.offset(address) {
            self.bytes[offset] = byte;
        }
        old
    }
}

// A memory holds nothing beside its cells and its shape: another with the same has the same numbers and bytes.
pub fn cells_and_shape_determine_a_memory()
    ensures { MemoryDetermined }
{}
