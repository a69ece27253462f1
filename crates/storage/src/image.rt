// Image: fixed cells over lent bytes from a base address on, silent cells everywhere else.
ghost use Rattle.std.specs.Prelude.{◌≡◌};
ghost use Rattle.bus.specs.Extent.{fits};
ghost use Rattle.storage.specs.Image.{fixed_from, image_cells, image_shape, ImageDetermined};

use bus::address::Address;
use bus::cell::Cell;
use bus::contract::Bus;
use bus::extent::Extent;
use bus::refusal::Refusal;

#[derive(Debug, Drop)]
pub struct Image<'a> {
    base: u32,
    tag: u8,
    bytes: &'a [u8],
}

impl<'a> Image<'a> {
    // Tests the numbers of an image: base plus length is at most 16,777,216.
    pub fn check(base: u32, length: usize) -> Result<(), Refusal>
        ensures { result ≡ fits base length }
    {
        Extent { base, length }.check()
    }

    // An image of the lent bytes, whatever the numbers: bytes that lie above $FFFFFF have no cell.
    pub fn new(base: u32, tag: u8, bytes: &'a [u8]) -> Image<'a>
        ensures image { result ≡ record { base = base; tag = tag; bytes = bytes.entry } }
        ensures cells { image_cells result ≡ fixed_from tag base bytes.now }
    {
        Image { base, tag, bytes }
    }
}

impl Bus for Image<'_> {
    ghost cells = { image_cells };

    ghost shape = { image_shape };

    fn cell(&self, address: Address) -> Cell {
        let extent = Extent {
            base: self.base,
            length: self.bytes.len(),
        };
        match extent.offset(address) {
            Some(offset) => Cell::Fixed {
                byte: self.bytes[offset],
                tag: self.tag,
            },
            None => Cell::Silent { tag: self.tag },
        }
    }

    // No cell of an image is open.
    fn store(&mut self, address: Address, _byte: u8) -> Cell {
        self.cell(address)
    }
}

// An image holds nothing beside its cells and its shape: another with the same has the same numbers and bytes.
pub fn cells_and_shape_determine_an_image()
    ensures { ImageDetermined }
{}
