// Hush: cells inside its spans are silent with its own tag, the others are those of the bus below.
ghost use Rattle.std.specs.Prelude.{◌≡◌, []};
ghost use Rattle.bus.specs.declared.cell.Cell.TheVariants.{Silent};
ghost use Rattle.layers.specs.Hush.{hushed, hush_cells, hush_shape};

use bus::address::Address;
use bus::cell::Cell;
use bus::contract::Bus;
use span::spans::Spans;

// The bus below is public: a host reaches it by its name.
#[derive(Debug, Drop)]
pub struct Hush<B> {
    tag: u8,
    spans: Spans,
    pub below: B,
}

impl<B: Bus> Hush<B> {
    // A hush of the bus that has no spans yet, so every cell is as below.
    pub fn new(tag: u8, below: B) -> Hush<B>
        ensures hush { result ≡ record { tag = tag; spans = []; below = below } }
        ensures cells { hush_cells B.Bus.cells result ≡ B.Bus.cells below }
    {
        Hush {
            tag,
            spans: Spans::empty(),
            below,
        }
    }

    // Makes the cells inside these spans silent, and those of earlier spans as below. The bus below is as it was.
    pub fn set_spans(&mut self, spans: Spans)
        ensures hush { self.new ≡ record { tag = self.old.tag; spans = spans; below = self.old.below } }
        ensures cells { hush_cells B.Bus.cells self.new ≡ hushed self.old.tag spans (B.Bus.cells self.old.below) }
    {
        self.spans = spans;
    }

    // The cell at each address inside the spans.
    fn silent(&self) -> Cell
        ensures { result ≡ Silent self.now.tag }
    {
        Cell::Silent { tag: self.tag }
    }
}

impl<B: Bus> Bus for Hush<B> {
    ghost cells = { hush_cells B.Bus.cells };

    ghost shape = { hush_shape B.Bus.cells B.Bus.shape };

    fn cell(&self, address: Address) -> Cell {
        if self.spans.contains(address) {
            self.silent()
        } else {
            self.below.cell(address)
        }
    }

    fn store(&mut self, address: Address, byte: u8) -> Cell {
        if self.spans.contains(address) {
            self.silent()
        } else {
            self.below.store(address, byte)
        }
    }
}
