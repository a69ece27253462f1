// The bus of the board: a probe bank for each tower, a memory for their logs, an image with their limits, and a hush over them all.
ghost use Rattle.std.specs.Prelude.{◌≡◌};
ghost use Rattle.dryer_board.specs.Board.{board_fits, board_cells, second_distance, new_probes, new_storage, new_board, new_board_cells};

use bus::address::ADDRESSES;
use bus::refusal::Refusal;
use layers::hush::Hush;
use layers::join::Join;
use layers::shift::Shift;
use layers::{join, shift};
use probe::bank::ProbeBank;
use storage::image::Image;
use storage::memory::Memory;
use towers::tower::Tower;

// The tags of the hush and of what lies below it.
pub const MEMORY_TAG: u8 = 1;

pub const IMAGE_TAG: u8 = 2;

pub const PROBES_TAG: u8 = 7;

pub const SECOND_PROBES_TAG: u8 = 8;

pub const HUSH_TAG: u8 = 9;

pub type Probes = Join<ProbeBank, Shift<ProbeBank>>;

pub type Storage<'a> = Join<Memory<'a>, Image<'a>>;

pub type BoardBus<'a> = Hush<Join<Probes, Storage<'a>>>;

// Tests the numbers of a board with a memory and an image of these lengths.
pub fn check(memory: usize, image: usize) -> Result<(), Refusal>
    ensures { result ≡ board_fits memory image }
{
    ProbeBank::check(Tower::One.moisture_at())?;
    shift::check(second_distance())?;
    join::check(Tower::Two.moisture_at())?;
    Memory::check(Tower::One.log_at(0), memory)?;
    Image::check(Tower::One.limit_at(), image)?;
    join::check(Tower::One.limit_at())?;
    join::check(Tower::One.log_at(0))
}

// A board over the lent memory and image. No probe answers yet, and no span is silent.
pub fn build<'a>(memory: &'a mut [u8], image: &'a [u8]) -> BoardBus<'a>
    ensures board { result ≡ new_board memory.entry image.entry }
    ensures cells { board_cells result ≡ new_board_cells memory.old image.now }
{
    let below = Join::new(Tower::One.log_at(0), probes(), storage(memory, image));
    Hush::new(HUSH_TAG, below)
}

// Both banks have their registers where the first tower sees its own; the second bank is seen from where the second tower does.
fn probes() -> Probes
    ensures { result ≡ new_probes }
{
    let first = ProbeBank::new(Tower::One.moisture_at(), PROBES_TAG);
    let second = ProbeBank::new(Tower::One.moisture_at(), SECOND_PROBES_TAG);
    let seen = Shift::new(second_distance(), second);
    Join::new(Tower::Two.moisture_at(), first, seen)
}

fn second_distance() -> u32
    ensures { result ≡ second_distance }
{
    ADDRESSES - (Tower::Two.moisture_at() - Tower::One.moisture_at())
}

fn storage<'a>(memory: &'a mut [u8], image: &'a [u8]) -> Storage<'a>
    ensures { result ≡ new_storage memory.entry image.entry }
{
    let low = Memory::new(Tower::One.log_at(0), MEMORY_TAG, memory);
    let high = Image::new(Tower::One.limit_at(), IMAGE_TAG, image);
    Join::new(Tower::One.limit_at(), low, high)
}
