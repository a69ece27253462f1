// The log of a shift: a byte for each hour, in bytes that the caller lends.
ghost use Rattle.std.specs.Prelude.{◌≡◌};
ghost use Rattle.dryer.specs.Log.{note_answer, logged};

use bus::refusal::Refusal;
use storage::lent;

// Where the log lies on the bus.
pub const LOG: u32 = 0x1000;

// The tag of the cells around it.
pub const LOG_TAG: u8 = 1;

// Puts the byte of an hour into the lent log, through a memory over it.
pub fn note(log: &mut [u8], hour: u8, byte: u8) -> Result<(), Refusal>
    ensures answer { result ≡ note_answer log.old hour }
    ensures bytes { log.new ≡ logged log.old hour byte }
{
    lent::write(log, LOG, LOG_TAG, LOG + hour as u32, byte)
}
