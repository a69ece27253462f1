// One hour of a tower: the control does its round, and the log keeps the moisture.
ghost use Rattle.std.specs.Prelude.{◌≡◌};
ghost use Rattle.bus.specs.Contract.{write_answer};
ghost use Rattle.dryer.specs.Work.{note_of, with_note};
ghost use Rattle.towers.specs.Work.{hour_answers, after_hour, counted, put_read, HoldsNoReading, OwnCellsAlone, both_answers, after_both, counted_both, EachAlone};

use super::control;
use super::tower::Tower;
use bus::contract::Bus;
use bus::refusal::Refusal;
use dryer::control::Round;
use dryer::tally::{Call, Tally};

// What the calls of one hour answered; where the moisture was not read there is nothing to keep in the log.
#[derive(Clone, Copy, Debug, PartialEq, Eq)]
pub struct HourAnswers {
    pub round: Round,
    pub noted: Option<Result<(), Refusal>>,
}

// The bus and the tally are lent side by side: of a struct of the two loans every contract would have to say what each ends as.
pub fn work_hour<B: Bus>(bus: &mut B, tower: Tower, hour: u8, tally: &mut Tally) -> HourAnswers
    ensures answer { result ≡ hour_answers tower hour (B.Bus.cells bus.old) }
    ensures after { B.Bus.cells bus.new ≡ after_hour tower hour (B.Bus.cells bus.old) }
    ensures kept { B.Bus.shape bus.new ≡ B.Bus.shape bus.old }
    ensures tally { tally.new ≡ counted result tally.old }
    ensures safe { HoldsNoReading tower result (B.Bus.cells bus.old) (B.Bus.cells bus.new) }
    ensures alone { OwnCellsAlone tower hour result (B.Bus.cells bus.old) (B.Bus.cells bus.new) }
{
    let round = control::control(bus, tower);
    tally.count(Call::Read, &round.limit);
    tally.count(Call::Read, &round.moisture);
    tally.count(Call::Read, &round.temperature);
    tally.count(Call::Write, &round.valve);
    let noted = note(bus, tower.log_at(hour), round.moisture, tally);
    HourAnswers { round, noted }
}

// What the calls of both towers answered in one hour.
#[derive(Clone, Copy, Debug, PartialEq, Eq)]
pub struct BothAnswers {
    pub one: HourAnswers,
    pub two: HourAnswers,
}

// The first tower works, then the second.
pub fn work_both<B: Bus>(bus: &mut B, hour: u8, tally: &mut Tally) -> BothAnswers
    ensures answer { result ≡ both_answers hour (B.Bus.cells bus.old) }
    ensures after { B.Bus.cells bus.new ≡ after_both hour (B.Bus.cells bus.old) }
    ensures kept { B.Bus.shape bus.new ≡ B.Bus.shape bus.old }
    ensures tally { tally.new ≡ counted_both result tally.old }
    ensures alone { EachAlone hour (B.Bus.cells bus.old) (B.Bus.cells bus.new) }
{
    let one = work_hour(bus, Tower::One, hour, tally);
    let two = work_hour(bus, Tower::Two, hour, tally);
    BothAnswers { one, two }
}

// Puts what was read at an address, and counts the call; where nothing was read there is no call.
fn note<B: Bus>(
    bus: &mut B,
    address: u32,
    reading: Result<u8, Refusal>,
    tally: &mut Tally,
) -> Option<Result<(), Refusal>>
    ensures answer { result ≡ note_of reading (write_answer (B.Bus.cells bus.old) address) }
    ensures after { B.Bus.cells bus.new ≡ put_read reading address (B.Bus.cells bus.old) }
    ensures kept { B.Bus.shape bus.new ≡ B.Bus.shape bus.old }
    ensures tally { tally.new ≡ with_note result tally.old }
{
    // A closure under `map` would hide from the proof what it does to the bus and to the tally.
    match reading {
        Ok(byte) => {
            let answer = bus.write(address, byte);
            tally.count(Call::Write, &answer);
            Some(answer)
        }
        Err(_) => None,
    }
}
