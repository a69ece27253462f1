// One hour of the tower: the host sets the readings, the control does its round, and the log keeps the moisture.
ghost use Rattle.std.specs.Prelude.{◌≡◌};
ghost use Rattle.bus.specs.Contract.{put};
ghost use Rattle.probe.specs.Bank.{bank_cells, bank_shape};
ghost use Rattle.dryer.specs.Plant.{with_hour};
ghost use Rattle.dryer.specs.Work.{valve_at, seen, valve_set, worked, log_after, tally_after, HoldsNoReading};

use super::control::{Places, Round};
use super::plant::Hour;
use super::tally::{Call, Tally};
use super::{control, log, plant};
use bus::refusal::Refusal;
use probe::bank::ProbeBank;

// Where the probe bank lies on the bus, and what its first registers are.
pub const PROBES: u32 = 0x200;

pub const PLACES: Places = Places {
    moisture: PROBES,
    temperature: PROBES + 1,
    valve: PROBES + 2,
};

// Above this temperature the valve is closed.
pub const MAX_TEMPERATURE: u8 = 120;

// What the calls of one hour answered; where the moisture was not read there is nothing to keep in the log.
#[derive(Clone, Copy, Debug, PartialEq, Eq)]
pub struct Worked {
    pub readings: Result<(), Refusal>,
    pub round: Round,
    pub noted: Option<Result<(), Refusal>>,
}

// Unlike an hour of `towers`, it sets the bank and logs beside the bus; the control and the tally are the same.
pub fn work_hour(
    number: u8,
    hour: Hour,
    probes: &mut ProbeBank,
    log: &mut [u8],
    tally: &mut Tally,
) -> Worked
    ensures answer { result ≡ worked number (seen hour probes.old) log.old }
    ensures cells { bank_cells probes.new ≡ put (seen hour probes.old) valve_at (valve_set (seen hour probes.old)) }
    ensures shape { bank_shape probes.new ≡ bank_shape (with_hour hour probes.old) }
    ensures log { log.new ≡ log_after number (seen hour probes.old) log.old }
    ensures safe { HoldsNoReading (seen hour probes.old) (bank_cells probes.new) log.old log.new }
    ensures tally { tally.new ≡ tally_after result tally.old }
{
    let readings = plant::set_hour(probes, hour);
    tally.count(Call::Set, &readings);
    let round = control::control(probes, PLACES, Ok(MAX_TEMPERATURE));
    tally.count(Call::Read, &round.moisture);
    tally.count(Call::Read, &round.temperature);
    tally.count(Call::Write, &round.valve);
    // A closure under `map` would hide from the proof what it does to the log and to the tally.
    let noted = match round.moisture {
        Ok(moisture) => {
            let answer = log::note(log, number, moisture);
            tally.count(Call::Write, &answer);
            Some(answer)
        }
        Err(_) => None,
    };
    Worked {
        readings,
        round,
        noted,
    }
}
