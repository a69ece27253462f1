// The plant as its host sets it: the probes and the burner's valve of a tower as registers of its bank.
ghost use Rattle.std.specs.Prelude.{◌≡◌, Ok};
ghost use Rattle.dryer.specs.Plant.{in_service, with_readings, with_hour};

use bus::refusal::Refusal;
use probe::bank::{Direction, ProbeBank};

const MOISTURE_REGISTER: u32 = 0;

const TEMPERATURE_REGISTER: u32 = 1;

const VALVE_REGISTER: u32 = 2;

// What the probes of a tower measure.
#[derive(Clone, Copy, Debug, PartialEq, Eq)]
pub struct Readings {
    pub moisture: u8,
    pub temperature: u8,
}

// What they measure in an hour, and whether the one for moisture answers. A silent probe measures too: its register keeps the byte.
#[derive(Clone, Copy, Debug, PartialEq, Eq)]
pub struct Hour {
    pub readings: Readings,
    pub moisture_answers: bool,
}

// Both probes answer, and the valve answers as an output.
pub fn set_up(probes: &mut ProbeBank) -> Result<(), Refusal>
    ensures answer { result ≡ Ok tt }
    ensures bank { probes.new ≡ in_service probes.old }
{
    probes.set_answering(MOISTURE_REGISTER, true)?;
    probes.set_answering(TEMPERATURE_REGISTER, true)?;
    probes.set_direction(VALVE_REGISTER, Direction::Output)?;
    probes.set_answering(VALVE_REGISTER, true)
}

// What the probes measure; their numbers are those of registers, so no setting is refused.
pub fn set_readings(probes: &mut ProbeBank, readings: Readings) -> Result<(), Refusal>
    ensures answer { result ≡ Ok tt }
    ensures bank { probes.new ≡ with_readings readings probes.old }
{
    probes.set_byte(MOISTURE_REGISTER, readings.moisture)?;
    probes.set_byte(TEMPERATURE_REGISTER, readings.temperature)
}

// The readings of one hour, and whether the moisture probe answers.
pub fn set_hour(probes: &mut ProbeBank, hour: Hour) -> Result<(), Refusal>
    ensures answer { result ≡ Ok tt }
    ensures bank { probes.new ≡ with_hour hour probes.old }
{
    set_readings(probes, hour.readings)?;
    probes.set_answering(MOISTURE_REGISTER, hour.moisture_answers)
}
