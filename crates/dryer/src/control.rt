// The control of a dryer tower: two probes are read, and the burner's valve is set by them.
ghost use Rattle.std.specs.Prelude.{◌≡◌};
ghost use Rattle.bus.specs.Contract.{put};
ghost use Rattle.dryer.specs.Control.{opening_for, commanded, controlled, ClosesOnSilence};

use bus::contract::Bus;
use bus::refusal::Refusal;

// Where on the bus a tower has its probes and its valve.
#[derive(Clone, Copy, Debug, PartialEq, Eq)]
pub struct Places {
    pub moisture: u32,
    pub temperature: u32,
    pub valve: u32,
}

// What one round of the control was told, read and set.
#[derive(Clone, Copy, Debug, PartialEq, Eq)]
pub struct Round {
    pub limit: Result<u8, Refusal>,
    pub moisture: Result<u8, Refusal>,
    pub temperature: Result<u8, Refusal>,
    pub opening: u8,
    pub valve: Result<(), Refusal>,
}

// How far the valve is to open, in percent: five for each percent of moisture, and not at all above the limit or where one of the three was not read.
pub fn opening(
    limit: Result<u8, Refusal>,
    moisture: Result<u8, Refusal>,
    temperature: Result<u8, Refusal>,
) -> u8
    ensures { result ≡ opening_for limit moisture temperature }
{
    match (limit, moisture, temperature) {
        (Ok(limit), Ok(moisture), Ok(temperature)) => {
            if temperature > limit {
                0
            } else {
                moisture.saturating_mul(5).min(100)
            }
        }
        _ => 0,
    }
}

// One round: reads both probes, and sets the valve by them and by the limit of the temperature.
pub fn control<B: Bus>(bus: &mut B, at: Places, limit: Result<u8, Refusal>) -> Round
    ensures round { result ≡ controlled at limit (B.Bus.cells bus.old) }
    ensures after { B.Bus.cells bus.new ≡ put (B.Bus.cells bus.old) at.valve (commanded at limit (B.Bus.cells bus.old)) }
    ensures kept { B.Bus.shape bus.new ≡ B.Bus.shape bus.old }
    ensures safe { ClosesOnSilence at limit (B.Bus.cells bus.old) (B.Bus.cells bus.new) }
{
    let moisture = bus.read(at.moisture);
    let temperature = bus.read(at.temperature);
    let opening = opening(limit, moisture, temperature);
    let valve = bus.write(at.valve, opening);
    Round {
        limit,
        moisture,
        temperature,
        opening,
        valve,
    }
}
