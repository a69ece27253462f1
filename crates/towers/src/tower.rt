// The two towers, and where each has its cells.
ghost use Rattle.std.specs.Prelude.{◌≡◌};
ghost use Rattle.towers.specs.Tower.{limit_at, moisture_at, temperature_at, valve_at, places, log_at};

use dryer::control::Places;

#[derive(Clone, Copy, Debug, PartialEq, Eq)]
pub enum Tower {
    One,
    Two,
}

impl Tower {
    // Where the image has the temperature above which the valve is closed.
    pub fn limit_at(self) -> u32
        ensures { result ≡ limit_at self }
    {
        match self {
            Tower::One => 0xFF_8000,
            Tower::Two => 0xFF_8001,
        }
    }

    // Where the tower's probe bank has its first register: the moisture of the lint, in percent.
    pub fn moisture_at(self) -> u32
        ensures { result ≡ moisture_at self }
    {
        match self {
            Tower::One => 0x200,
            Tower::Two => 0x300,
        }
    }

    // The second: the temperature in degrees.
    pub fn temperature_at(self) -> u32
        ensures { result ≡ temperature_at self }
    {
        self.moisture_at() + 1
    }

    // The third: the opening of the burner's valve, in percent.
    pub fn valve_at(self) -> u32
        ensures { result ≡ valve_at self }
    {
        self.moisture_at() + 2
    }

    // All three.
    pub fn places(self) -> Places
        ensures { result ≡ places self }
    {
        Places {
            moisture: self.moisture_at(),
            temperature: self.temperature_at(),
            valve: self.valve_at(),
        }
    }

    // Where the tower logs the moisture of an hour: a byte for each of 256 hours.
    pub fn log_at(self, hour: u8) -> u32
        ensures { result ≡ log_at self hour }
    {
        match self {
            Tower::One => 0x1000 + hour as u32,
            Tower::Two => 0x1100 + hour as u32,
        }
    }
}
