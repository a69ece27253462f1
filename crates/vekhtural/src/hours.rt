// The hours of the shift, and the lines of each.
use dryer::log;
use dryer::plant::{Hour, Readings};
use dryer::work::{PLACES, Worked};
use report::setting::Setting;
use report::tower::Work;
use report::words::Measured;
use std::{fmt, io};

// How wide the column is that says what is at an address.
pub(crate) const WIDTH: usize = 12;

// What the probes measure; in two hours the one for moisture does not answer.
pub(crate) const SHIFT: [Hour; 8] = [
    Hour {
        readings: Readings {
            moisture: 14,
            temperature: 71,
        },
        moisture_answers: true,
    },
    Hour {
        readings: Readings {
            moisture: 12,
            temperature: 88,
        },
        moisture_answers: true,
    },
    Hour {
        readings: Readings {
            moisture: 9,
            temperature: 96,
        },
        moisture_answers: true,
    },
    Hour {
        readings: Readings {
            moisture: 9,
            temperature: 104,
        },
        moisture_answers: false,
    },
    Hour {
        readings: Readings {
            moisture: 9,
            temperature: 97,
        },
        moisture_answers: false,
    },
    Hour {
        readings: Readings {
            moisture: 11,
            temperature: 82,
        },
        moisture_answers: true,
    },
    Hour {
        readings: Readings {
            moisture: 8,
            temperature: 124,
        },
        moisture_answers: true,
    },
    Hour {
        readings: Readings {
            moisture: 7,
            temperature: 90,
        },
        moisture_answers: true,
    },
];

// What the host set for an hour.
#[derive(Clone, Copy, Debug, PartialEq, Eq)]
struct Planned(Hour);

impl fmt::Display for Planned {
    fn fmt<W: fmt::Write>(&self, f: &mut fmt::Formatter<W>) -> fmt::Result {
        let measured = Measured(self.0.readings);
        let silence = if self.0.moisture_answers {
            ""
        } else {
            "; the moisture probe does not answer"
        };
        write!(f, "{measured}{silence}")
    }
}

// One hour: what the host set, what the control read and set, and what the log keeps.
pub(crate) fn print(rt: &HostRuntime, number: u8, hour: Hour, worked: Worked) -> io::Result<()> {
    println!(rt; "hour {number}")?;
    rt.println(Setting {
        what: Planned(hour),
        answer: worked.readings,
    })?;
    let work = Work::<WIDTH> {
        at: PLACES,
        log_at: log::LOG + number as u32,
        round: worked.round,
        noted: worked.noted,
    };
    for line in work.lines().into_iter().flatten() {
        rt.println(line)?;
    }
    Ok(())
}
