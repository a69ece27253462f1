// The hours that the program plays, and the lines of each.
use crate::parts::Named;
use bus::address::Address;
use bus::refusal::Refusal;
use dryer::plant::Readings;
use dryer_board::hour::{BoardAnswers, Hour};
use report::access::Line;
use report::setting::Setting;
use report::tower::Work;
use report::words::Measured;
use span::span::Span;
use span::spans::Spans;
use std::{fmt, io};
use towers::tower::Tower;
use towers::work::HourAnswers;

// How wide the column is that says what is at an address.
pub(crate) const WIDTH: usize = 13;

// What the probes measure at either tower, and whose moisture probe is silent.
#[derive(Clone, Copy, Debug, PartialEq, Eq)]
pub(crate) struct Planned {
    one: Readings,
    two: Readings,
    silent: Option<Tower>,
}

// In two hours the first tower's moisture probe is silent and the second one's is not.
pub(crate) const HOURS: [Planned; 6] = [
    Planned {
        one: Readings {
            moisture: 14,
            temperature: 71,
        },
        two: Readings {
            moisture: 16,
            temperature: 75,
        },
        silent: None,
    },
    Planned {
        one: Readings {
            moisture: 12,
            temperature: 88,
        },
        two: Readings {
            moisture: 14,
            temperature: 92,
        },
        silent: None,
    },
    Planned {
        one: Readings {
            moisture: 9,
            temperature: 96,
        },
        two: Readings {
            moisture: 11,
            temperature: 101,
        },
        silent: Some(Tower::One),
    },
    Planned {
        one: Readings {
            moisture: 9,
            temperature: 104,
        },
        two: Readings {
            moisture: 10,
            temperature: 112,
        },
        silent: Some(Tower::One),
    },
    Planned {
        one: Readings {
            moisture: 11,
            temperature: 112,
        },
        two: Readings {
            moisture: 9,
            temperature: 106,
        },
        silent: None,
    },
    Planned {
        one: Readings {
            moisture: 8,
            temperature: 90,
        },
        two: Readings {
            moisture: 7,
            temperature: 88,
        },
        silent: None,
    },
];

impl Planned {
    // The hour as the board takes it.
    pub(crate) fn hour(&self) -> Result<Hour, Refusal> {
        let probe = self.silent.map(|tower| Span {
            first: tower.moisture_at(),
            last: tower.moisture_at(),
        });
        Ok(Hour {
            one: self.one,
            two: self.two,
            silent: Spans::check(probe.as_slice())?,
        })
    }
}

// What the host set for an hour.
#[derive(Clone, Copy, Debug, PartialEq, Eq)]
struct Measurements<'a>(&'a Hour);

impl fmt::Display for Measurements<'_> {
    fn fmt<W: fmt::Write>(&self, f: &mut fmt::Formatter<W>) -> fmt::Result {
        let first = Named(Tower::One);
        let second = Named(Tower::Two);
        let one = Measured(self.0.one);
        let two = Measured(self.0.two);
        write!(f, "{first}: {one}; {second}: {two}")
    }
}

// The number of an hour, and each tower whose moisture probe is silent in it.
#[derive(Clone, Copy, Debug, PartialEq, Eq)]
struct Header<'a> {
    number: u8,
    hour: &'a Hour,
}

impl fmt::Display for Header<'_> {
    fn fmt<W: fmt::Write>(&self, f: &mut fmt::Formatter<W>) -> fmt::Result {
        let number = self.number;
        write!(f, "hour {number}")?;
        for tower in [Tower::One, Tower::Two] {
            let probe = Address::wrapping(tower.moisture_at());
            if self.hour.silent.contains(probe) {
                let name = Named(tower);
                write!(f, ": the moisture probe of {name} is silent")?;
            }
        }
        Ok(())
    }
}

// One hour: what the host set, and what each tower read and set.
pub(crate) fn print(
    rt: &HostRuntime,
    number: u8,
    hour: &Hour,
    played: BoardAnswers,
) -> io::Result<()> {
    rt.println(Header { number, hour })?;
    rt.println(Setting {
        what: Measurements(hour),
        answer: played.set,
    })?;
    print_tower(rt, Tower::One, number, played.towers.one)?;
    print_tower(rt, Tower::Two, number, played.towers.two)
}

fn print_tower(rt: &HostRuntime, tower: Tower, number: u8, answers: HourAnswers) -> io::Result<()> {
    let name = Named(tower);
    println!(rt; "  {name}")?;
    let round = answers.round;
    rt.println(Line::<WIDTH>::read("limit", tower.limit_at(), round.limit))?;
    let work = Work::<WIDTH> {
        at: tower.places(),
        log_at: tower.log_at(number),
        round,
        noted: answers.noted,
    };
    for line in work.lines().into_iter().flatten() {
        rt.println(line)?;
    }
    Ok(())
}
