// What the program plays: six hours of the board, then reads of the logs, and calls and settings that are refused.
use crate::hours::{HOURS, WIDTH};
use crate::{hours, parts};
use bus::address::ADDRESSES;
use bus::contract::Bus;
use dryer::tally::Tally;
use dryer_board::board::BoardBus;
use dryer_board::{board, hour};
use layers::{join, shift};
use report::access::Line;
use report::setting::Setting;
use report::total::Total;
use span::span::Span;
use span::spans::Spans;
use std::io;
use towers::tower::Tower;

// Above these temperatures the towers close their valves.
const LIMITS: [u8; 2] = [120, 110];

// The host of the board: it has the board, and counts the calls.
#[derive(Debug, Drop)]
struct Host<'a> {
    board: BoardBus<'a>,
    tally: Tally,
}

// How many bytes the logs have: one for each of 256 hours of either tower.
const LOG_BYTES: usize = 0x200;

pub(crate) fn play(rt: &HostRuntime) -> io::Result<()> {
    let mut logs = [0u8; LOG_BYTES];
    let check = Setting {
        what: "the board",
        answer: board::check(logs.len(), LIMITS.len()),
    };
    if check.answer.is_err() {
        return rt.println(check);
    }
    let mut host = Host {
        board: board::build(&mut logs, &LIMITS),
        tally: Tally::new(),
    };
    parts::print(rt)?;
    host.set_up(rt)?;
    host.play_hours(rt)?;
    println!(rt; "logs")?;
    host.read_logs(rt)?;
    println!(rt; "afterwards")?;
    host.make_refused_calls(rt)?;
    host.make_refused_settings(rt)?;
    rt.println(Total(host.tally))
}

impl Host<'_> {
    fn set_up(&mut self, rt: &HostRuntime) -> io::Result<()> {
        let ready = Setting {
            what: "probes and valves answer",
            answer: hour::set_up(&mut self.board),
        };
        ready.print_and_count(rt, &mut self.tally)
    }

    fn play_hours(&mut self, rt: &HostRuntime) -> io::Result<()> {
        for (number, planned) in (0..=u8::MAX).zip(HOURS) {
            match planned.hour() {
                Ok(hour) => {
                    let played = hour::play_hour(&mut self.board, number, &hour, &mut self.tally);
                    hours::print(rt, number, &hour, played)?;
                }
                Err(refusal) => rt.println(Setting {
                    what: "the silent spans",
                    answer: Err(refusal),
                })?,
            }
        }
        Ok(())
    }

    // What the logs have for each hour.
    fn read_logs(&mut self, rt: &HostRuntime) -> io::Result<()> {
        for tower in [Tower::One, Tower::Two] {
            for number in (0..=u8::MAX).take(HOURS.len()) {
                self.read(rt, "log", tower.log_at(number))?;
            }
        }
        Ok(())
    }

    // Writes to a probe and to a limit, and reads above the last address and past the logs.
    fn make_refused_calls(&mut self, rt: &HostRuntime) -> io::Result<()> {
        self.write(rt, "temperature", Tower::Two.temperature_at(), 0)?;
        self.write(rt, "limit", Tower::One.limit_at(), 0)?;
        self.read(rt, "no address", ADDRESSES)?;
        self.read(rt, "past the logs", Tower::One.log_at(0) + LOG_BYTES as u32)
    }

    fn read(&mut self, rt: &HostRuntime, what: &str, address: u32) -> io::Result<()> {
        let line = Line::<WIDTH>::read(what, address, self.board.read(address));
        line.print_and_count(rt, &mut self.tally)
    }

    fn write(&mut self, rt: &HostRuntime, what: &str, address: u32, byte: u8) -> io::Result<()> {
        let line = Line::<WIDTH>::write(what, address, byte, self.board.write(address, byte));
        line.print_and_count(rt, &mut self.tally)
    }

    // A register that does not exist, spans that overlap, and numbers that are too large for layers.
    fn make_refused_settings(&mut self, rt: &HostRuntime) -> io::Result<()> {
        let bank = &mut self.board.below.low.high.below;
        let overlapping = [Span { first: 1, last: 5 }, Span { first: 5, last: 9 }];
        let settings = [
            Setting {
                what: "register 32",
                answer: bank.set_byte(32, 1),
            },
            Setting {
                what: "spans that overlap",
                answer: Spans::check(&overlapping).map(|_| ()),
            },
            Setting {
                what: "a boundary of 16,777,217",
                answer: join::check(ADDRESSES + 1),
            },
            Setting {
                what: "a distance of 16,777,216",
                answer: shift::check(ADDRESSES),
            },
        ];
        for setting in settings {
            setting.print_and_count(rt, &mut self.tally)?;
        }
        Ok(())
    }
}
