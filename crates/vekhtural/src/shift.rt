// The shift as the program plays it on one tower, and calls that are refused after it.
use crate::hours;
use crate::hours::{SHIFT, WIDTH};
use bus::address::ADDRESSES;
use bus::contract::Bus;
use bus::text::Hex;
use dryer::log::{LOG, LOG_TAG};
use dryer::tally::Tally;
use dryer::work::{PLACES, PROBES};
use dryer::{plant, work};
use probe::bank::ProbeBank;
use report::access::Line;
use report::setting::Setting;
use report::total::Total;
use std::io;
use storage::memory::Memory;

const PROBES_TAG: u8 = 7;

// The log has a byte for each hour.
const HOURS: usize = SHIFT.len();

// The tower: its probe bank, its log, and the count of the calls.
#[derive(Debug, Drop)]
struct Tower {
    probes: ProbeBank,
    log: [u8; HOURS],
    tally: Tally,
}

pub(crate) fn play(rt: &HostRuntime) -> io::Result<()> {
    let checks = [
        Setting {
            what: "the probe bank",
            answer: ProbeBank::check(PROBES),
        },
        Setting {
            what: "the log",
            answer: Memory::check(LOG, HOURS),
        },
    ];
    for check in checks {
        if check.answer.is_err() {
            return rt.println(check);
        }
    }
    let mut tower = Tower {
        probes: ProbeBank::new(PROBES, PROBES_TAG),
        log: [0; HOURS],
        tally: Tally::new(),
    };
    tower.play(rt)
}

impl Tower {
    fn play(&mut self, rt: &HostRuntime) -> io::Result<()> {
        let probes = Hex(PROBES);
        let log = Hex(LOG);
        println!(rt;
            "A dryer tower: probes from {probes} on, tag {PROBES_TAG}; log from {log} on, tag {LOG_TAG}"
        )?;
        self.set_up(rt)?;
        self.work_hours(rt)?;
        println!(rt; "after the shift")?;
        self.make_refused_calls(rt)?;
        let log = self.log;
        println!(rt; "log: {log:?}")?;
        rt.println(Total(self.tally))
    }

    fn set_up(&mut self, rt: &HostRuntime) -> io::Result<()> {
        let ready = Setting {
            what: "probes and valve answer",
            answer: plant::set_up(&mut self.probes),
        };
        ready.print_and_count(rt, &mut self.tally)
    }

    fn work_hours(&mut self, rt: &HostRuntime) -> io::Result<()> {
        for (number, hour) in (0..=u8::MAX).zip(SHIFT) {
            let worked = work::work_hour(
                number,
                hour,
                &mut self.probes,
                &mut self.log,
                &mut self.tally,
            );
            hours::print(rt, number, hour, worked)?;
        }
        Ok(())
    }

    // A write to a probe, a read above the last address, a read past the log, a setting of a register that does not exist.
    fn make_refused_calls(&mut self, rt: &HostRuntime) -> io::Result<()> {
        let at = PLACES.temperature;
        let overwritten = Line::<WIDTH>::write("temperature", at, 70, self.probes.write(at, 70));
        overwritten.print_and_count(rt, &mut self.tally)?;
        let above = Line::<WIDTH>::read("no address", ADDRESSES, self.probes.read(ADDRESSES));
        above.print_and_count(rt, &mut self.tally)?;
        let end = LOG + HOURS as u32;
        let memory = Memory::new(LOG, LOG_TAG, &mut self.log);
        let past = Line::<WIDTH>::read("past the log", end, memory.read(end));
        past.print_and_count(rt, &mut self.tally)?;
        let missing = Setting {
            what: "register 32",
            answer: self.probes.set_byte(32, 1),
        };
        missing.print_and_count(rt, &mut self.tally)
    }
}
