// Examples of the dryer: its control on a probe bank, and its log.
use super::cases::refusal;
use super::told;
use bus::contract::Bus;
use dryer::plant::{Hour, Readings};
use dryer::tally::Tally;
use dryer::work::{MAX_TEMPERATURE, PLACES, PROBES};
use dryer::{control, log, plant, work};
use probe::bank::ProbeBank;

// An hour at 90 degrees.
fn hour_with(moisture: u8, moisture_answers: bool) -> Hour {
    Hour {
        readings: Readings {
            moisture,
            temperature: 90,
        },
        moisture_answers,
    }
}

#[test]
fn a_silent_probe_closes_the_valve_and_an_answer_opens_it_again(rt: HostRuntime) {
    let mut probes = ProbeBank::new(PROBES, 7);
    assert_eq!(rt; told(plant::set_up(&mut probes)), Ok(()));
    for (moisture_answers, opening) in [(true, 60), (false, 0), (true, 60)] {
        let hour = hour_with(12, moisture_answers);
        assert_eq!(rt; told(plant::set_hour(&mut probes, hour)), Ok(()));
        let round = control::control(&mut probes, PLACES, Ok(MAX_TEMPERATURE));
        assert_eq!(rt; round.opening, opening);
        assert_eq!(rt; told(probes.read(PLACES.valve)), Ok(opening));
    }
}

#[test]
fn the_valve_opens_by_moisture_up_to_100_percent_and_closes_when_hot(rt: HostRuntime) {
    for (moisture, temperature, opening) in [
        (0, 120, 0),
        (19, 120, 95),
        (20, 120, 100),
        (255, 0, 100),
        (20, 121, 0),
    ] {
        assert_eq!(rt;
            control::opening(Ok(MAX_TEMPERATURE), Ok(moisture), Ok(temperature)),
            opening
        );
    }
}

#[test]
fn the_log_keeps_one_byte_and_refuses_an_hour_past_its_end(rt: HostRuntime) {
    let mut bytes = [1, 2, 3];
    assert_eq!(rt; told(log::note(&mut bytes, 1, 9)), Ok(()));
    assert_eq!(rt;
        told(log::note(&mut bytes, 3, 9)),
        Err(refusal(10, 0x1003, 1))
    );
    assert_eq!(rt; bytes, [1, 9, 3]);
}

#[test]
fn an_hour_counts_its_calls(rt: HostRuntime) {
    let mut probes = ProbeBank::new(PROBES, 7);
    assert_eq!(rt; told(plant::set_up(&mut probes)), Ok(()));
    let mut log = [0; 4];
    let mut tally = Tally::new();
    let dry = work::work_hour(0, hour_with(7, true), &mut probes, &mut log, &mut tally);
    assert_eq!(rt; dry.noted, Some(Ok(())));
    let silent = work::work_hour(1, hour_with(8, false), &mut probes, &mut log, &mut tally);
    assert_eq!(rt; silent.noted, None);
    let counted = Tally {
        read: 3,
        written: 3,
        set: 2,
        refused: 1,
    };
    assert_eq!(rt; tally, counted);
    assert_eq!(rt; tally.calls(), 9);
    assert_eq!(rt; log, [7, 0, 0, 0]);
}
