// Examples of the dryer: the valve, an hour of the board with a silent span, and bytes that a host lends.
use super::cases::{reads, refusal, span, writes};
use super::told;
use bus::refusal::Refusal;
use dryer::control;
use dryer::plant::Readings;
use dryer::tally::Tally;
use dryer_board::hour::Hour;
use dryer_board::{board, hour};
use span::spans::Spans;
use std::test::Fail;
use storage::lent;
use towers::tower::Tower;

#[test]
fn the_valve_opens_by_moisture_up_to_100_percent_and_closes_when_hot(rt: HostRuntime) {
    for (moisture, temperature, opening) in [
        (0, 120, 0),
        (19, 120, 95),
        (20, 120, 100),
        (255, 0, 100),
        (20, 121, 0),
    ] {
        assert_eq!(rt;
            control::opening(Ok(120), Ok(moisture), Ok(temperature)),
            opening
        );
    }
    let unread = Err(Refusal::OutOfRange);
    assert_eq!(rt; control::opening(unread, Ok(20), Ok(0)), 0);
    assert_eq!(rt; control::opening(Ok(120), unread, Ok(0)), 0);
    assert_eq!(rt; control::opening(Ok(120), Ok(20), unread), 0);
}

// An hour in which these spans are silent.
fn hour_with(silent: Spans) -> Hour {
    Hour {
        one: Readings {
            moisture: 12,
            temperature: 115,
        },
        two: Readings {
            moisture: 14,
            temperature: 90,
        },
        silent,
    }
}

#[test]
fn a_span_is_silent_for_one_tower_and_not_for_the_other(rt: HostRuntime) -> Result<(), Fail> {
    let moisture = Tower::One.moisture_at();
    let silent = Spans::check(&[span(moisture, moisture)])?;
    let limits = [120, 110];
    let mut logs = [0; 0x200];
    {
        let mut board = board::build(&mut logs, &limits);
        let mut tally = Tally::new();
        assert_eq!(rt; told(hour::set_up(&mut board)), Ok(()));
        for (number, spans, one) in [
            (0, Spans::empty(), 60),
            (1, silent, 0),
            (2, Spans::empty(), 60),
        ] {
            let played = hour::play_hour(&mut board, number, &hour_with(spans), &mut tally);
            assert_eq!(rt; told(played.set), Ok(()));
            reads(&rt, &board, &[(0x202, Ok(one)), (0x302, Ok(70))]);
        }
        let counted = Tally {
            read: 17,
            written: 11,
            set: 3,
            refused: 1,
        };
        assert_eq!(rt; tally, counted);
    }
    assert_eq!(rt; &logs[..4], [12, 0, 12, 0].as_slice());
    assert_eq!(rt; &logs[0x100..0x104], [14, 14, 14, 0].as_slice());
    Ok(())
}

#[test]
fn a_board_refuses_with_the_address_and_the_tag_of_the_cell(rt: HostRuntime) {
    let limits = [120, 110];
    let mut logs = [0; 0x200];
    let mut board = board::build(&mut logs, &limits);
    assert_eq!(rt; told(hour::set_up(&mut board)), Ok(()));
    writes(
        &rt,
        &mut board,
        &[
            (0x201, 1, Err(refusal(11, 0x201, 7))),
            (0x301, 1, Err(refusal(11, 0x301, 8))),
            (0xFF_8001, 1, Err(refusal(11, 0xFF_8001, 2))),
        ],
    );
    reads(
        &rt,
        &board,
        &[
            (0x220, Err(refusal(10, 0x220, 7))),
            (0x320, Err(refusal(10, 0x320, 8))),
            (0x1200, Err(refusal(10, 0x1200, 1))),
            (0xFF_8002, Err(refusal(10, 0xFF_8002, 2))),
        ],
    );
}

#[test]
fn a_board_has_room_for_its_memory_and_its_image(rt: HostRuntime) {
    for (memory, image, expected) in [
        (0xFF_F000, 0x8000, Ok(())),
        (0xFF_F001, 0x8000, Err(refusal(4, 0, 0))),
        (0xFF_F000, 0x8001, Err(refusal(4, 0, 0))),
    ] {
        assert_eq!(rt; told(board::check(memory, image)), expected);
    }
}

#[test]
fn a_write_to_lent_bytes_changes_one_of_them_or_none(rt: HostRuntime) {
    let mut bytes = [1, 2, 3];
    assert_eq!(rt; told(lent::write(&mut bytes, 0x1000, 1, 0x1001, 9)), Ok(()));
    assert_eq!(rt;
        told(lent::write(&mut bytes, 0x1000, 1, 0x1003, 9)),
        Err(refusal(10, 0x1003, 1))
    );
    assert_eq!(rt; bytes, [1, 9, 3]);
}
