// Examples of spans: which numbers are taken, and which addresses lie inside.
use super::cases::{refusal, span};
use super::told;
use bus::address::Address;
use span::spans::Spans;
use std::test::Fail;

#[test]
fn spans_lie_in_ascending_order_and_apart(rt: HostRuntime) -> Result<(), Fail> {
    for two in [
        [span(0, 0xFF_FFFE), span(0xFF_FFFF, 0xFF_FFFF)],
        [span(5, 5), span(6, 6)],
    ] {
        assert_eq!(rt; Spans::check(&two)?.as_slice(), two.as_slice());
    }
    for (first, second, number) in [
        (span(5, 6), span(6, 7), 2),
        (span(6, 6), span(5, 5), 2),
        (span(5, 4), span(6, 6), 2),
        (span(0x100_0000, 0), span(0, 0), 1),
        (span(2, 1), span(0x100_0000, 0), 2),
        (span(1, 1), span(0, 0x100_0000), 1),
    ] {
        assert_eq!(rt;
            told(Spans::check(&[first, second])),
            Err(refusal(number, 0, 0))
        );
    }
    Ok(())
}

#[test]
fn more_than_eight_are_refused_before_any_is_looked_at(rt: HostRuntime) -> Result<(), Fail> {
    let nine = [
        span(0, 0),
        span(2, 2),
        span(4, 4),
        span(6, 6),
        span(8, 8),
        span(10, 10),
        span(12, 12),
        span(14, 14),
        span(16, 0x100_0000),
    ];
    assert_eq!(rt; told(Spans::check(&nine)), Err(refusal(2, 0, 0)));
    assert_eq!(rt; told(Spans::check(&nine[1..9])), Err(refusal(1, 0, 0)));
    assert_eq!(rt; Spans::check(&nine[0..8])?.as_slice(), &nine[0..8]);
    assert_eq!(rt; told(Spans::check(&nine[0..0])), Ok(Spans::empty()));
    Ok(())
}

#[test]
fn first_and_last_address_are_inside(rt: HostRuntime) -> Result<(), Fail> {
    let spans = Spans::check(&[span(3, 4), span(8, 8)])?;
    for (address, inside) in [
        (2, false),
        (3, true),
        (4, true),
        (5, false),
        (7, false),
        (8, true),
        (9, false),
    ] {
        assert_eq!(rt; spans.contains(Address::wrapping(address)), inside);
    }
    Ok(())
}

#[test]
fn spans_are_shown_as_they_were_given(rt: HostRuntime) -> Result<(), Fail> {
    assert_eq!(rt; Spans::empty().as_slice(), [].as_slice());
    let all = [span(0, 0xFF_FFFF)];
    assert_eq!(rt; Spans::check(&all)?.as_slice(), all.as_slice());
    Ok(())
}
