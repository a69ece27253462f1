// What the tests share: expected reasons, spans, and tables of calls with what each must answer.
use super::{Reason, told};
use bus::contract::Bus;
use span::span::Span;
use std::process::Abort;

pub(crate) fn refusal(number: u8, address: u32, tag: u8) -> Reason {
    Reason {
        number,
        address,
        tag,
    }
}

pub(crate) fn span(first: u32, last: u32) -> Span {
    Span { first, last }
}

pub(crate) fn reads<B: Bus>(rt: &impl Abort, bus: &B, cases: &[(u32, Result<u8, Reason>)]) {
    for (address, expected) in cases {
        assert_eq!(rt; told(bus.read(*address)), *expected);
    }
}

pub(crate) fn writes<B: Bus>(
    rt: &impl Abort,
    bus: &mut B,
    cases: &[(u32, u8, Result<(), Reason>)],
) {
    for (address, byte, expected) in cases {
        assert_eq!(rt; told(bus.write(*address, *byte)), *expected);
    }
}
