// Examples of a probe bank.
use super::cases::refusal;
use super::told;
use bus::cell::Kind;
use bus::contract::Bus;
use probe::bank::{Direction, ProbeBank, Register};

fn register(direction: Direction, answering: bool, byte: u8) -> Register {
    Register {
        direction,
        answering,
        byte,
    }
}

#[test]
fn a_new_bank_is_silent(rt: HostRuntime) {
    let bank = ProbeBank::new(0x400, 5);
    assert_eq!(rt; told(bank.read(0x400)), Err(refusal(10, 0x400, 5)));
    assert_eq!(rt; told(bank.read(0x41F)), Err(refusal(10, 0x41F, 5)));
    assert_eq!(rt; told(bank.read(0x420)), Err(refusal(10, 0x420, 5)));
    let new = register(Direction::Input, false, 0);
    assert_eq!(rt; told(bank.register(31)), Ok(new));
    assert_eq!(rt; told(bank.register(32)), Err(refusal(4, 0, 0)));
}

#[test]
fn a_probe_falls_silent_and_answers_again(rt: HostRuntime) {
    let mut bank = ProbeBank::new(0x400, 5);
    assert_eq!(rt; told(bank.set_byte(3, 77)), Ok(()));
    assert_eq!(rt; told(bank.set_answering(3, true)), Ok(()));
    assert_eq!(rt; told(bank.read(0x403)), Ok(77));
    assert_eq!(rt; told(bank.kind(0x403)), Ok(Kind::Fixed));
    assert_eq!(rt; told(bank.write(0x403, 1)), Err(refusal(11, 0x403, 5)));
    assert_eq!(rt; told(bank.set_answering(3, false)), Ok(()));
    assert_eq!(rt; told(bank.read(0x403)), Err(refusal(10, 0x403, 5)));
    assert_eq!(rt; told(bank.write(0x403, 1)), Err(refusal(10, 0x403, 5)));
    assert_eq!(rt; told(bank.set_answering(3, true)), Ok(()));
    assert_eq!(rt; told(bank.read(0x403)), Ok(77));
}

#[test]
fn an_output_takes_bytes_and_leaves_the_other_registers(rt: HostRuntime) {
    let mut bank = ProbeBank::new(0xFF_FFF0, 5);
    assert_eq!(rt; told(ProbeBank::check(0xFF_FFE0)), Ok(()));
    assert_eq!(rt; told(ProbeBank::check(0xFF_FFE1)), Err(refusal(4, 0, 0)));
    assert_eq!(rt; told(bank.set_direction(15, Direction::Output)), Ok(()));
    assert_eq!(rt; told(bank.kind(0xFF_FFFF)), Ok(Kind::Silent));
    assert_eq!(rt; told(bank.set_answering(15, true)), Ok(()));
    assert_eq!(rt; told(bank.kind(0xFF_FFFF)), Ok(Kind::Open));
    assert_eq!(rt; told(bank.set_answering(16, true)), Ok(()));
    assert_eq!(rt; told(bank.write(0xFF_FFFF, 9)), Ok(()));
    assert_eq!(rt; told(bank.read(0xFF_FFFF)), Ok(9));
    let output = register(Direction::Output, true, 9);
    assert_eq!(rt; told(bank.register(15)), Ok(output));
    let input = register(Direction::Input, true, 0);
    assert_eq!(rt; told(bank.register(16)), Ok(input));
    assert_eq!(rt; told(bank.read(0x100_0000)), Err(refusal(1, 0, 0)));
    assert_eq!(rt; told(bank.read(0)), Err(refusal(10, 0, 5)));
    assert_eq!(rt; told(bank.set_byte(32, 1)), Err(refusal(4, 0, 0)));
}
