// Examples at the edges of a probe bank, a memory and an image, as tables of calls.
use super::cases::{reads, refusal, writes};
use super::told;
use bus::cell::Kind;
use bus::contract::Bus;
use probe::bank::{Direction, ProbeBank};
use storage::image::Image;
use storage::memory::Memory;

#[test]
fn a_new_bank_is_silent_inside_and_on_both_sides(rt: HostRuntime) {
    let bank = ProbeBank::new(0x400, 5);
    for address in [0x3FF, 0x400, 0x41F, 0x420] {
        reads(&rt, &bank, &[(address, Err(refusal(10, address, 5)))]);
    }
}

#[test]
fn a_silent_probe_refuses_a_write_as_silent_and_an_input_as_fixed(rt: HostRuntime) {
    let mut bank = ProbeBank::new(0x400, 5);
    assert_eq!(rt; told(bank.set_byte(3, 77)), Ok(()));
    let silent = refusal(10, 0x403, 5);
    let fixed = refusal(11, 0x403, 5);
    for (answering, kind, read, written) in [
        (true, Kind::Fixed, Ok(77), Err(fixed)),
        (false, Kind::Silent, Err(silent), Err(silent)),
        (true, Kind::Fixed, Ok(77), Err(fixed)),
    ] {
        assert_eq!(rt; told(bank.set_answering(3, answering)), Ok(()));
        assert_eq!(rt; told(bank.kind(0x403)), Ok(kind));
        reads(&rt, &bank, &[(0x403, read)]);
        writes(&rt, &mut bank, &[(0x403, 1, written)]);
    }
}

#[test]
fn a_bank_does_not_go_on_at_address_0(rt: HostRuntime) {
    let mut bank = ProbeBank::new(0xFF_FFF0, 5);
    for number in [15, 16] {
        assert_eq!(rt; told(bank.set_answering(number, true)), Ok(()));
        assert_eq!(rt; told(bank.set_direction(number, Direction::Output)), Ok(()));
    }
    writes(
        &rt,
        &mut bank,
        &[(0xFF_FFFF, 9, Ok(())), (0, 9, Err(refusal(10, 0, 5)))],
    );
    reads(
        &rt,
        &bank,
        &[(0xFF_FFFF, Ok(9)), (0x100_0000, Err(refusal(1, 0, 0)))],
    );
}

#[test]
fn a_bank_has_32_registers(rt: HostRuntime) {
    let mut bank = ProbeBank::new(0, 5);
    assert_eq!(rt; told(bank.set_byte(31, 1)), Ok(()));
    assert_eq!(rt; told(bank.set_byte(32, 1)), Err(refusal(4, 0, 0)));
}

#[test]
fn a_write_to_a_memory_leaves_the_byte_beside_it(rt: HostRuntime) {
    let mut bytes = [1, 2, 3];
    let mut memory = Memory::new(0x10, 9, &mut bytes);
    writes(
        &rt,
        &mut memory,
        &[(0x12, 7, Ok(())), (0x13, 7, Err(refusal(10, 0x13, 9)))],
    );
    reads(&rt, &memory, &[(0x11, Ok(2)), (0x12, Ok(7))]);
}

#[test]
fn an_image_is_silent_up_to_the_last_address(rt: HostRuntime) {
    let bytes = [0x4A, 0x4B];
    let image = Image::new(0xFF_0000, 4, &bytes);
    reads(
        &rt,
        &image,
        &[
            (0xFF_0001, Ok(0x4B)),
            (0xFF_FFFF, Err(refusal(10, 0xFF_FFFF, 4))),
        ],
    );
}
