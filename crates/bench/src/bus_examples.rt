// Examples of addresses, kinds of cells and extents.
use super::cases::refusal;
use super::told;
use bus::address::Address;
use bus::cell::Kind;
use bus::extent::Extent;
use std::test::Fail;

#[test]
fn an_address_gives_back_the_number_that_it_was_made_from(rt: HostRuntime) -> Result<(), Fail> {
    for number in [0, 1, 0xFF_FFFF] {
        assert_eq!(rt; u32::from(Address::try_from(number)?), number);
    }
    assert_eq!(rt; told(Address::try_from(u32::MAX)), Err(refusal(1, 0, 0)));
    Ok(())
}

#[test]
fn kinds_have_numbers(rt: HostRuntime) {
    assert_eq!(rt; u8::from(Kind::Silent), 0);
    assert_eq!(rt; u8::from(Kind::Fixed), 1);
    assert_eq!(rt; u8::from(Kind::Open), 2);
}

#[test]
fn an_extent_may_end_at_the_last_address(rt: HostRuntime) {
    for (base, length, expected) in [
        (0, 0x100_0000, Ok(())),
        (0, 0x100_0001, Err(refusal(4, 0, 0))),
        (0xFF_FFFF, 1, Ok(())),
        (0xFF_FFFF, 2, Err(refusal(4, 0, 0))),
        (0x100_0000, 0, Ok(())),
        (0x100_0001, 0, Err(refusal(4, 0, 0))),
    ] {
        assert_eq!(rt; told(Extent { base, length }.check()), expected);
    }
}

#[test]
fn an_offset_counts_from_the_base_up_to_the_length(rt: HostRuntime) {
    let extent = Extent {
        base: 0x10,
        length: 3,
    };
    for (address, offset) in [(0x0F, None), (0x10, Some(0)), (0x12, Some(2)), (0x13, None)] {
        assert_eq!(rt; extent.offset(Address::wrapping(address)), offset);
    }
}
