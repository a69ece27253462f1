// Each refusal with its number, address and tag.
use super::cases::refusal;
use super::told;
use bus::address::Address;
use bus::refusal::{Fault, Refusal};
use std::test::Fail;

#[test]
fn an_address_is_refused_or_wraps_above_the_last(rt: HostRuntime) {
    let last = Address::wrapping(0xFF_FFFF);
    assert_eq!(rt; told(Address::try_from(0xFF_FFFF)), Ok(last));
    assert_eq!(rt; told(Address::try_from(0x100_0000)), Err(refusal(1, 0, 0)));
    assert_eq!(rt; u32::from(last), 0xFF_FFFF);
    assert_eq!(rt; u32::from(Address::wrapping(0x100_0002)), 2);
}

#[test]
fn grounds_before_any_access_have_a_number_alone(rt: HostRuntime) {
    for (ground, number) in [
        (Refusal::AddressTooHigh, 1),
        (Refusal::WindowsOrSpans, 2),
        (Refusal::Rights, 3),
        (Refusal::OutOfRange, 4),
        (Refusal::Sheet, 5),
        (Refusal::Budget, 6),
        (Refusal::GuestFresh, 7),
        (Refusal::GuestFaulted, 8),
    ] {
        assert_eq!(rt; told::<()>(Err(ground)), Err(refusal(number, 0, 0)));
    }
}

#[test]
fn faults_have_an_address_and_those_of_a_cell_a_tag(rt: HostRuntime) -> Result<(), Fail> {
    let address = Address::try_from(0xAB_CDEF)?;
    for (fault, number, tag) in [
        (Fault::Fenced { address }, 9, 0),
        (Fault::Silent { address, tag: 200 }, 10, 200),
        (Fault::Fixed { address, tag: 201 }, 11, 201),
        (Fault::NotCarried { address }, 12, 0),
        (Fault::NoAddress { address }, 13, 0),
    ] {
        assert_eq!(rt;
            told::<()>(Err(Refusal::Fault(fault))),
            Err(refusal(number, 0xAB_CDEF, tag))
        );
    }
    Ok(())
}
