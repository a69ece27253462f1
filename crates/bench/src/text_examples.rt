// What is printed of each refusal, and of addresses.
use bus::address::Address;
use bus::refusal::{Fault, Refusal};
use bus::text::Hex;
use std::test::Fail;

#[test]
fn grounds_before_any_access_are_printed_in_words(rt: HostRuntime) -> Result<(), Fail> {
    for (refusal, text) in [
        (
            Refusal::AddressTooHigh,
            "refused with 1, an address is above $FFFFFF: address $000000, tag 0",
        ),
        (
            Refusal::WindowsOrSpans,
            "refused with 2, there are too many windows or spans, or their order is broken: address $000000, tag 0",
        ),
        (
            Refusal::Rights,
            "refused with 3, rights are neither 1 nor 3: address $000000, tag 0",
        ),
        (
            Refusal::OutOfRange,
            "refused with 4, a number is out of range: address $000000, tag 0",
        ),
        (
            Refusal::Sheet,
            "refused with 5, a sheet is malformed: address $000000, tag 0",
        ),
        (
            Refusal::Budget,
            "refused with 6, a budget is above 1,000,000: address $000000, tag 0",
        ),
        (
            Refusal::GuestFresh,
            "refused with 7, the guest was never reset: address $000000, tag 0",
        ),
        (
            Refusal::GuestFaulted,
            "refused with 8, the guest has faulted: address $000000, tag 0",
        ),
    ] {
        assert_eq!(rt; format!(in rt.alloc(); "{refusal}")?.as_str(), text);
    }
    Ok(())
}

#[test]
fn faults_are_printed_with_their_address_and_tag(rt: HostRuntime) -> Result<(), Fail> {
    let address = Address::try_from(0x200)?;
    for (fault, text) in [
        (
            Fault::Fenced { address },
            "refused with 9, the fence does not allow the access: address $000200, tag 0",
        ),
        (
            Fault::Silent { address, tag: 7 },
            "refused with 10, the cell is silent: address $000200, tag 7",
        ),
        (
            Fault::Fixed { address, tag: 255 },
            "refused with 11, the cell is fixed: address $000200, tag 255",
        ),
        (
            Fault::NotCarried { address },
            "refused with 12, the instruction is not carried: address $000200, tag 0",
        ),
        (
            Fault::NoAddress { address },
            "refused with 13, the operand has no address: address $000200, tag 0",
        ),
    ] {
        let refusal = Refusal::Fault(fault);
        assert_eq!(rt; format!(in rt.alloc(); "{refusal}")?.as_str(), text);
    }
    Ok(())
}

#[test]
fn addresses_are_printed_with_six_digits_or_more(rt: HostRuntime) -> Result<(), Fail> {
    for (number, text) in [
        (0, "$000000"),
        (0xABC, "$000ABC"),
        (0xFF_FFFF, "$FFFFFF"),
        (0x100_0000, "$1000000"),
        (u32::MAX, "$FFFFFFFF"),
    ] {
        assert_eq!(rt; format!(in rt.alloc(); "{}", Hex(number))?.as_str(), text);
    }
    Ok(())
}
