// Why a call is refused. Each ground has a number; a fault also has the address at which it arose and, of a cell, its tag.
ghost use Rattle.std.specs.Prelude.{◌≡◌};
ghost use Rattle.bus.specs.Refusal.{fault_number, fault_address, fault_tag, refusal_number, refusal_address, refusal_tag};

use super::address::Address;

#[derive(Clone, Copy, Debug, PartialEq, Eq)]
pub enum Refusal {
    // 1: an address or a vector place is above $FFFFFF.
    AddressTooHigh,
    // 2: there are more than eight windows or spans, or they do not lie in ascending order without overlap, each with its first address at most its last.
    WindowsOrSpans,
    // 3: a window's rights are neither 1 (read) nor 3 (read and write).
    Rights,
    // 4: a base, length, boundary, shift or probe number is out of range.
    OutOfRange,
    // 5: a sheet, the stored form of a guest, is malformed.
    Sheet,
    // 6: a budget is above 1,000,000.
    Budget,
    // 7: a guest that was never reset is to take a step.
    GuestFresh,
    // 8: a guest that has faulted is to take a step.
    GuestFaulted,
    // 9 to 13: an access or an instruction cannot be carried out.
    Fault(Fault),
}

// The grounds that a guest can fault on, and so all that a faulted guest can hold.
#[derive(Clone, Copy, Debug, PartialEq, Eq)]
pub enum Fault {
    // 9: no window of the fence allows the access to the cell at this address.
    Fenced { address: Address },
    // 10: the cell at this address is silent.
    Silent { address: Address, tag: u8 },
    // 11: the cell at this address is fixed and was to be written.
    Fixed { address: Address, tag: u8 },
    // 12: the instruction that begins at this address is not carried.
    NotCarried { address: Address },
    // 13: an operand of the instruction that begins at this address has no address.
    NoAddress { address: Address },
}

impl Fault {
    pub fn number(self) -> u8
        ensures { result ≡ fault_number self }
    {
        match self {
            Fault::Fenced { .. } => 9,
            Fault::Silent { .. } => 10,
            Fault::Fixed { .. } => 11,
            Fault::NotCarried { .. } => 12,
            Fault::NoAddress { .. } => 13,
        }
    }

    pub fn address(self) -> Address
        ensures { result ≡ fault_address self }
    {
        match self {
            Fault::Fenced { address } => address,
            Fault::Silent { address, .. } => address,
            Fault::Fixed { address, .. } => address,
            Fault::NotCarried { address } => address,
            Fault::NoAddress { address } => address,
        }
    }

    pub fn tag(self) -> u8
        ensures { result ≡ fault_tag self }
    {
        match self {
            Fault::Silent { tag, .. } => tag,
            Fault::Fixed { tag, .. } => tag,
            Fault::Fenced { .. } | Fault::NotCarried { .. } | Fault::NoAddress { .. } => 0,
        }
    }
}

impl Refusal {
    pub fn number(self) -> u8
        ensures { result ≡ refusal_number self }
    {
        match self {
            Refusal::AddressTooHigh => 1,
            Refusal::WindowsOrSpans => 2,
            Refusal::Rights => 3,
            Refusal::OutOfRange => 4,
            Refusal::Sheet => 5,
            Refusal::Budget => 6,
            Refusal::GuestFresh => 7,
            Refusal::GuestFaulted => 8,
            Refusal::Fault(fault) => fault.number(),
        }
    }

    // The number of the fault's address, 0 for any other refusal. What a host is told of a refusal is three numbers, so none of them is an `Option`.
    pub fn address(self) -> u32
        ensures { result ≡ refusal_address self }
    {
        match self {
            Refusal::Fault(fault) => u32::from(fault.address()),
            _ => 0,
        }
    }

    // The tag of the fault's cell, 0 for any other refusal.
    pub fn tag(self) -> u8
        ensures { result ≡ refusal_tag self }
    {
        match self {
            Refusal::Fault(fault) => fault.tag(),
            _ => 0,
        }
    }
}
