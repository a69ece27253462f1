// An address: a number below 16,777,216.
ghost use Rattle.std.specs.Prelude.{◌<◌};

use super::refusal::Refusal;

// How many addresses there are.
pub const ADDRESSES: u32 = 0x100_0000;

#[derive(Clone, Copy, Debug, PartialEq, Eq)]
pub struct Address {
    value: u32,
    ghost below: { value < 16777216 },
}

impl Address {
    ghost use Rattle.std.specs.Prelude.{◌≡◌, ◌%◌};
    ghost use Rattle.bus.specs.Address.{space, at};

    // The address with this number; after the last address comes 0 again.
    pub fn wrapping(number: u32) -> Address
        ensures address { result ≡ at number }
        ensures value { result.value ≡ number % space }
    {
        Address {
            value: number % ADDRESSES,
        }
    }
}

// A number above $FFFFFF is refused.
impl TryFrom<u32> for Address {
    ghost use Rattle.bus.specs.Address.{AddressOf};

    type Error = Refusal;

    ghost try_from_gives = { AddressOf };

    fn try_from(number: u32) -> Result<Address, Refusal> {
        if number < ADDRESSES {
            Ok(Address::wrapping(number))
        } else {
            Err(Refusal::AddressTooHigh)
        }
    }
}

impl From<Address> for u32 {
    ghost use Rattle.std.specs.Prelude.{◌≡◌};

    ghost from_gives = { λ address number. number ≡ address.value };

    fn from(address: Address) -> u32 {
        address.value
    }
}
