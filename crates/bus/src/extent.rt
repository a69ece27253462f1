// An extent of addresses: a base and a length. Where it reaches beyond the last address, that part of it has no address.
ghost use Rattle.std.specs.Prelude.{◌≡◌};
ghost use Rattle.bus.specs.Extent.{fits, offset_in};

use super::address::{ADDRESSES, Address};
use super::refusal::Refusal;

#[derive(Clone, Copy, Debug, PartialEq, Eq)]
pub struct Extent {
    pub base: u32,
    pub length: usize,
}

impl Extent {
    // Whether all of it lies in the address space.
    pub fn check(self) -> Result<(), Refusal>
        ensures { result ≡ fits self.base self.length }
    {
        if self.base <= ADDRESSES && self.length <= (ADDRESSES - self.base) as usize {
            Ok(())
        } else {
            Err(Refusal::OutOfRange)
        }
    }

    // How far from the base the address lies, if it lies inside.
    pub fn offset(self, address: Address) -> Option<usize>
        ensures { result ≡ offset_in self.base self.length address.value }
    {
        let offset = u32::from(address).checked_sub(self.base)? as usize;
        (offset < self.length).then_some(offset)
    }
}
