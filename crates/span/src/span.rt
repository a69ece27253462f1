// A span: the addresses from a first to a last one, both of them included.
ghost use Rattle.std.specs.Prelude.{◌≡◌};
ghost use Rattle.span.specs.Span.{holds, span_answer};

use bus::address::Address;
use bus::refusal::Refusal;

#[derive(Clone, Copy, Debug, PartialEq, Eq)]
pub struct Span {
    pub first: u32,
    pub last: u32,
}

impl Span {
    pub fn contains(self, address: Address) -> bool
        ensures { result ≡ holds self address.value }
    {
        (self.first..=self.last).contains(&u32::from(address))
    }

    // Tests a span that may begin at `from` at the earliest: first its numbers, then their order.
    pub fn check(self, from: u32) -> Result<(), Refusal>
        ensures { result ≡ span_answer from self }
    {
        Address::try_from(self.first)?;
        Address::try_from(self.last)?;
        if self.first < from || self.last < self.first {
            return Err(Refusal::WindowsOrSpans);
        }
        Ok(())
    }
}
