// Spans that keep the rule: at most eight, in ascending order, apart, each with its first address at most its last.
ghost use Rattle.std.specs.Prelude.{◌≡◌, [], Ok};
ghost use Rattle.bus.specs.Refusal.{passed};
ghost use Rattle.span.specs.Span.{covered, spans_answer, OkExactly, Ascending};

use super::span::Span;
use bus::address::Address;
use bus::refusal::Refusal;
use std::marker::Model;

// How many spans there may be.
pub const MAX_SPANS: usize = 8;

const UNUSED: Span = Span { first: 0, last: 0 };

// Contracts see spans as the list of them. The first `count` places of the table hold it, and the others are unused; nothing here allocates, and
// spans are copied.
#[derive(Clone, Copy, Debug, PartialEq, Eq)]
pub struct Spans {
    table: [Span; MAX_SPANS],
    count: usize,
}

impl Model for Spans {
    ghost use Rattle.std.specs.Prelude.{List};
    ghost use Rattle.span.specs.declared.span.Span.{Span};

    ghost Value = { List Span };

    ghost use Rattle.span.specs.Held.{listed, held, Lawful};

    ghost view = { listed };

    ghost invariant = { Lawful };

    ghost inverse = { held };

    ghost inverse_ok = { λ _ h. h.rest };
}

impl Spans {
    // No spans.
    pub fn empty() -> Spans
        ensures { result ≡ [] }
    {
        Spans {
            table: [UNUSED; MAX_SPANS],
            count: 0,
        }
    }

    // Tests the numbers of spans, and answers them as spans that keep the rule. It is no `TryFrom`: the test before a making is `check` for every bus.
    pub fn check(spans: &[Span]) -> Result<Spans, Refusal>
        ensures answer { result ≡ passed (spans_answer spans.now) (Ok spans.now) }
        ensures rule { OkExactly result (Ascending spans.now) }
    {
        check_all(spans)?;
        let mut table = [UNUSED; MAX_SPANS];
        let count = spans.len();
        table[..count].copy_from_slice(spans);
        Ok(Spans { table, count })
    }

    // The spans in their order.
    pub fn as_slice(&self) -> &[Span]
        ensures spans { result.now ≡ self.now }
        ensures rule { Ascending self.now }
    {
        &self.table[..self.count]
    }

    // Whether one of the spans has this address.
    pub fn contains(&self, address: Address) -> bool
        ensures { result ≡ covered self.now address.value }
    {
        self.as_slice().iter().any(|span| span.contains(address))
    }
}

// Tests how many there are, then each in turn: it begins after the one before it.
fn check_all(spans: &[Span]) -> Result<(), Refusal>
    ensures { result ≡ spans_answer spans.now }
{
    if spans.len() > MAX_SPANS {
        return Err(Refusal::WindowsOrSpans);
    }
    let mut from = 0;
    for span in spans {
        span.check(from)?;
        from = span.last + 1;
    }
    Ok(())
}
