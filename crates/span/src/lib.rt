// Spans of addresses: up to eight of them, in ascending order and apart.
// The rule stands in the type `Spans`, so what takes one need not test it again.
#![tactic(auto)]

pub mod span;
pub mod spans;
