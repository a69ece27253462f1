// Memory and image: buses over lent bytes from a base address on.
// The contract of each making says what every cell is; the cell and the store of each are proved against the contract of `Bus`.
// Memory and image are two types: one over either loan needs a trait with the cell, the store and the shape of each, longer than both.
// Each has a `check` of its own, as every bus, so that a host need not know which extent it is.
// `lent` is a host that lends its bytes to a memory.
#![tactic(auto)]

pub mod image;
pub mod lent;
pub mod memory;
