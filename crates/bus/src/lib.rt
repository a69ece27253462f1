// What stands at an address, why a call is refused, and what a bus owes.
// Every bus is proved against one contract, so whatever is built over `Bus` is proved once for all of them.
#![tactic(auto)]

pub mod address;
pub mod cell;
pub mod contract;
pub mod extent;
pub mod refusal;
pub mod text;
