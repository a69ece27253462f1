// Layers over any bus: join, shift and hush.
// The cells of each are worked out from the cells below it, and each is proved once against the contract of `Bus`, whatever lies below.
#![tactic(auto)]

pub mod hush;
pub mod join;
pub mod laws;
pub mod shift;
