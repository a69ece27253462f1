// The probe bank: the registers through which a guest sees the plant.
// The host sets one register at a time; its cell and its store are proved against the contract of `Bus`.
#![tactic(auto)]

pub mod bank;
