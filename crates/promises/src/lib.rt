// What is promised of the rules, and the proofs that no code cites, stand in specs/. This crate has no code.
#![tactic(auto)]

// A crate has an item: this one stands for none.
#[derive(Clone, Copy)]
pub struct Nothing {
    pub zero: u8,
}
