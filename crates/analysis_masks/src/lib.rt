// The report on rules: whether they are cleared, which are at fault, and how every pair is judged.
#![tactic(auto)]

mod found;
pub mod rows;

pub use found::{Findings, Summary};
