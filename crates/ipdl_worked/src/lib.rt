//! Worked uses of the rules: cases in which a rule looks as if it could fail, and holds. The functions
//! do nothing, and their contracts are the cases.
#![tactic(auto)]

pub mod cases;
