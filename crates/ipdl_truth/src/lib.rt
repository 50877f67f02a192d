//! Truth of expressions: the value of an expression under the tables, and whether two expressions
//! have one value on all values of their variables that meet conditions.
#![tactic(auto)]

mod abstracts;
mod agreement;
mod conditions;
mod enumeration;
mod evaluation;
mod free_variables;
mod laws;
mod operators;
mod question;
mod tables;
#[cfg(test)]
mod tests;
mod weights;
mod worked;
mod zeros;

pub use abstracts::first_abstract_in;
pub use agreement::{Agreement, TruthFault, agree};
pub use evaluation::{eval_expr, value_of};
pub use laws::{
    agree_under_all, first_difference_exactly, tables_interpret, tables_suffice,
    value_of_free_variables,
};
pub use worked::{
    a_bit_and_zero, a_wide_question, cancelled_is_zero, values_of_a_table, widths_differ,
};
