//! The rules that rewrite a reaction: which two reactions are the two sides of one, the laws that
//! the two mean the same wherever they are typed, and the call that makes the right side.
#![tactic(auto)]

mod again;
mod applying;
mod expressions;
mod fault;
mod instances;
mod refutations;
mod right_side;
mod rules;
mod tables;
mod variables;
mod weighing;
mod worked;
mod worked_expressions;

pub use applying::apply_react;
pub use expressions::{
    ExprFault, apply_expr, expression_instance_at_place, expression_instance_means, forms_exactly,
    truth_exactly,
};
pub use fault::RuleFault;
pub use instances::{
    instance_at_place, instance_exactly, instance_is_as_likely, instance_is_typed, instance_means,
    one_right_side, typed_instance_at_place, typed_with_reaction,
};
pub use refutations::{
    again_needs_an_unused_value, again_needs_no_flip, again_needs_the_same_part,
    dropr_needs_an_unused_value, dropr_needs_no_read, ifsame_needs_the_same_arms,
    mask_needs_an_independent_mask, perm_needs_a_table, perm_needs_different_values,
    perm_needs_one_width, swap_needs_an_unused_value,
};
pub use rules::{
    again_is_the_same, assoc_is_the_same, beta_is_the_same, dropr_is_as_likely, eta_is_the_same,
    flip0_is_the_same, ifbind_is_the_same, iffalse_is_the_same, ifsame_is_the_same,
    iftrue_is_the_same, injective_maps_keep_sums, join_is_as_likely, mask_is_as_likely,
    perm_is_as_likely, same_is_as_likely, swap_is_as_likely,
};
pub use variables::{
    outcome_of_exchanged, outcome_of_joined, outcome_of_lowered, outcome_of_replaced,
    variables_exchanged, variables_joined, variables_lowered, variables_replaced,
};
pub use worked::{each_rule_once, failing_sides, other_shapes};
pub use worked_expressions::{
    cancelled_bits_are_zeros, exchanged_factors_and_an_odd_bit, no_rule_for_expressions,
    refused_questions, variables_in_their_arms,
};
