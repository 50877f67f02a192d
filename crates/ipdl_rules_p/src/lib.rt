//! The rules that rewrite a protocol: which two protocols are the two sides of one, the laws that
//! these are equal wherever they are typed, and the call that makes the right side.
#![tactic(auto)]

mod applying;
mod communication;
mod fault;
mod filling;
mod free_in;
mod instances;
mod new_react;
mod reading;
mod refutations;
mod renamed;
mod renaming_rule;
mod right_side;
mod rules;
mod worked;

pub use applying::apply_proto;
pub use communication::{
    absorb_is_alike, absorb_is_equal, absorb_is_typed, diverge_is_alike, diverge_is_equal,
    diverge_is_typed, drop_is_alike, drop_is_equal, drop_is_typed, fold_is_alike, fold_is_equal,
    fold_is_typed, one_read_place, subst_is_alike, subst_is_equal, subst_is_typed,
    subsume_is_alike, subsume_is_equal,
};
pub use fault::RuleFault;
pub use instances::{
    instance_at_place, instance_exactly, instance_is_typed, instance_means, one_right_side,
    typed_instance_at_place,
};
pub use refutations::{
    absorb_needs_no_output, diverge_needs_an_own_read, drop_needs_an_unused_value,
    drop_needs_what_is_read, fold_needs_a_lone_read, fold_needs_no_own_read,
    rename_needs_no_free_name, rename_needs_no_hidden_name, scope_needs_no_free_channel,
    subst_needs_no_flip, subsume_needs_a_read_of_the_first, subsume_needs_what_the_first_reads,
};
pub use renaming_rule::{rename_is_alike, rename_is_equal, rename_is_typed};
pub use rules::{
    assocl_is_alike, assocl_is_equal, assocr_is_alike, assocr_is_equal, comm_is_alike,
    comm_is_equal, newswap_is_alike, newswap_is_equal, scope_is_alike, scope_is_equal,
    unit_is_alike, unit_is_equal,
};
pub use worked::{each_rule_once, failing_sides, other_shapes};
