//! Scripts: what each step makes of the current whole term, what chain the two scripts of a theorem
//! give, and what is wrong where they give none.
#![tactic(auto)]

mod adding_step;
mod chains;
mod comparing;
mod differences;
mod fault;
mod fitting;
mod following;
mod instances;
mod known_named;
mod limits;
mod marks;
mod new_part;
mod normal_forms;
mod setting;
mod sides;
mod spot;
mod stepping;
mod steps;
mod tables;
mod theorem;
mod trail;
mod truth;
mod using;
mod variables;
mod whole_terms;
mod worked;

pub use adding_step::{AddedTerms, added_by_step};
pub use chains::{chain_exactly, chain_leads_across, chain_means, one_chain, wrong_is_first};
pub use comparing::differing_at;
pub use differences::{differ_first, differ_nowhere, one_first_place};
pub use fault::{Cause, ScriptFault, Side, StepFault, Wrong};
pub use fitting::small_step_fits;
pub use instances::{
    instance_exactly, instance_is_equal, replaced_and_put_back, settled_arguments,
};
pub use setting::Setting;
pub use stepping::GREATEST_DEPTH;
pub use steps::{first_refusal_is_told, one_result, step_exactly, step_is_marked, step_means};
pub use theorem::{Book, check_theorem};
pub use worked::{
    assumption_below_a_new, back_and_forward, each_cause, each_cause_of_a_use, ends_that_differ,
    masked_coin, meeting_in_the_middle, one_exchange, place_below_a_flip, table_in_an_arm,
    theorem_used_back, two_assumptions_by_a_theorem,
};
