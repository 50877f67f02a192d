//! Commands about one item of a document: what each refuses, and the text that answers it.
#![tactic(auto)]

mod fault;
mod laws;
mod refusal;
mod running;
mod shaping;
mod values;
mod worked;

pub use fault::CommandFault;
pub use laws::{run_has_one_reply, shape_has_one_reply};
pub use running::run_text;
pub use shaping::shape_text;
pub use worked::{
    a_bit_its_opposite_and_a_stuck_output, a_hidden_name_that_repeats, an_empty_tape,
    names_in_turned_order,
};
