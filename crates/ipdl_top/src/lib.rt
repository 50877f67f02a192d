//! The one call that the program makes: from the words of the command line and the bytes of a
//! source to a status and the bytes that a sink takes.
#![tactic(auto)]

mod answering;
mod causes;
mod laws;
mod refusal;
mod refusing;
mod request;
mod runner;
mod scripts;
mod status;
mod summaries;
#[cfg(test)]
mod tests;
mod transfer;
mod typing;
mod wrong;

pub use laws::{
    chains_mean, the_first_item_is_refused, the_first_theorem_is_refused,
    words_and_bytes_have_one_reply, words_are_of_one_request, worked_example,
};
pub use runner::run;
pub use status::Status;
