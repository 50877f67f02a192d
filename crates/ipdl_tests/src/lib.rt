//! Tests of the calls of the libraries, beside the crates that have them: a crate with tests is
//! proved twice. Each call that no program makes is run, and each row's answer was worked out by
//! hand.
#![tactic(auto)]

#[cfg(test)]
mod building;
#[cfg(test)]
mod chains;
#[cfg(test)]
mod contexts;
#[cfg(test)]
mod places;
#[cfg(test)]
mod printing;
#[cfg(test)]
mod reading;
#[cfg(test)]
mod symbols;
#[cfg(test)]
mod terms;
#[cfg(test)]
mod trees;
#[cfg(test)]
mod typing;
#[cfg(test)]
mod variables;
