//! What may be used in a step.

use ipdl_base::Name;
use ipdl_chain::Chain;
use ipdl_term::{Interface, Proto};

/// An assumption by its two sides, or a theorem by its chain.
#[derive(Clone, Copy)]
pub enum Claim<'a> {
    Assumption { left: &'a Proto, right: &'a Proto },
    Theorem(&'a Chain),
}

/// An assumption or an earlier theorem, with the interface of its left protocol.
#[derive(Clone, Copy)]
pub struct Known<'a> {
    pub name: &'a Name,
    pub interface: &'a Interface,
    pub claim: Claim<'a>,
}
