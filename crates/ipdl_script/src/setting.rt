//! What the steps of a theorem are checked against.

use ipdl_chain::Chain;
use ipdl_forms::Document;
use ipdl_sig::Sig;
use ipdl_term::Interface;

/// The symbols and the items of the document, the chains of the theorems before, and the interface of
/// the theorem's left protocol.
#[derive(Clone, Copy)]
pub struct Setting<'a> {
    pub sig: &'a Sig,
    pub document: &'a Document,
    pub chains: &'a [Chain],
    pub interface: &'a Interface,
}
