//! Tests that the document is made where memory is there, which no contract can say.

use crate::sample_document;
use std::test::Fail;

#[test]
fn makes_the_document_of_one_theorem(rt: HostRuntime) -> Result<(), Fail> {
    assert!(rt; sample_document(rt.alloc(), 1)?.len() == 333);
    Ok(())
}
