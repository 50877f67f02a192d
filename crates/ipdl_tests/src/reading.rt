//! Documents: that their protocols are found. The table of `ipdl_rows` has what is refused.

use crate::building::document;
use ipdl_base::Name;
use ipdl_forms::Document;
use std::alloc::Global;

// Whether the document has a protocol of this name.
fn has_protocol(alloc: Global, document: &Document, text: &str) -> Option<bool> {
    let name = Name::read(alloc, text).ok()?;
    Some(document.protocol(&name).is_some())
}

// Whether it has two items, of which A is a protocol and f is none.
fn has_two(alloc: Global, document: &Document) -> bool {
    document.items.as_slice().len() == 2
        && has_protocol(alloc, document, "A") == Some(true)
        && has_protocol(alloc, document, "f") == Some(false)
}

#[test]
fn finds_protocols(rt: HostRuntime) {
    let alloc = rt.alloc();
    let source = "(ipdl 1 (fun f 1 1) (protocol A (inputs) (outputs (c 1)) (out c (flip 1))))";
    let read = document(alloc, source);
    assert!(rt;
        read.as_ref()
            .is_some_and(|document| has_two(alloc, document))
    );
}
