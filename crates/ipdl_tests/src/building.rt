//! What the tests work on: trees and documents, built from their texts, and the terms in them.

use ipdl_base::{Name, NoMemory, Path};
use ipdl_forms::{Document, Item, ProtocolItem};
use ipdl_read::read_document;
use ipdl_term::{Proto, React};
use ipdl_tree::{Tree, read_tree};
use std::alloc::Global;

// The tree that the source spells, unless memory ran out.
pub(crate) fn tree(alloc: Global, source: &str) -> Option<Tree> {
    let bytes = source.as_bytes();
    if bytes.len() > 1_048_576 {
        return None;
    }
    read_tree(alloc, bytes).ok()
}

// The document that the source spells, unless memory ran out. Nothing is typed.
pub(crate) fn document(alloc: Global, source: &str) -> Option<Document> {
    let tree = tree(alloc, source)?;
    read_document(alloc, &tree).ok()
}

// The item of this index, if it is a protocol.
pub(crate) fn protocol(document: &Document, index: usize) -> Option<&ProtocolItem> {
    match document.items.as_slice().get(index)? {
        Item::Protocol(item) => Some(item),
        _ => None,
    }
}

// The body of the protocol that is the item of this index.
pub(crate) fn body(document: &Document, index: usize) -> Option<&Proto> {
    Some(&protocol(document, index)?.body)
}

// The reaction of the protocol, which is an `out`, that is the item of this index.
pub(crate) fn reaction(document: &Document, index: usize) -> Option<&React> {
    match body(document, index)? {
        Proto::Out(_, term) => Some(term),
        _ => None,
    }
}

// The name that the text spells.
pub(crate) fn name(alloc: Global, text: &str) -> Result<Name, NoMemory> {
    match Name::read(alloc, text) {
        Ok(name) => Ok(name),
        Err(_) => Err(NoMemory),
    }
}

// The place of these numbers.
pub(crate) fn path(alloc: Global, place: &[u32]) -> Result<Path, NoMemory> {
    let mut path = Path::root(alloc);
    for number in place {
        path.push(*number)?;
    }
    Ok(path)
}

// Whether the call made this term.
pub(crate) fn gives<T: PartialEq + Drop, E: Drop>(made: Result<T, E>, wanted: &T) -> bool {
    match &made {
        Ok(term) => *term == *wanted,
        Err(_) => false,
    }
}
