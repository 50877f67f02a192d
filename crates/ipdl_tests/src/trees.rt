//! Trees: what is written of a text that is read, and the offsets of its parts.

use crate::building::tree;
use ipdl_base::Pos;
use ipdl_tree::{Node, Tree, write_tree};
use std::alloc::Global;

// Whether the text is written of the tree that the source spells.
fn is_written(alloc: Global, source: &str, text: &str) -> Option<bool> {
    let written = write_tree(alloc, &tree(alloc, source)?).ok()?;
    Some(written.as_slice() == text.as_bytes())
}

#[test]
fn reads_and_writes(rt: HostRuntime) {
    for (source, text) in [
        ("(ipdl  1 )", "(ipdl 1)"),
        ("(a(b)c)", "(a (b) c)"),
        ("\t(\r\n( )#)\n", "(() #)"),
        ("_", "_"),
        ("4294967295", "4294967295"),
        (" #0110 ", "#0110"),
        ("(é 語)", "(é 語)"),
        (";x\n(;x\nipdl;x\n1;x\n);x\n", "(ipdl 1)"),
        ("(a);cut by the end", "(a)"),
        ("a;é", "a"),
    ] {
        assert!(rt;
            is_written(rt.alloc(), source, text) == Some(true),
            "{source}"
        );
    }
}

// Whether the parts of a group stand at these offsets.
fn has_parts_at(tree: &Tree, offsets: &[u32]) -> bool {
    let Node::Group(parts) = &tree.node else {
        return false;
    };
    parts.len() == offsets.len()
        && parts
            .iter()
            .zip(offsets)
            .all(|(part, wanted)| part.pos == Pos(*wanted))
}

// The last part of a group.
fn last_part(tree: &Tree) -> Option<&Tree> {
    match &tree.node {
        Node::Group(parts) => parts.as_slice().last(),
        _ => None,
    }
}

fn tells(alloc: Global) -> Option<bool> {
    let tree = tree(alloc, " (ab 7;x\n#01 (c))")?;
    Some(
        tree.pos == Pos(1)
            && has_parts_at(&tree, &[2, 5, 9, 13])
            && has_parts_at(last_part(&tree)?, &[14]),
    )
}

#[test]
fn tells_offsets(rt: HostRuntime) {
    assert!(rt; tells(rt.alloc()) == Some(true));
}
