//! Ports, in reading order.

ghost use Rattle.std.specs.Prelude.{◌≡◌, [], IfOk, OnOk, IfErr};
ghost use Rattle.ipdl_tree.specs.Trees.{group};
ghost use Rattle.ipdl_tree.specs.Views.{located, all_located};
ghost use Rattle.ipdl_forms.specs.Faults.{TellsFirst};
ghost use Rattle.ipdl_forms.specs.Widths.{SpellsPort, port_faults};

use crate::words::{not_a_form, read_name, read_width};
use ipdl_base::{Name, Pos};
use ipdl_forms::DocFault;
use ipdl_tree::{Node, Tree};
use std::alloc::Global;

// The channel and the width that the tree spells.
pub fn read_port(tree: &Tree, alloc: Global) -> Result<(Name, u8), DocFault>
    ensures spelled { IfOk result (λ port. SpellsPort port.0 port.1 (located tree.now)) }
    ensures clean { OnOk result (port_faults (located tree.now) ≡ []) }
    ensures first { IfErr result (λ fault. TellsFirst fault (port_faults (located tree.now))) }
{
    match &tree.node {
        Node::Group(parts) => read_pair(parts, alloc, tree.pos),
        Node::Word(_) | Node::Number(_) | Node::Literal(_) => Err(not_a_form(tree.pos)),
    }
}

// The channel and the width in a list at the offset.
#[tactic(auto, using(crate::proofs::Lists::tree_count_located))]
fn read_pair(parts: &[Tree], alloc: Global, list: Pos) -> Result<(Name, u8), DocFault>
    ensures spelled { IfOk result (λ port. SpellsPort port.0 port.1 (group list.0 (all_located parts.now))) }
    ensures clean { OnOk result (port_faults (group list.0 (all_located parts.now)) ≡ []) }
    ensures first { IfErr result (λ fault. TellsFirst fault (port_faults (group list.0 (all_located parts.now)))) }
{
    let [channel, width] = parts else {
        return Err(not_a_form(list));
    };
    let channel = read_name(channel, alloc)?;
    let width = read_width(width)?;
    Ok((channel, width))
}
