//! Interfaces of protocols, in reading order.

ghost use Rattle.std.specs.Prelude.{◌≡◌, ◌++◌, [], false, IfOk, OnOk, IfErr};
ghost use Rattle.ipdl_tree.specs.Trees.{group};
ghost use Rattle.ipdl_tree.specs.Views.{located, all_located};
ghost use Rattle.ipdl_forms.specs.Faults.{TellsFirst};
ghost use Rattle.ipdl_forms.specs.Items.{ArePorts, SpellsInterface, first_names, interface_port_faults, all_port_faults, interface_faults};
ghost use Rattle.ipdl_forms.specs.Lists.{is_among};
ghost use Rattle.ipdl_forms.specs.Widths.{SpellsPort};

use crate::names::read_new_name;
use crate::seen::Seen;
use ipdl_base::{List, Pos};
use ipdl_forms::DocFault;
use ipdl_read_terms::{not_a_form, parts_after, read_width};
use ipdl_term::{Interface, Port};
use ipdl_tree::{Node, Tree};
use std::alloc::Global;

// The port that the parts of a list tell, of which no port before has the name.
#[tactic(auto, using(ipdl_read_terms::proofs::Lists::tree_count_located))]
fn read_port_parts(parts: &[Tree], alloc: Global, seen: &Seen, list: Pos) -> Result<Port, DocFault>
    ensures spelled { IfOk result (λ port. SpellsPort port.name port.width (group list.0 (all_located parts.now))) }
    ensures new { IfOk result (λ port. is_among seen.now port.name ≡ false) }
    ensures clean { OnOk result (interface_port_faults seen.now (group list.0 (all_located parts.now)) ≡ []) }
    ensures first { IfErr result (λ fault. TellsFirst fault
        (interface_port_faults seen.now (group list.0 (all_located parts.now)))) }
{
    let [name, width] = parts else {
        return Err(not_a_form(list));
    };
    let name = read_new_name(name, alloc, seen)?;
    let width = read_width(width)?;
    Ok(Port { name, width })
}

// The port that the tree tells, of which no port before has the name.
fn read_port(tree: &Tree, alloc: Global, seen: &Seen) -> Result<Port, DocFault>
    ensures spelled { IfOk result (λ port. SpellsPort port.name port.width (located tree.now)) }
    ensures new { IfOk result (λ port. is_among seen.now port.name ≡ false) }
    ensures clean { OnOk result (interface_port_faults seen.now (located tree.now) ≡ []) }
    ensures first { IfErr result (λ fault. TellsFirst fault (interface_port_faults seen.now (located tree.now))) }
{
    match &tree.node {
        Node::Group(parts) => read_port_parts(parts.as_slice(), alloc, seen, tree.pos),
        Node::Word(_) | Node::Number(_) | Node::Literal(_) => Err(not_a_form(tree.pos)),
    }
}

// The ports that the trees tell, whose names are added to those that were seen.
fn read_ports(trees: &[Tree], alloc: Global, seen: &mut Seen) -> Result<List<Port>, DocFault>
    ensures spelled { IfOk result (λ ports. ArePorts seen.old ports (all_located trees.now)) }
    ensures names { OnOk result (seen.new ≡ seen.old ++ first_names (all_located trees.now)) }
    ensures clean { OnOk result (all_port_faults seen.old (all_located trees.now) ≡ []) }
    ensures first { IfErr result (λ fault. TellsFirst fault (all_port_faults seen.old (all_located trees.now))) }
{
    let mut ports = List::empty(alloc);
    for tree in trees {
        let port = read_port(tree, alloc, seen)?;
        seen.add(port.name.copy(alloc)?)?;
        ports.push(port)?;
    }
    Ok(ports)
}

// The interface that the two lists tell.
pub(crate) fn read_interface(
    inputs: &Tree,
    outputs: &Tree,
    alloc: Global,
) -> Result<Interface, DocFault>
    ensures spelled { IfOk result (λ interface. SpellsInterface interface (located inputs.now) (located outputs.now)) }
    ensures clean { OnOk result (interface_faults (located inputs.now) (located outputs.now) ≡ []) }
    ensures first { IfErr result (λ fault. TellsFirst fault (interface_faults (located inputs.now) (located outputs.now))) }
{
    let mut seen = Seen::empty(alloc);
    let inputs = read_ports(parts_after(inputs, "inputs")?, alloc, &mut seen)?;
    let outputs = read_ports(parts_after(outputs, "outputs")?, alloc, &mut seen)?;
    Ok(Interface { inputs, outputs })
}
