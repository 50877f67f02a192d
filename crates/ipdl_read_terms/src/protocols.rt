//! Protocols, in reading order.

ghost use Rattle.std.specs.Prelude.{◌≡◌, ℕ, ◌++◌, [], codes, Some, OnOk};
ghost use Rattle.ipdl_tree.specs.Trees.{word, group, no_trees, tree};
ghost use Rattle.ipdl_tree.specs.Views.{located, all_located};
ghost use Rattle.ipdl_term.specs.Views.{reaction_of, protocol_of};
ghost use Rattle.ipdl_read_terms.specs.Binders.{binder_names};
ghost use Rattle.ipdl_forms.specs.Counts.{counted};
ghost use Rattle.ipdl_read_terms.specs.Counts.{IsUnder};
ghost use Rattle.ipdl_read_terms.specs.Outcomes.{IsRead};
ghost use Rattle.ipdl_forms.specs.Lists.{tree_count, tree_at, word_in};
ghost use Rattle.ipdl_forms.specs.Protocols.{SpellsProtocol, nil_shape, out_shape, par_shape, new_shape, shape_named, protocol_count, protocols_count, hidden_faults, protocol_faults, protocols_faults};
ghost use Rattle.ipdl_read_terms.specs.Lists.{protocol_list_count, protocol_list_faults, beside_parts, under_ports};
ghost use Rattle.ipdl_forms.specs.Reactions.{SpellsReaction, reaction_count, reaction_faults};
ghost use Rattle.ipdl_forms.specs.Scopes.{NameScope as Names};
ghost use Rattle.ipdl_read_terms.specs.Binders.{scope_of};

use crate::counting::NodeCount;
use crate::ports::read_port;
use crate::reactions::read_react;
use crate::scope::NameScope;
use crate::words::{not_a_form, read_name};
use ipdl_base::{Name, Pos};
use ipdl_forms::DocFault;
use ipdl_term::{Proto, React};
use ipdl_tree::{Node, Tree};
use std::alloc::Global;

/// The protocol that the tree spells, with no binder around.
#[cycle(protocol)]
pub fn read_proto(
    tree: &Tree,
    alloc: Global,
    scope: &NameScope,
    nodes: &mut NodeCount,
) -> Result<Proto, DocFault>
    requires alone { binder_names scope.now.binders ≡ [] }
    requires under { IsUnder 0 nodes.old.counted }
    ensures read { IsRead (λ p. SpellsProtocol (scope_of scope.now) (protocol_of p) (located tree.now))
        (protocol_faults (scope_of scope.now) nodes.old.counted (located tree.now)) result }
    ensures counted { OnOk result (nodes.new.counted ≡ counted (protocol_count (located tree.now)) nodes.old.counted) }
    ensures under { OnOk result (IsUnder 0 nodes.new.counted) }
{
    match &tree.node {
        Node::Word(_) | Node::Number(_) | Node::Literal(_) => Err(not_a_form(tree.pos)),
        Node::Group(parts) => {
            let [head, operands @ ..] = parts.as_slice() else {
                return Err(not_a_form(tree.pos));
            };
            let Node::Word(name) = &head.node else {
                return Err(not_a_form(tree.pos));
            };
            read_list(operands, alloc, scope, nodes, tree.pos, head.pos, name)
        }
    }
}

// The protocol of a list with the name in front, each at its offset.
#[cycle(protocol)]
fn read_list(
    operands: &[Tree],
    alloc: Global,
    scope: &NameScope,
    nodes: &mut NodeCount,
    list: Pos,
    head: Pos,
    name: &Name,
) -> Result<Proto, DocFault>
    requires alone { binder_names scope.now.binders ≡ [] }
    requires under { IsUnder 0 nodes.old.counted }
    ensures read { IsRead (λ p. SpellsProtocol (scope_of scope.now) (protocol_of p)
        (group list.0 (tree (word head.0 name.now) (all_located operands.now))))
        (protocol_faults (scope_of scope.now) nodes.old.counted (group list.0 (tree (word head.0 name.now) (all_located operands.now)))) result }
    ensures counted { OnOk result (nodes.new.counted
        ≡ counted (protocol_list_count (shape_named name.now) (all_located operands.now)) nodes.old.counted) }
    ensures under { OnOk result (IsUnder 0 nodes.new.counted) }
{
    match name.text() {
        "nil" => {
            read_nil(operands, nodes, list)?;
            Ok(Proto::Nil)
        }
        "out" => {
            let (channel, reaction) = read_assignment(operands, alloc, scope, nodes, list)?;
            Ok(Proto::Out(channel, reaction))
        }
        "par" => read_par(operands, alloc, scope, nodes, list),
        "new" => read_new(operands, alloc, scope, nodes, list),
        _ => Err(not_a_form(list)),
    }
}

// Nothing after `nil`.
#[tactic(auto, using(crate::proofs::Lists::tree_count_located, crate::proofs::Counts::under_within, crate::proofs::Counts::under_kept))]
fn read_nil(operands: &[Tree], nodes: &mut NodeCount, list: Pos) -> Result<(), DocFault>
    requires { IsUnder 0 nodes.old.counted }
    ensures read { (scope : Names) → IsRead (λ _. tree_count (all_located operands.now) ≡ 0)
        (protocol_list_faults scope nodes.old.counted list.0 (Some nil_shape) (all_located operands.now)) result }
    ensures counted { OnOk result (nodes.new.counted
        ≡ counted (protocol_list_count (Some nil_shape) (all_located operands.now)) nodes.old.counted) }
    ensures under { OnOk result (IsUnder 0 nodes.new.counted) }
{
    if !operands.is_empty() {
        return Err(not_a_form(list));
    }
    nodes.add(1, list)
}

// The reaction that an assignment has, which no binder is around.
#[tactic(auto, using(crate::proofs::Counts::under_alone, crate::proofs::Counts::under_none))]
fn read_assigned(
    tree: &Tree,
    alloc: Global,
    scope: &NameScope,
    nodes: &mut NodeCount,
) -> Result<React, DocFault>
    requires alone { binder_names scope.now.binders ≡ [] }
    requires under { IsUnder 0 nodes.old.counted }
    ensures read { IsRead (λ r. SpellsReaction (scope_of scope.now) (reaction_of r) (located tree.now))
        (reaction_faults (scope_of scope.now) nodes.old.counted (located tree.now)) result }
    ensures counted { OnOk result (nodes.new.counted ≡ counted (reaction_count (located tree.now)) nodes.old.counted) }
    ensures under { OnOk result (IsUnder 0 nodes.new.counted) }
{
    read_react(tree, alloc, scope, nodes)
}

// The channel and the reaction after `out`.
#[tactic(auto, using(crate::proofs::Lists::tree_count_located, crate::proofs::Counts::under_within, crate::proofs::Counts::under_kept))]
fn read_assignment(
    operands: &[Tree],
    alloc: Global,
    scope: &NameScope,
    nodes: &mut NodeCount,
    list: Pos,
) -> Result<(Name, React), DocFault>
    requires alone { binder_names scope.now.binders ≡ [] }
    requires under { IsUnder 0 nodes.old.counted }
    ensures read { IsRead (λ r. (tree_count (all_located operands.now) ≡ 2) × (word_in (tree_at 0 (all_located operands.now)) ≡ Some r.0)
        × SpellsReaction (scope_of scope.now) (reaction_of r.1) (tree_at 1 (all_located operands.now)))
        (protocol_list_faults (scope_of scope.now) nodes.old.counted list.0 (Some out_shape) (all_located operands.now)) result }
    ensures counted { OnOk result (nodes.new.counted
        ≡ counted (protocol_list_count (Some out_shape) (all_located operands.now)) nodes.old.counted) }
    ensures under { OnOk result (IsUnder 0 nodes.new.counted) }
{
    let [channel, reaction] = operands else {
        return Err(not_a_form(list));
    };
    nodes.add(1, list)?;
    let channel = read_name(channel, alloc)?;
    let reaction = read_assigned(reaction, alloc, scope, nodes)?;
    Ok((channel, reaction))
}

// The protocol of the parts after `par`.
#[cycle(protocol)]
#[tactic(auto, using(crate::proofs::Lists::tree_count_located, crate::proofs::Counts::under_within, crate::proofs::Counts::under_kept))]
fn read_par(
    operands: &[Tree],
    alloc: Global,
    scope: &NameScope,
    nodes: &mut NodeCount,
    list: Pos,
) -> Result<Proto, DocFault>
    requires alone { binder_names scope.now.binders ≡ [] }
    requires under { IsUnder 0 nodes.old.counted }
    ensures read { IsRead (λ p. (pos at : ℕ) → SpellsProtocol (scope_of scope.now) (protocol_of p)
        (group pos (tree (word at (codes "par")) (all_located operands.now))))
        (protocol_list_faults (scope_of scope.now) nodes.old.counted list.0 (Some par_shape) (all_located operands.now)) result }
    ensures counted { OnOk result (nodes.new.counted
        ≡ counted (protocol_list_count (Some par_shape) (all_located operands.now)) nodes.old.counted) }
    ensures under { OnOk result (IsUnder 0 nodes.new.counted) }
{
    let [first, rest @ ..] = operands else {
        return Err(not_a_form(list));
    };
    if rest.is_empty() {
        return Err(not_a_form(list));
    }
    nodes.add(rest.len(), list)?;
    read_parts(first, rest, alloc, scope, nodes)
}

// The part and the rest of them side by side, or the part where it is the last one.
#[cycle(protocol)]
fn read_parts(
    first: &Tree,
    rest: &[Tree],
    alloc: Global,
    scope: &NameScope,
    nodes: &mut NodeCount,
) -> Result<Proto, DocFault>
    requires alone { binder_names scope.now.binders ≡ [] }
    requires under { IsUnder 0 nodes.old.counted }
    ensures read { IsRead (λ p. SpellsProtocol (scope_of scope.now) (protocol_of p) (beside_parts (located first.now) (all_located rest.now)))
        (protocols_faults (scope_of scope.now) nodes.old.counted (tree (located first.now) (all_located rest.now))) result }
    ensures counted { OnOk result (nodes.new.counted
        ≡ counted (protocols_count (tree (located first.now) (all_located rest.now))) nodes.old.counted) }
    ensures under { OnOk result (IsUnder 0 nodes.new.counted) }
{
    let part = read_proto(first, alloc, scope, nodes)?;
    let [second, others @ ..] = rest else {
        return Ok(part);
    };
    let beside = read_parts(second, others, alloc, scope, nodes)?;
    Ok(Proto::Par(Box::new(alloc, part)?, Box::new(alloc, beside)?))
}

// The protocol of the ports and the body after `new`.
#[cycle(protocol)]
#[tactic(auto, using(crate::proofs::Lists::tree_count_located, crate::proofs::Counts::under_within, crate::proofs::Counts::under_kept))]
fn read_new(
    operands: &[Tree],
    alloc: Global,
    scope: &NameScope,
    nodes: &mut NodeCount,
    list: Pos,
) -> Result<Proto, DocFault>
    requires alone { binder_names scope.now.binders ≡ [] }
    requires under { IsUnder 0 nodes.old.counted }
    ensures read { IsRead (λ p. (pos at : ℕ) → SpellsProtocol (scope_of scope.now) (protocol_of p)
        (group pos (tree (word at (codes "new")) (all_located operands.now))))
        (protocol_list_faults (scope_of scope.now) nodes.old.counted list.0 (Some new_shape) (all_located operands.now)) result }
    ensures counted { OnOk result (nodes.new.counted
        ≡ counted (protocol_list_count (Some new_shape) (all_located operands.now)) nodes.old.counted) }
    ensures under { OnOk result (IsUnder 0 nodes.new.counted) }
{
    let [ports, body] = operands else {
        return Err(not_a_form(list));
    };
    let Node::Group(held) = &ports.node else {
        nodes.add(1, list)?;
        return Err(not_a_form(ports.pos));
    };
    read_under(held, body, alloc, scope, nodes, list, ports.pos)
}

// The protocol of the ports in the list at the second offset, and the body after it.
#[cycle(protocol)]
#[tactic(auto, using(crate::proofs::Lists::tree_count_located, crate::proofs::Counts::under_within, crate::proofs::Counts::under_kept))]
fn read_under(
    ports: &[Tree],
    body: &Tree,
    alloc: Global,
    scope: &NameScope,
    nodes: &mut NodeCount,
    list: Pos,
    at: Pos,
) -> Result<Proto, DocFault>
    requires alone { binder_names scope.now.binders ≡ [] }
    requires under { IsUnder 0 nodes.old.counted }
    ensures read { IsRead (λ p. (pos from : ℕ) → SpellsProtocol (scope_of scope.now) (protocol_of p)
        (group pos (tree (word from (codes "new")) (tree (group at.0 (all_located ports.now)) (tree (located body.now) no_trees)))))
        (protocol_list_faults (scope_of scope.now) nodes.old.counted list.0 (Some new_shape) (tree (group at.0 (all_located ports.now)) (tree (located body.now) no_trees))) result }
    ensures counted { OnOk result (nodes.new.counted
        ≡ counted (protocol_list_count (Some new_shape) (tree (group at.0 (all_located ports.now)) (tree (located body.now) no_trees))) nodes.old.counted) }
    ensures under { OnOk result (IsUnder 0 nodes.new.counted) }
{
    nodes.add(ports.len(), list)?;
    if ports.is_empty() {
        return Err(not_a_form(at));
    }
    read_hidden(ports, body, alloc, scope, nodes)
}

// The protocol that the tree spells, with the ports hidden in it.
#[cycle(protocol)]
fn read_hidden(
    ports: &[Tree],
    body: &Tree,
    alloc: Global,
    scope: &NameScope,
    nodes: &mut NodeCount,
) -> Result<Proto, DocFault>
    requires alone { binder_names scope.now.binders ≡ [] }
    requires under { IsUnder 0 nodes.old.counted }
    ensures read { IsRead (λ p. SpellsProtocol (scope_of scope.now) (protocol_of p) (under_ports (all_located ports.now) (located body.now)))
        (hidden_faults (all_located ports.now) ++ protocol_faults (scope_of scope.now) nodes.old.counted (located body.now)) result }
    ensures counted { OnOk result (nodes.new.counted ≡ counted (protocol_count (located body.now)) nodes.old.counted) }
    ensures under { OnOk result (IsUnder 0 nodes.new.counted) }
{
    let [first, rest @ ..] = ports else {
        return read_proto(body, alloc, scope, nodes);
    };
    let (channel, width) = read_port(first, alloc)?;
    let inside = read_hidden(rest, body, alloc, scope, nodes)?;
    Ok(Proto::Hide(channel, width, Box::new(alloc, inside)?))
}
