//! Reactions, in reading order.

ghost use Rattle.std.specs.Prelude.{◌≡◌, ℕ, suc, true, ◌∷◌, [], length, Some, OnOk};
ghost use Rattle.ipdl_tree.specs.Trees.{word, group, tree};
ghost use Rattle.ipdl_tree.specs.Views.{located, all_located};
ghost use Rattle.ipdl_term.specs.Views.{expression_of, reaction_of};
ghost use Rattle.ipdl_forms.specs.Counts.{counted};
ghost use Rattle.ipdl_forms.specs.Expressions.{SpellsExpression, expression_count, expression_faults};
ghost use Rattle.ipdl_forms.specs.Lists.{tree_count, tree_at, word_in, name_in, is_word};
ghost use Rattle.ipdl_forms.specs.Reactions.{SpellsReaction, name_part, width_part, expression_part, reaction_part, body_part, reaction_count, reaction_part_count, reaction_parts_wanted, reaction_faults};
ghost use Rattle.ipdl_forms.specs.Scopes.{under_binder};
ghost use Rattle.ipdl_forms.specs.Widths.{SpellsWidth};
ghost use Rattle.ipdl_read_terms.specs.Binders.{binder_names, scope_of};
ghost use Rattle.ipdl_read_terms.specs.Counts.{IsUnder};
ghost use Rattle.ipdl_read_terms.specs.Lists.{reaction_list_faults};
ghost use Rattle.ipdl_read_terms.specs.Outcomes.{IsRead};

use crate::binders::Binders;
use crate::counting::NodeCount;
use crate::expressions::read_expr;
use crate::scope::NameScope;
use crate::words::{not_a_form, read_name, read_width, word_of};
use ipdl_base::{Name, Pos};
use ipdl_forms::DocFault;
use ipdl_term::{Expr, React};
use ipdl_tree::{Node, Tree};
use std::alloc::Global;

/// The reaction that the tree spells. There are no more binders around than nodes that are counted.
#[cycle(reaction)]
pub fn read_react(
    tree: &Tree,
    alloc: Global,
    scope: &NameScope,
    nodes: &mut NodeCount,
) -> Result<React, DocFault>
    requires under { IsUnder (length (binder_names scope.now.binders)) nodes.old.counted }
    ensures read { IsRead (λ r. SpellsReaction (scope_of scope.now) (reaction_of r) (located tree.now))
        (reaction_faults (scope_of scope.now) nodes.old.counted (located tree.now)) result }
    ensures counted { OnOk result (nodes.new.counted ≡ counted (reaction_count (located tree.now)) nodes.old.counted) }
    ensures under { OnOk result (IsUnder (length (binder_names scope.now.binders)) nodes.new.counted) }
{
    match &tree.node {
        Node::Word(_) | Node::Number(_) | Node::Literal(_) => Err(not_a_form(tree.pos)),
        Node::Group(parts) => {
            let [head, operands @ ..] = parts.as_slice() else {
                return Err(not_a_form(tree.pos));
            };
            let Node::Word(name) = &head.node else {
                return Err(not_a_form(tree.pos));
            };
            read_list(operands, alloc, scope, nodes, tree.pos, head.pos, name)
        }
    }
}

// The same, boxed.
#[cycle(reaction)]
fn read_boxed(
    tree: &Tree,
    alloc: Global,
    scope: &NameScope,
    nodes: &mut NodeCount,
) -> Result<Box<React>, DocFault>
    requires under { IsUnder (length (binder_names scope.now.binders)) nodes.old.counted }
    ensures read { IsRead (λ r. SpellsReaction (scope_of scope.now) (reaction_of r.value) (located tree.now))
        (reaction_faults (scope_of scope.now) nodes.old.counted (located tree.now)) result }
    ensures counted { OnOk result (nodes.new.counted ≡ counted (reaction_count (located tree.now)) nodes.old.counted) }
    ensures under { OnOk result (IsUnder (length (binder_names scope.now.binders)) nodes.new.counted) }
{
    let reaction = read_react(tree, alloc, scope, nodes)?;
    Ok(Box::new(alloc, reaction)?)
}

// The reaction of a list with the name in front, each at its offset.
#[cycle(reaction)]
fn read_list(
    operands: &[Tree],
    alloc: Global,
    scope: &NameScope,
    nodes: &mut NodeCount,
    list: Pos,
    head: Pos,
    name: &Name,
) -> Result<React, DocFault>
    requires under { IsUnder (length (binder_names scope.now.binders)) nodes.old.counted }
    ensures read { IsRead (λ r. SpellsReaction (scope_of scope.now) (reaction_of r)
        (group list.0 (tree (word head.0 name.now) (all_located operands.now))))
        (reaction_faults (scope_of scope.now) nodes.old.counted
        (group list.0 (tree (word head.0 name.now) (all_located operands.now)))) result }
    ensures counted { OnOk result (nodes.new.counted
        ≡ counted (suc (reaction_part_count (reaction_parts_wanted name.now) (all_located operands.now))) nodes.old.counted) }
    ensures under { OnOk result (IsUnder (length (binder_names scope.now.binders)) nodes.new.counted) }
{
    match name.text() {
        "ret" => {
            let value = read_returned(operands, alloc, scope, nodes, list)?;
            Ok(React::Ret(value))
        }
        "flip" => {
            let width = read_flipped(operands, scope, nodes, list)?;
            Ok(React::Flip(width))
        }
        "read" => {
            let channel = read_channel(operands, alloc, scope, nodes, list)?;
            Ok(React::Read(channel))
        }
        "if" => {
            let (test, left, right) = read_branches(operands, alloc, scope, nodes, list)?;
            Ok(React::Cond(test, left, right))
        }
        "bind" => {
            let (width, first, rest) = read_binding(&*operands, alloc, &*scope, nodes, list)?;
            Ok(React::Bind(width, first, rest))
        }
        _ => Err(not_a_form(list)),
    }
}

// The expression of a reaction, under its binders.
#[tactic(auto, using(crate::proofs::Counts::under_within, crate::proofs::Counts::under_shallow, crate::proofs::Counts::under_kept))]
fn read_value(
    tree: &Tree,
    alloc: Global,
    scope: &NameScope,
    nodes: &mut NodeCount,
) -> Result<Expr, DocFault>
    requires under { IsUnder (length (binder_names scope.now.binders)) nodes.old.counted }
    ensures read { IsRead (λ e. SpellsExpression (scope_of scope.now) (expression_of e) (located tree.now))
        (expression_faults (scope_of scope.now) nodes.old.counted (located tree.now)) result }
    ensures counted { OnOk result (nodes.new.counted ≡ counted (expression_count (located tree.now)) nodes.old.counted) }
    ensures under { OnOk result (IsUnder (length (binder_names scope.now.binders)) nodes.new.counted) }
{
    read_expr(tree, alloc, scope, nodes)
}

// The expression after `ret`.
#[tactic(auto, using(crate::proofs::Lists::tree_count_located, crate::proofs::Counts::under_within, crate::proofs::Counts::under_kept))]
fn read_returned(
    operands: &[Tree],
    alloc: Global,
    scope: &NameScope,
    nodes: &mut NodeCount,
    list: Pos,
) -> Result<Expr, DocFault>
    requires under { IsUnder (length (binder_names scope.now.binders)) nodes.old.counted }
    ensures read { IsRead (λ e. (tree_count (all_located operands.now) ≡ 1)
        × SpellsExpression (scope_of scope.now) (expression_of e) (tree_at 0 (all_located operands.now)))
        (reaction_list_faults (scope_of scope.now) nodes.old.counted list.0 (expression_part ∷ []) (all_located operands.now)) result }
    ensures counted { OnOk result (nodes.new.counted
        ≡ counted (reaction_part_count (expression_part ∷ []) (all_located operands.now)) (counted 1 nodes.old.counted)) }
    ensures under { OnOk result (IsUnder (length (binder_names scope.now.binders)) nodes.new.counted) }
{
    let [value] = operands else {
        return Err(not_a_form(list));
    };
    nodes.add(1, list)?;
    read_value(value, alloc, scope, nodes)
}

// The width after `flip`.
#[tactic(auto, using(crate::proofs::Lists::tree_count_located, crate::proofs::Counts::under_within, crate::proofs::Counts::under_kept))]
fn read_flipped(
    operands: &[Tree],
    scope: &NameScope,
    nodes: &mut NodeCount,
    list: Pos,
) -> Result<u8, DocFault>
    requires under { IsUnder (length (binder_names scope.now.binders)) nodes.old.counted }
    ensures read { IsRead (λ w. (tree_count (all_located operands.now) ≡ 1) × SpellsWidth w (tree_at 0 (all_located operands.now)))
        (reaction_list_faults (scope_of scope.now) nodes.old.counted list.0 (width_part ∷ []) (all_located operands.now)) result }
    ensures counted { OnOk result (nodes.new.counted
        ≡ counted (reaction_part_count (width_part ∷ []) (all_located operands.now)) (counted 1 nodes.old.counted)) }
    ensures under { OnOk result (IsUnder (length (binder_names scope.now.binders)) nodes.new.counted) }
{
    let [width] = operands else {
        return Err(not_a_form(list));
    };
    nodes.add(1, list)?;
    read_width(width)
}

// The channel after `read`.
#[tactic(auto, using(crate::proofs::Lists::tree_count_located, crate::proofs::Counts::under_within, crate::proofs::Counts::under_kept))]
fn read_channel(
    operands: &[Tree],
    alloc: Global,
    scope: &NameScope,
    nodes: &mut NodeCount,
    list: Pos,
) -> Result<Name, DocFault>
    requires under { IsUnder (length (binder_names scope.now.binders)) nodes.old.counted }
    ensures read { IsRead (λ c. (tree_count (all_located operands.now) ≡ 1) × (word_in (tree_at 0 (all_located operands.now)) ≡ Some c))
        (reaction_list_faults (scope_of scope.now) nodes.old.counted list.0 (name_part ∷ []) (all_located operands.now)) result }
    ensures counted { OnOk result (nodes.new.counted
        ≡ counted (reaction_part_count (name_part ∷ []) (all_located operands.now)) (counted 1 nodes.old.counted)) }
    ensures under { OnOk result (IsUnder (length (binder_names scope.now.binders)) nodes.new.counted) }
{
    let [channel] = operands else {
        return Err(not_a_form(list));
    };
    nodes.add(1, list)?;
    read_name(channel, alloc)
}

// The test and the two branches after `if`.
#[cycle(reaction)]
#[tactic(auto, using(crate::proofs::Lists::tree_count_located, crate::proofs::Counts::under_within, crate::proofs::Counts::under_kept))]
fn read_branches(
    operands: &[Tree],
    alloc: Global,
    scope: &NameScope,
    nodes: &mut NodeCount,
    list: Pos,
) -> Result<(Expr, Box<React>, Box<React>), DocFault>
    requires under { IsUnder (length (binder_names scope.now.binders)) nodes.old.counted }
    ensures read { IsRead (λ r. (tree_count (all_located operands.now) ≡ 3)
        × SpellsExpression (scope_of scope.now) (expression_of r.0) (tree_at 0 (all_located operands.now))
        × SpellsReaction (scope_of scope.now) (reaction_of r.1.value) (tree_at 1 (all_located operands.now))
        × SpellsReaction (scope_of scope.now) (reaction_of r.2.value) (tree_at 2 (all_located operands.now)))
        (reaction_list_faults (scope_of scope.now) nodes.old.counted list.0 (expression_part ∷ reaction_part ∷ reaction_part ∷ [])
        (all_located operands.now)) result }
    ensures counted { OnOk result (nodes.new.counted
        ≡ counted (reaction_part_count (expression_part ∷ reaction_part ∷ reaction_part ∷ []) (all_located operands.now)) (counted 1 nodes.old.counted)) }
    ensures under { OnOk result (IsUnder (length (binder_names scope.now.binders)) nodes.new.counted) }
{
    let [test, left, right] = operands else {
        return Err(not_a_form(list));
    };
    nodes.add(1, list)?;
    let test = read_value(test, alloc, scope, nodes)?;
    let left = read_boxed(left, alloc, scope, nodes)?;
    let right = read_boxed(right, alloc, scope, nodes)?;
    Ok((test, left, right))
}

// The width, the first part and the body after `bind`.
#[cycle(reaction)]
#[tactic(auto, using(crate::proofs::Lists::tree_count_located, crate::proofs::Counts::under_within, crate::proofs::Counts::under_kept, crate::proofs::Counts::under_inside))]
fn read_binding<'a>(
    operands: &'a [Tree],
    alloc: Global,
    scope: &'a NameScope<'a>,
    nodes: &mut NodeCount,
    list: Pos,
) -> Result<(u8, Box<React>, Box<React>), DocFault>
    requires under { IsUnder (length (binder_names scope.now.binders)) nodes.old.counted }
    ensures read { IsRead (λ r. (tree_count (all_located operands.now) ≡ 4)
        × (is_word (tree_at 0 (all_located operands.now)) ≡ true)
        × SpellsWidth r.0 (tree_at 1 (all_located operands.now))
        × SpellsReaction (scope_of scope.now) (reaction_of r.1.value) (tree_at 2 (all_located operands.now))
        × SpellsReaction (under_binder (name_in (tree_at 0 (all_located operands.now))) (scope_of scope.now))
        (reaction_of r.2.value) (tree_at 3 (all_located operands.now)))
        (reaction_list_faults (scope_of scope.now) nodes.old.counted list.0 (name_part ∷ width_part ∷ reaction_part ∷ body_part ∷ [])
        (all_located operands.now)) result }
    ensures counted { OnOk result (nodes.new.counted
        ≡ counted (reaction_part_count (name_part ∷ width_part ∷ reaction_part ∷ body_part ∷ []) (all_located operands.now)) (counted 1 nodes.old.counted)) }
    ensures under { OnOk result (IsUnder (length (binder_names scope.now.binders)) nodes.new.counted) }
{
    let [name, width, first, body] = operands else {
        return Err(not_a_form(list));
    };
    nodes.add(1, list)?;
    let name = word_of(name)?;
    let width = read_width(width)?;
    let first = read_boxed(first, alloc, scope, nodes)?;
    let inner = NameScope {
        sig: scope.sig,
        binders: Binders::Inner(&scope.binders, name),
        in_step: scope.in_step,
    };
    let body = read_boxed(body, alloc, &inner, nodes)?;
    Ok((width, first, body))
}
