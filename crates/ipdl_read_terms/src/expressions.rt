//! Expressions, in reading order.

ghost use Rattle.std.specs.Prelude.{◌≡◌, ℕ, suc, ◌≤◌, [], ◌∷◌, length, None, OnOk};
ghost use Rattle.ipdl_base.specs.Limits.{limit_number};
ghost use Rattle.ipdl_base.specs.declared.limit.Limit.TheVariants.{Nodes};
ghost use Rattle.ipdl_tree.specs.Trees.{word, group, tree};
ghost use Rattle.ipdl_tree.specs.Views.{located, all_located};
ghost use Rattle.ipdl_term.specs.Views.{expression_of};
ghost use Rattle.ipdl_read_terms.specs.Binders.{binder_names};
ghost use Rattle.ipdl_forms.specs.Counts.{counted, IsWithinNodes};
ghost use Rattle.ipdl_forms.specs.Expressions.{SpellsExpression, expression_count, operand_count, expression_faults, variable_faults};
ghost use Rattle.ipdl_read_terms.specs.Lists.{expression_list_faults};
ghost use Rattle.ipdl_read_terms.specs.Outcomes.{IsRead};
ghost use Rattle.ipdl_forms.specs.Lists.{tree_count, tree_at};
ghost use Rattle.ipdl_forms.specs.Operators.{expression_operand, width_operand, operator_operands};
ghost use Rattle.ipdl_read_terms.specs.Binders.{scope_of};
ghost use Rattle.ipdl_forms.specs.Widths.{SpellsWidth};

use crate::counting::NodeCount;
use crate::scope::NameScope;
use crate::words::{not_a_form, read_width};
use ipdl_base::{Name, Pos};
use ipdl_forms::{DocFault, FormCause};
use ipdl_term::Expr;
use ipdl_tree::{Node, Tree};
use std::alloc::Global;

// The variable that the name is.
fn read_variable(scope: &NameScope, pos: Pos, name: &Name) -> Result<Expr, DocFault>
    requires shallow { length (binder_names scope.now.binders) ≤ limit_number Nodes }
    ensures { IsRead (λ e. (at : ℕ) → SpellsExpression (scope_of scope.now) (expression_of e) (word at name.now))
        (variable_faults (scope_of scope.now) pos.0 name.now) result }
{
    if let Some(number) = scope.bound_number(name) {
        return Ok(Expr::Var(number));
    }
    match scope.free_number(name) {
        Some(number) => Ok(Expr::Outer(number)),
        None => Err(DocFault::Form {
            pos,
            cause: FormCause::UnknownName,
        }),
    }
}

/// The expression that the tree spells, with its nodes counted.
#[cycle(expression)]
pub fn read_expr(
    tree: &Tree,
    alloc: Global,
    scope: &NameScope,
    nodes: &mut NodeCount,
) -> Result<Expr, DocFault>
    requires shallow { length (binder_names scope.now.binders) ≤ limit_number Nodes }
    requires counted { IsWithinNodes nodes.old.counted }
    ensures read { IsRead (λ e. SpellsExpression (scope_of scope.now) (expression_of e) (located tree.now))
        (expression_faults (scope_of scope.now) nodes.old.counted (located tree.now)) result }
    ensures counted { OnOk result (nodes.new.counted ≡ counted (expression_count (located tree.now)) nodes.old.counted) }
    ensures within { OnOk result (IsWithinNodes nodes.new.counted) }
{
    match &tree.node {
        Node::Word(name) => {
            nodes.add(1, tree.pos)?;
            read_variable(scope, tree.pos, name)
        }
        Node::Number(_) => Err(not_a_form(tree.pos)),
        Node::Literal(bits) => {
            nodes.add(1, tree.pos)?;
            Ok(Expr::Lit(*bits))
        }
        Node::Group(parts) => {
            let [head, operands @ ..] = parts.as_slice() else {
                return Err(not_a_form(tree.pos));
            };
            let Node::Word(name) = &head.node else {
                return Err(not_a_form(tree.pos));
            };
            read_list(operands, alloc, scope, nodes, tree.pos, head.pos, name)
        }
    }
}

// The same, boxed.
#[cycle(expression)]
fn read_boxed(
    tree: &Tree,
    alloc: Global,
    scope: &NameScope,
    nodes: &mut NodeCount,
) -> Result<Box<Expr>, DocFault>
    requires shallow { length (binder_names scope.now.binders) ≤ limit_number Nodes }
    requires counted { IsWithinNodes nodes.old.counted }
    ensures read { IsRead (λ e. SpellsExpression (scope_of scope.now) (expression_of e.value) (located tree.now))
        (expression_faults (scope_of scope.now) nodes.old.counted (located tree.now)) result }
    ensures counted { OnOk result (nodes.new.counted ≡ counted (expression_count (located tree.now)) nodes.old.counted) }
    ensures within { OnOk result (IsWithinNodes nodes.new.counted) }
{
    let expression = read_expr(tree, alloc, scope, nodes)?;
    Ok(Box::new(alloc, expression)?)
}

// The expression of a list with the name in front, each at its offset.
#[cycle(expression)]
fn read_list(
    operands: &[Tree],
    alloc: Global,
    scope: &NameScope,
    nodes: &mut NodeCount,
    list: Pos,
    head: Pos,
    name: &Name,
) -> Result<Expr, DocFault>
    requires shallow { length (binder_names scope.now.binders) ≤ limit_number Nodes }
    requires counted { IsWithinNodes nodes.old.counted }
    ensures read { IsRead (λ e. SpellsExpression (scope_of scope.now) (expression_of e)
        (group list.0 (tree (word head.0 name.now) (all_located operands.now))))
        (expression_faults (scope_of scope.now) nodes.old.counted
        (group list.0 (tree (word head.0 name.now) (all_located operands.now)))) result }
    ensures counted { OnOk result (nodes.new.counted ≡ counted (suc (operand_count (all_located operands.now))) nodes.old.counted) }
    ensures within { OnOk result (IsWithinNodes nodes.new.counted) }
{
    match name.text() {
        "xor" => {
            let (a, b) = read_two(operands, alloc, scope, nodes, list)?;
            Ok(Expr::Xor(a, b))
        }
        "and" => {
            let (a, b) = read_two(operands, alloc, scope, nodes, list)?;
            Ok(Expr::And(a, b))
        }
        "not" => {
            let a = read_one(operands, alloc, scope, nodes, list)?;
            Ok(Expr::Not(a))
        }
        "cat" => {
            let (a, b) = read_two(operands, alloc, scope, nodes, list)?;
            Ok(Expr::Cat(a, b))
        }
        "cut" => {
            let (from, count, a) = read_cut(operands, alloc, scope, nodes, list)?;
            Ok(Expr::Cut(from, count, a))
        }
        "eq" => {
            let (a, b) = read_two(operands, alloc, scope, nodes, list)?;
            Ok(Expr::Same(a, b))
        }
        "mux" => {
            let (c, a, b) = read_three(operands, alloc, scope, nodes, list)?;
            Ok(Expr::Mux(c, a, b))
        }
        _ => read_application(operands, alloc, scope, nodes, list, head, name),
    }
}

// The application of a symbol of the name.
#[cycle(expression)]
fn read_application(
    operands: &[Tree],
    alloc: Global,
    scope: &NameScope,
    nodes: &mut NodeCount,
    list: Pos,
    head: Pos,
    name: &Name,
) -> Result<Expr, DocFault>
    requires shallow { length (binder_names scope.now.binders) ≤ limit_number Nodes }
    requires counted { IsWithinNodes nodes.old.counted }
    requires other { operator_operands name.now ≡ None }
    ensures read { IsRead (λ e. SpellsExpression (scope_of scope.now) (expression_of e)
        (group list.0 (tree (word head.0 name.now) (all_located operands.now))))
        (expression_faults (scope_of scope.now) nodes.old.counted
        (group list.0 (tree (word head.0 name.now) (all_located operands.now)))) result }
    ensures counted { OnOk result (nodes.new.counted ≡ counted (suc (operand_count (all_located operands.now))) nodes.old.counted) }
    ensures within { OnOk result (IsWithinNodes nodes.new.counted) }
{
    let Some(symbol) = scope.sig.find(name) else {
        return Err(DocFault::Form {
            pos: head,
            cause: FormCause::UnknownName,
        });
    };
    let argument = read_one(operands, alloc, scope, nodes, list)?;
    Ok(Expr::Apply(symbol, argument))
}

// The one expression after a head.
#[cycle(expression)]
#[tactic(auto, using(crate::proofs::Lists::tree_count_located))]
fn read_one(
    operands: &[Tree],
    alloc: Global,
    scope: &NameScope,
    nodes: &mut NodeCount,
    list: Pos,
) -> Result<Box<Expr>, DocFault>
    requires shallow { length (binder_names scope.now.binders) ≤ limit_number Nodes }
    requires counted { IsWithinNodes nodes.old.counted }
    ensures read { IsRead (λ r. (tree_count (all_located operands.now) ≡ 1)
        × SpellsExpression (scope_of scope.now) (expression_of r.value) (tree_at 0 (all_located operands.now)))
        (expression_list_faults (scope_of scope.now) nodes.old.counted list.0 (expression_operand ∷ [])
        (all_located operands.now)) result }
    ensures counted { OnOk result (nodes.new.counted
        ≡ counted (operand_count (all_located operands.now)) (counted 1 nodes.old.counted)) }
    ensures within { OnOk result (IsWithinNodes nodes.new.counted) }
{
    let [a] = operands else {
        return Err(not_a_form(list));
    };
    nodes.add(1, list)?;
    read_boxed(a, alloc, scope, nodes)
}

// The two expressions after a head.
#[cycle(expression)]
#[tactic(auto, using(crate::proofs::Lists::tree_count_located))]
fn read_two(
    operands: &[Tree],
    alloc: Global,
    scope: &NameScope,
    nodes: &mut NodeCount,
    list: Pos,
) -> Result<(Box<Expr>, Box<Expr>), DocFault>
    requires shallow { length (binder_names scope.now.binders) ≤ limit_number Nodes }
    requires counted { IsWithinNodes nodes.old.counted }
    ensures read { IsRead (λ r. (tree_count (all_located operands.now) ≡ 2)
        × SpellsExpression (scope_of scope.now) (expression_of r.0.value) (tree_at 0 (all_located operands.now))
        × SpellsExpression (scope_of scope.now) (expression_of r.1.value) (tree_at 1 (all_located operands.now)))
        (expression_list_faults (scope_of scope.now) nodes.old.counted list.0 (expression_operand ∷ expression_operand ∷ [])
        (all_located operands.now)) result }
    ensures counted { OnOk result (nodes.new.counted
        ≡ counted (operand_count (all_located operands.now)) (counted 1 nodes.old.counted)) }
    ensures within { OnOk result (IsWithinNodes nodes.new.counted) }
{
    let [a, b] = operands else {
        return Err(not_a_form(list));
    };
    nodes.add(1, list)?;
    let a = read_boxed(a, alloc, scope, nodes)?;
    let b = read_boxed(b, alloc, scope, nodes)?;
    Ok((a, b))
}

// The three expressions after a head.
#[cycle(expression)]
#[tactic(auto, using(crate::proofs::Lists::tree_count_located))]
fn read_three(
    operands: &[Tree],
    alloc: Global,
    scope: &NameScope,
    nodes: &mut NodeCount,
    list: Pos,
) -> Result<(Box<Expr>, Box<Expr>, Box<Expr>), DocFault>
    requires shallow { length (binder_names scope.now.binders) ≤ limit_number Nodes }
    requires counted { IsWithinNodes nodes.old.counted }
    ensures read { IsRead (λ r. (tree_count (all_located operands.now) ≡ 3)
        × SpellsExpression (scope_of scope.now) (expression_of r.0.value) (tree_at 0 (all_located operands.now))
        × SpellsExpression (scope_of scope.now) (expression_of r.1.value) (tree_at 1 (all_located operands.now))
        × SpellsExpression (scope_of scope.now) (expression_of r.2.value) (tree_at 2 (all_located operands.now)))
        (expression_list_faults (scope_of scope.now) nodes.old.counted list.0 (expression_operand ∷ expression_operand ∷ expression_operand ∷ [])
        (all_located operands.now)) result }
    ensures counted { OnOk result (nodes.new.counted
        ≡ counted (operand_count (all_located operands.now)) (counted 1 nodes.old.counted)) }
    ensures within { OnOk result (IsWithinNodes nodes.new.counted) }
{
    let [c, a, b] = operands else {
        return Err(not_a_form(list));
    };
    nodes.add(1, list)?;
    let c = read_boxed(c, alloc, scope, nodes)?;
    let a = read_boxed(a, alloc, scope, nodes)?;
    let b = read_boxed(b, alloc, scope, nodes)?;
    Ok((c, a, b))
}

// The two numbers and the expression of a `cut`.
#[cycle(expression)]
#[tactic(auto, using(crate::proofs::Lists::tree_count_located))]
fn read_cut(
    operands: &[Tree],
    alloc: Global,
    scope: &NameScope,
    nodes: &mut NodeCount,
    list: Pos,
) -> Result<(u8, u8, Box<Expr>), DocFault>
    requires shallow { length (binder_names scope.now.binders) ≤ limit_number Nodes }
    requires counted { IsWithinNodes nodes.old.counted }
    ensures read { IsRead (λ r. (tree_count (all_located operands.now) ≡ 3)
        × SpellsWidth r.0 (tree_at 0 (all_located operands.now))
        × SpellsWidth r.1 (tree_at 1 (all_located operands.now))
        × SpellsExpression (scope_of scope.now) (expression_of r.2.value) (tree_at 2 (all_located operands.now)))
        (expression_list_faults (scope_of scope.now) nodes.old.counted list.0 (width_operand ∷ width_operand ∷ expression_operand ∷ [])
        (all_located operands.now)) result }
    ensures counted { OnOk result (nodes.new.counted
        ≡ counted (operand_count (all_located operands.now)) (counted 1 nodes.old.counted)) }
    ensures within { OnOk result (IsWithinNodes nodes.new.counted) }
{
    let [from, count, a] = operands else {
        return Err(not_a_form(list));
    };
    nodes.add(1, list)?;
    let from = read_width(from)?;
    let count = read_width(count)?;
    let a = read_boxed(a, alloc, scope, nodes)?;
    Ok((from, count, a))
}
