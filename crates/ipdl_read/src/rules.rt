//! Rules with their paths and arguments, in reading order.

ghost use Rattle.std.specs.Prelude.{◌≡◌, ℕ, [], ◌∷◌, false, IfOk, OnOk, IfErr};
ghost use Rattle.ipdl_term.specs.Rules.{rule_word, rule_arguments, expression_argument, symbol_argument, number_argument, name_argument, path_argument, width_argument, expression_kind, symbol_kind, number_kind, name_kind, path_kind, width_kind, heading_named};
ghost use Rattle.ipdl_term.specs.Steps.{rule_of};
ghost use Rattle.ipdl_term.specs.Views.{expression_of};
ghost use Rattle.ipdl_tree.specs.Views.{located, all_located};
ghost use Rattle.ipdl_read_terms.specs.Binders.{binder_names};
ghost use Rattle.ipdl_forms.specs.Expressions.{SpellsExpression};
ghost use Rattle.ipdl_forms.specs.Faults.{TellsFirst};
ghost use Rattle.ipdl_forms.specs.Lists.{tree_at, without_first};
ghost use Rattle.ipdl_read.specs.Rules.{asks_more, part_faults, kinds_asked, word_list_faults};
ghost use Rattle.ipdl_read_terms.specs.Binders.{scope_of};
ghost use Rattle.ipdl_forms.specs.Steps.{SpellsPath, SpellsArgument, SpellsArguments, argument_faults, rule_faults};

use ipdl_base::{Name, Path, Pos};
use ipdl_forms::{DocFault, FormCause};
use ipdl_read_terms::{
    NameScope, NodeCount, not_a_form, read_count, read_expr, read_name, read_path, read_width,
    word_of,
};
use ipdl_term::{Expr, Rule, plain_rule};
use ipdl_tree::Tree;
use std::alloc::Global;

// The expression that an argument is.
fn read_argument(tree: &Tree, alloc: Global, scope: &NameScope) -> Result<Expr, DocFault>
    requires alone { binder_names scope.now.binders ≡ [] }
    ensures spelled { IfOk result (λ e. SpellsExpression (scope_of scope.now) (expression_of e) (located tree.now)) }
    ensures clean { OnOk result (argument_faults (scope_of scope.now) expression_kind (located tree.now) ≡ []) }
    ensures first { IfErr result (λ fault. TellsFirst fault (argument_faults (scope_of scope.now) expression_kind (located tree.now))) }
{
    let mut nodes = NodeCount { counted: None };
    read_expr(tree, alloc, scope, &mut nodes)
}

// The number of the symbol that the tree names.
fn read_symbol(tree: &Tree, scope: &NameScope) -> Result<u32, DocFault>
    ensures spelled { IfOk result (λ f. SpellsArgument (scope_of scope.now) (symbol_argument f) (located tree.now)) }
    ensures clean { OnOk result (argument_faults (scope_of scope.now) symbol_kind (located tree.now) ≡ []) }
    ensures first { IfErr result (λ fault. TellsFirst fault (argument_faults (scope_of scope.now) symbol_kind (located tree.now))) }
{
    let name = word_of(tree)?;
    match scope.sig.find(name) {
        Some(symbol) => Ok(symbol),
        None => Err(DocFault::Form {
            pos: tree.pos,
            cause: FormCause::UnknownName,
        }),
    }
}

// The path and the expression of a rule.
#[tactic(auto, using(ipdl_read_terms::proofs::Lists::tree_count_located))]
fn read_with_expr(
    operands: &[Tree],
    alloc: Global,
    scope: &NameScope,
    list: Pos,
) -> Result<(Path, Expr), DocFault>
    requires alone { binder_names scope.now.binders ≡ [] }
    ensures path { IfOk result (λ r. SpellsPath r.0 (tree_at 0 (all_located operands.now))) }
    ensures spelled { IfOk result (λ r. (binders : ℕ) → SpellsArguments (scope_of scope.now) (expression_argument binders (expression_of r.1) ∷ []) (without_first (all_located operands.now))) }
    ensures clean { OnOk result (part_faults (scope_of scope.now) list.0 (expression_kind ∷ []) (all_located operands.now) ≡ []) }
    ensures first { IfErr result (λ fault. TellsFirst fault (part_faults (scope_of scope.now) list.0 (expression_kind ∷ []) (all_located operands.now))) }
{
    let [path, e] = operands else {
        return Err(not_a_form(list));
    };
    let path = read_path(path, alloc)?;
    let e = read_argument(e, alloc, scope)?;
    Ok((path, e))
}

// The path and the symbol of a `perm`.
#[tactic(auto, using(ipdl_read_terms::proofs::Lists::tree_count_located))]
fn read_with_symbol(
    operands: &[Tree],
    alloc: Global,
    scope: &NameScope,
    list: Pos,
) -> Result<(Path, u32), DocFault>
    requires alone { binder_names scope.now.binders ≡ [] }
    ensures path { IfOk result (λ r. SpellsPath r.0 (tree_at 0 (all_located operands.now))) }
    ensures spelled { IfOk result (λ r. SpellsArguments (scope_of scope.now) (symbol_argument r.1 ∷ []) (without_first (all_located operands.now))) }
    ensures clean { OnOk result (part_faults (scope_of scope.now) list.0 (symbol_kind ∷ []) (all_located operands.now) ≡ []) }
    ensures first { IfErr result (λ fault. TellsFirst fault (part_faults (scope_of scope.now) list.0 (symbol_kind ∷ []) (all_located operands.now))) }
{
    let [path, symbol] = operands else {
        return Err(not_a_form(list));
    };
    let path = read_path(path, alloc)?;
    let symbol = read_symbol(symbol, scope)?;
    Ok((path, symbol))
}

// The path and the channel of a `rename`.
#[tactic(auto, using(ipdl_read_terms::proofs::Lists::tree_count_located))]
fn read_with_name(
    operands: &[Tree],
    alloc: Global,
    scope: &NameScope,
    list: Pos,
) -> Result<(Path, Name), DocFault>
    requires alone { binder_names scope.now.binders ≡ [] }
    ensures path { IfOk result (λ r. SpellsPath r.0 (tree_at 0 (all_located operands.now))) }
    ensures spelled { IfOk result (λ r. SpellsArguments (scope_of scope.now) (name_argument r.1 ∷ []) (without_first (all_located operands.now))) }
    ensures clean { OnOk result (part_faults (scope_of scope.now) list.0 (name_kind ∷ []) (all_located operands.now) ≡ []) }
    ensures first { IfErr result (λ fault. TellsFirst fault (part_faults (scope_of scope.now) list.0 (name_kind ∷ []) (all_located operands.now))) }
{
    let [path, name] = operands else {
        return Err(not_a_form(list));
    };
    let path = read_path(path, alloc)?;
    let name = read_name(name, alloc)?;
    Ok((path, name))
}

// The two paths of a rule.
#[tactic(auto, using(ipdl_read_terms::proofs::Lists::tree_count_located))]
fn read_with_path(
    operands: &[Tree],
    alloc: Global,
    scope: &NameScope,
    list: Pos,
) -> Result<(Path, Path), DocFault>
    requires alone { binder_names scope.now.binders ≡ [] }
    ensures path { IfOk result (λ r. SpellsPath r.0 (tree_at 0 (all_located operands.now))) }
    ensures spelled { IfOk result (λ r. SpellsArguments (scope_of scope.now) (path_argument r.1 ∷ []) (without_first (all_located operands.now))) }
    ensures clean { OnOk result (part_faults (scope_of scope.now) list.0 (path_kind ∷ []) (all_located operands.now) ≡ []) }
    ensures first { IfErr result (λ fault. TellsFirst fault (part_faults (scope_of scope.now) list.0 (path_kind ∷ []) (all_located operands.now))) }
{
    let [path, other] = operands else {
        return Err(not_a_form(list));
    };
    let path = read_path(path, alloc)?;
    let other = read_path(other, alloc)?;
    Ok((path, other))
}

// The path, the number and the expression of a `table`.
#[tactic(auto, using(ipdl_read_terms::proofs::Lists::tree_count_located))]
fn read_with_table(
    operands: &[Tree],
    alloc: Global,
    scope: &NameScope,
    list: Pos,
) -> Result<(Path, u32, Expr), DocFault>
    requires alone { binder_names scope.now.binders ≡ [] }
    ensures path { IfOk result (λ r. SpellsPath r.0 (tree_at 0 (all_located operands.now))) }
    ensures spelled { IfOk result (λ r. SpellsArguments (scope_of scope.now) (number_argument r.1 ∷ expression_argument 0 (expression_of r.2) ∷ []) (without_first (all_located operands.now))) }
    ensures clean { OnOk result (part_faults (scope_of scope.now) list.0 (number_kind ∷ expression_kind ∷ []) (all_located operands.now) ≡ []) }
    ensures first { IfErr result (λ fault. TellsFirst fault (part_faults (scope_of scope.now) list.0 (number_kind ∷ expression_kind ∷ []) (all_located operands.now))) }
{
    let [path, count, e] = operands else {
        return Err(not_a_form(list));
    };
    let path = read_path(path, alloc)?;
    let count = read_count(count)?;
    let e = read_argument(e, alloc, scope)?;
    Ok((path, count, e))
}

// The path, the channel and the width of a `subsume`.
#[tactic(auto, using(ipdl_read_terms::proofs::Lists::tree_count_located))]
fn read_with_port(
    operands: &[Tree],
    alloc: Global,
    scope: &NameScope,
    list: Pos,
) -> Result<(Path, Name, u8), DocFault>
    requires alone { binder_names scope.now.binders ≡ [] }
    ensures path { IfOk result (λ r. SpellsPath r.0 (tree_at 0 (all_located operands.now))) }
    ensures spelled { IfOk result (λ r. SpellsArguments (scope_of scope.now) (name_argument r.1 ∷ width_argument r.2 ∷ []) (without_first (all_located operands.now))) }
    ensures clean { OnOk result (part_faults (scope_of scope.now) list.0 (name_kind ∷ width_kind ∷ []) (all_located operands.now) ≡ []) }
    ensures first { IfErr result (λ fault. TellsFirst fault (part_faults (scope_of scope.now) list.0 (name_kind ∷ width_kind ∷ []) (all_located operands.now))) }
{
    let [path, name, width] = operands else {
        return Err(not_a_form(list));
    };
    let path = read_path(path, alloc)?;
    let name = read_name(name, alloc)?;
    let width = read_width(width)?;
    Ok((path, name, width))
}

// The path of a rule that asks for nothing else.
#[tactic(auto, using(ipdl_read_terms::proofs::Lists::tree_count_located))]
fn read_alone(
    operands: &[Tree],
    alloc: Global,
    scope: &NameScope,
    list: Pos,
) -> Result<Path, DocFault>
    ensures path { IfOk result (λ r. SpellsPath r (tree_at 0 (all_located operands.now))) }
    ensures spelled { OnOk result (SpellsArguments (scope_of scope.now) [] (without_first (all_located operands.now))) }
    ensures clean { OnOk result (part_faults (scope_of scope.now) list.0 [] (all_located operands.now) ≡ []) }
    ensures first { IfErr result (λ fault. TellsFirst fault (part_faults (scope_of scope.now) list.0 [] (all_located operands.now))) }
{
    let [path] = operands else {
        return Err(not_a_form(list));
    };
    read_path(path, alloc)
}

// The rule of the word, with its path, after which its arguments stand in the list.
pub(crate) fn read_rule(
    word: &Name,
    operands: &[Tree],
    alloc: Global,
    scope: &NameScope,
    list: Pos,
) -> Result<(Path, Rule), DocFault>
    requires alone { binder_names scope.now.binders ≡ [] }
    ensures word { IfOk result (λ r. rule_word (rule_of r.1) ≡ word.now) }
    ensures path { IfOk result (λ r. SpellsPath r.0 (tree_at 0 (all_located operands.now))) }
    ensures spelled { IfOk result (λ r. SpellsArguments (scope_of scope.now) (rule_arguments (rule_of r.1)) (without_first (all_located operands.now))) }
    ensures clean { OnOk result (rule_faults (scope_of scope.now) list.0 (heading_named word.now) (all_located operands.now) ≡ []) }
    ensures first { IfErr result (λ fault. TellsFirst fault (rule_faults (scope_of scope.now) list.0 (heading_named word.now) (all_located operands.now))) }
{
    read_by_word(word, operands, alloc, scope, list)
}

// The same, by the kinds of arguments that the word asks for.
fn read_by_word(
    word: &Name,
    operands: &[Tree],
    alloc: Global,
    scope: &NameScope,
    list: Pos,
) -> Result<(Path, Rule), DocFault>
    requires alone { binder_names scope.now.binders ≡ [] }
    ensures word { IfOk result (λ r. rule_word (rule_of r.1) ≡ word.now) }
    ensures path { IfOk result (λ r. SpellsPath r.0 (tree_at 0 (all_located operands.now))) }
    ensures spelled { IfOk result (λ r. SpellsArguments (scope_of scope.now) (rule_arguments (rule_of r.1)) (without_first (all_located operands.now))) }
    ensures clean { OnOk result (word_list_faults (scope_of scope.now) list.0 (kinds_asked word.now) (all_located operands.now) ≡ []) }
    ensures first { IfErr result (λ fault. TellsFirst fault (word_list_faults (scope_of scope.now) list.0 (kinds_asked word.now) (all_located operands.now))) }
{
    match word.text() {
        "mask" => {
            let (path, e) = read_with_expr(operands, alloc, scope, list)?;
            Ok((path, Rule::Mask(e)))
        }
        "perm" => {
            let (path, symbol) = read_with_symbol(operands, alloc, scope, list)?;
            Ok((path, Rule::Perm(symbol)))
        }
        "table" => {
            let (path, count, e) = read_with_table(operands, alloc, scope, list)?;
            Ok((path, Rule::Table(count, e)))
        }
        "lin" => {
            let (path, e) = read_with_expr(operands, alloc, scope, list)?;
            Ok((path, Rule::Lin(e)))
        }
        "rename" => {
            let (path, name) = read_with_name(operands, alloc, scope, list)?;
            Ok((path, Rule::Rename(name)))
        }
        "fold" => {
            let (path, other) = read_with_path(operands, alloc, scope, list)?;
            Ok((path, Rule::Fold(other)))
        }
        "subst" => {
            let (path, other) = read_with_path(operands, alloc, scope, list)?;
            Ok((path, Rule::Subst(other)))
        }
        "subsume" => {
            let (path, name, width) = read_with_port(operands, alloc, scope, list)?;
            Ok((path, Rule::Subsume(name, width)))
        }
        _ => read_plain(word, operands, alloc, scope, list),
    }
}

// The rule of a word that asks for a path only.
fn read_plain(
    word: &Name,
    operands: &[Tree],
    alloc: Global,
    scope: &NameScope,
    list: Pos,
) -> Result<(Path, Rule), DocFault>
    requires other { asks_more word.now ≡ false }
    ensures word { IfOk result (λ r. rule_word (rule_of r.1) ≡ word.now) }
    ensures path { IfOk result (λ r. SpellsPath r.0 (tree_at 0 (all_located operands.now))) }
    ensures spelled { IfOk result (λ r. SpellsArguments (scope_of scope.now) (rule_arguments (rule_of r.1)) (without_first (all_located operands.now))) }
    ensures clean { OnOk result (word_list_faults (scope_of scope.now) list.0 (kinds_asked word.now) (all_located operands.now) ≡ []) }
    ensures first { IfErr result (λ fault. TellsFirst fault (word_list_faults (scope_of scope.now) list.0 (kinds_asked word.now) (all_located operands.now))) }
{
    let Some(rule) = plain_rule(word) else {
        return Err(not_a_form(list));
    };
    let path = read_alone(operands, alloc, scope, list)?;
    Ok((path, rule))
}
