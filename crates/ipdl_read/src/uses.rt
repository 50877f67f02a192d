//! The use of an assumption or a theorem, in reading order.

ghost use Rattle.std.specs.Prelude.{◌≡◌, [], true, false, Some, IfOk, OnOk, IfErr};
ghost use Rattle.ipdl_tree.specs.Views.{located, all_located};
ghost use Rattle.ipdl_term.specs.Steps.{step_of, direction_of};
ghost use Rattle.ipdl_forms.specs.Earlier.{statement_names};
ghost use Rattle.ipdl_read.specs.Earlier.{earlier_of};
ghost use Rattle.ipdl_forms.specs.Faults.{TellsFirst};
ghost use Rattle.ipdl_forms.specs.Lists.{tree_count, tree_at, word_in, is_among};
ghost use Rattle.ipdl_read.specs.Uses.{two_name_faults, SpellsUse, SpellsPair};
ghost use Rattle.ipdl_forms.specs.Steps.{ArePairs, direction_word, direction_faults, declared_faults, pair_faults, all_pair_faults, use_faults};

use crate::earlier::{Earlier, has_statement};
use crate::names::read_new_name;
use crate::seen::Seen;
use ipdl_base::{List, Name, Pos};
use ipdl_forms::{DocFault, FormCause, Item};
use ipdl_read_terms::{list_parts, not_a_form, read_name, read_path, word_of};
use ipdl_term::{Dir, Step};
use ipdl_tree::{Node, Tree};
use std::alloc::Global;

// The name of an earlier assumption or theorem.
fn read_statement(tree: &Tree, alloc: Global, items: &[Item]) -> Result<Name, DocFault>
    ensures word { IfOk result (λ name. word_in (located tree.now) ≡ Some name) }
    ensures declared { IfOk result (λ name. is_among (statement_names items.now) name ≡ true) }
    ensures clean { OnOk result (declared_faults (statement_names items.now) (located tree.now) ≡ []) }
    ensures first { IfErr result (λ fault. TellsFirst fault (declared_faults (statement_names items.now) (located tree.now))) }
{
    let name = word_of(tree)?;
    if !has_statement(items, name) {
        return Err(DocFault::Form {
            pos: tree.pos,
            cause: FormCause::UnknownName,
        });
    }
    Ok(name.copy(alloc)?)
}

// The direction that the tree tells.
fn read_dir(tree: &Tree) -> Result<Dir, DocFault>
    ensures word { IfOk result (λ dir. word_in (located tree.now) ≡ Some (direction_word (direction_of dir))) }
    ensures clean { OnOk result (direction_faults (located tree.now) ≡ []) }
    ensures first { IfErr result (λ fault. TellsFirst fault (direction_faults (located tree.now))) }
{
    let Node::Word(name) = &tree.node else {
        return Err(not_a_form(tree.pos));
    };
    match name.text() {
        "lr" => Ok(Dir::Lr),
        "rl" => Ok(Dir::Rl),
        _ => Err(not_a_form(tree.pos)),
    }
}

// The pair of two parts of a list, whose first name was not seen.
#[tactic(auto, using(ipdl_read_terms::proofs::Lists::tree_count_located))]
fn read_two(parts: &[Tree], alloc: Global, seen: &Seen, list: Pos) -> Result<(Name, Name), DocFault>
    ensures count { OnOk result (tree_count (all_located parts.now) ≡ 2) }
    ensures from { IfOk result (λ pair. word_in (tree_at 0 (all_located parts.now)) ≡ Some pair.0) }
    ensures new { IfOk result (λ pair. is_among seen.now pair.0 ≡ false) }
    ensures to { IfOk result (λ pair. word_in (tree_at 1 (all_located parts.now)) ≡ Some pair.1) }
    ensures clean { OnOk result (two_name_faults seen.now list.0 (all_located parts.now) ≡ []) }
    ensures first { IfErr result (λ fault. TellsFirst fault (two_name_faults seen.now list.0 (all_located parts.now))) }
{
    let [from, to] = parts else {
        return Err(not_a_form(list));
    };
    let from = read_new_name(from, alloc, seen)?;
    let to = read_name(to, alloc)?;
    Ok((from, to))
}

// A pair whose first name was not seen.
fn read_pair(tree: &Tree, alloc: Global, seen: &Seen) -> Result<(Name, Name), DocFault>
    ensures spelled { IfOk result (λ pair. SpellsPair seen.now pair (located tree.now)) }
    ensures clean { OnOk result (pair_faults seen.now (located tree.now) ≡ []) }
    ensures first { IfErr result (λ fault. TellsFirst fault (pair_faults seen.now (located tree.now))) }
{
    let parts = list_parts(tree)?;
    read_two(parts, alloc, seen, tree.pos)
}

// The pairs that the trees spell, of which no two have one first name.
fn read_pairs(parts: &[Tree], alloc: Global) -> Result<List<(Name, Name)>, DocFault>
    ensures spelled { IfOk result (λ pairs. ArePairs [] pairs (all_located parts.now)) }
    ensures clean { OnOk result (all_pair_faults [] (all_located parts.now) ≡ []) }
    ensures first { IfErr result (λ fault. TellsFirst fault (all_pair_faults [] (all_located parts.now))) }
{
    let mut seen = Seen::empty(alloc);
    let mut pairs = List::empty(alloc);
    for part in parts {
        let pair = read_pair(part, alloc, &seen)?;
        seen.add(pair.0.copy(alloc)?)?;
        pairs.push(pair)?;
    }
    Ok(pairs)
}

// The step that the parts after `use` spell.
#[tactic(auto, using(ipdl_read_terms::proofs::Lists::tree_count_located))]
pub(crate) fn read_use(
    operands: &[Tree],
    alloc: Global,
    earlier: &Earlier,
    list: Pos,
) -> Result<Step, DocFault>
    ensures spelled { IfOk result (λ step. SpellsUse (earlier_of earlier.now) (step_of step) (all_located operands.now)) }
    ensures clean { OnOk result (use_faults (earlier_of earlier.now) list.0 (all_located operands.now) ≡ []) }
    ensures first { IfErr result (λ fault. TellsFirst fault
        (use_faults (earlier_of earlier.now) list.0 (all_located operands.now))) }
{
    let [name, path, dir, pairs] = operands else {
        return Err(not_a_form(list));
    };
    let name = read_statement(name, alloc, earlier.items)?;
    let path = read_path(path, alloc)?;
    let dir = read_dir(dir)?;
    let parts = list_parts(pairs)?;
    let pairs = read_pairs(parts, alloc)?;
    Ok(Step::Invoke {
        path,
        name,
        dir,
        pairs,
    })
}
