//! Steps of scripts, in reading order.

ghost use Rattle.std.specs.Prelude.{◌≡◌, ◌+◌, ◌≤◌, [], false, Some, length, map, IfOk, OnOk, IfErr};
ghost use Rattle.ipdl_base.specs.Limits.{limit_number};
ghost use Rattle.ipdl_base.specs.declared.limit.Limit.TheVariants.{Steps};
ghost use Rattle.ipdl_term.specs.Views.{term_of};
ghost use Rattle.ipdl_tree.specs.Trees.{Located, offset_of};
ghost use Rattle.ipdl_tree.specs.Views.{located, all_located};
ghost use Rattle.ipdl_read_terms.specs.Binders.{binder_names};
ghost use Rattle.ipdl_term.specs.Rules.{at_reactions, at_protocols, row_of, rule_word, heading_of, heading_named};
ghost use Rattle.ipdl_term.specs.Steps.{step_of, rule_of};
ghost use Rattle.ipdl_read.specs.Earlier.{earlier_of};
ghost use Rattle.ipdl_forms.specs.Faults.{TellsFirst};
ghost use Rattle.ipdl_forms.specs.Lists.{tree_count, head_of, operands};
ghost use Rattle.ipdl_read.specs.Rules.{SpellsReversed, is_expression_word, is_at_reactions};
ghost use Rattle.ipdl_forms.specs.Scopes.{NameScope as Names};
ghost use Rattle.ipdl_forms.specs.Protocols.{protocol_faults};
ghost use Rattle.ipdl_forms.specs.Reactions.{reaction_faults};
ghost use Rattle.ipdl_read_terms.specs.Binders.{scope_of};
ghost use Rattle.ipdl_read_terms.specs.Outcomes.{IsRead};
ghost use Rattle.ipdl_forms.specs.Steps.{AreSteps, SpellsStep, SpellsSide, SpellsTerm, reversed_faults, term_faults, rev_faults, headed_step_faults, step_faults, all_step_faults, side_faults, first_name};

use crate::earlier::Earlier;
use crate::rules::read_rule;
use crate::uses::read_use;
use ipdl_base::{Limit, List, Name, Pos};
use ipdl_forms::DocFault;
use ipdl_read_terms::{
    Binders, NameScope, NodeCount, headed_list, not_a_form, parts_after, read_proto, read_react,
};
use ipdl_term::{Part, Rule, Step};
use ipdl_tree::Tree;
use std::alloc::Global;

// Whether the word is that of a rule at expressions, which has no step backwards.
fn is_expression_word(word: &Name) -> bool
    ensures { result ≡ is_expression_word word.now }
{
    match word.text() {
        "table" | "lin" => true,
        _ => false,
    }
}

// Whether the rule changes reactions.
fn is_at_reactions(rule: &Rule) -> bool
    ensures { result ≡ is_at_reactions (row_of (rule_of rule.now)).kind }
{
    match rule {
        Rule::Beta
        | Rule::Eta
        | Rule::Assoc
        | Rule::Swap
        | Rule::Dropr
        | Rule::Again
        | Rule::Iftrue
        | Rule::Iffalse
        | Rule::Ifsame
        | Rule::Ifbind
        | Rule::Mask(_)
        | Rule::Perm(_)
        | Rule::Join
        | Rule::Flip0
        | Rule::Tidy => true,
        _ => false,
    }
}

// The word and the parts of the list of a rule that is none at expressions.
fn reversible_list(tree: &Tree) -> Result<(&Name, &[Tree]), DocFault>
    ensures head { IfOk result (λ r. head_of (located tree.now) ≡ Some r.0.now) }
    ensures operands { IfOk result (λ r. operands (located tree.now) ≡ all_located r.1.now) }
    ensures offset { OnOk result (offset_of (located tree.now) ≡ tree.now.pos.0) }
    ensures other { IfOk result (λ r. is_expression_word r.0.now ≡ false) }
    ensures first { IfErr result (λ fault. (scope : Names) → TellsFirst fault
        (reversed_faults scope (heading_named (first_name (located tree.now))) (located tree.now))) }
{
    let (word, parts) = headed_list(tree)?;
    if is_expression_word(word) {
        return Err(not_a_form(tree.pos));
    }
    Ok((word, parts))
}

// The reaction that a step backwards leads to.
fn read_reaction(tree: &Tree, alloc: Global, scope: &NameScope) -> Result<Part, DocFault>
    requires alone { binder_names scope.now.binders ≡ [] }
    ensures { IsRead (λ part. SpellsTerm (scope_of scope.now) at_reactions (term_of part) (located tree.now))
        (reaction_faults (scope_of scope.now) (Some 0) (located tree.now)) result }
{
    let mut nodes = NodeCount { counted: Some(0) };
    let reaction = read_react(tree, alloc, scope, &mut nodes)?;
    Ok(Part::R(reaction))
}

// The protocol that a step backwards leads to.
fn read_protocol(tree: &Tree, alloc: Global, scope: &NameScope) -> Result<Part, DocFault>
    requires alone { binder_names scope.now.binders ≡ [] }
    ensures { IsRead (λ part. SpellsTerm (scope_of scope.now) at_protocols (term_of part) (located tree.now))
        (protocol_faults (scope_of scope.now) (Some 0) (located tree.now)) result }
{
    let mut nodes = NodeCount { counted: Some(0) };
    let protocol = read_proto(tree, alloc, scope, &mut nodes)?;
    Ok(Part::P(protocol))
}

// The term that a step backwards by the rule leads to.
fn read_term(tree: &Tree, alloc: Global, scope: &NameScope, rule: &Rule) -> Result<Part, DocFault>
    requires alone { binder_names scope.now.binders ≡ [] }
    requires other { is_expression_word (rule_word (rule_of rule.now)) ≡ false }
    ensures { IsRead (λ part. SpellsTerm (scope_of scope.now) (row_of (rule_of rule.now)).kind (term_of part) (located tree.now))
        (term_faults (scope_of scope.now) (Some (heading_of (rule_of rule.now))) (located tree.now)) result }
{
    if is_at_reactions(rule) {
        return read_reaction(tree, alloc, scope);
    }
    read_protocol(tree, alloc, scope)
}

// The step that the parts after `rev` spell.
#[tactic(auto, using(ipdl_read_terms::proofs::Lists::tree_count_located))]
fn read_rev(
    operands: &[Tree],
    alloc: Global,
    scope: &NameScope,
    list: Pos,
) -> Result<Step, DocFault>
    requires alone { binder_names scope.now.binders ≡ [] }
    ensures spelled { IfOk result (λ step. SpellsReversed (scope_of scope.now) (step_of step) (all_located operands.now)) }
    ensures clean { OnOk result (rev_faults (scope_of scope.now) list.0 (all_located operands.now) ≡ []) }
    ensures first { IfErr result (λ fault. TellsFirst fault
        (rev_faults (scope_of scope.now) list.0 (all_located operands.now))) }
{
    let [inner, term] = operands else {
        return Err(not_a_form(list));
    };
    let (word, parts) = reversible_list(inner)?;
    let (path, rule) = read_rule(word, parts, alloc, scope, inner.pos)?;
    let term = read_term(term, alloc, scope, &rule)?;
    Ok(Step::Rev { path, rule, term })
}

// The step of a list with the word in front.
fn read_listed(
    word: &Name,
    parts: &[Tree],
    alloc: Global,
    earlier: &Earlier,
    list: Pos,
) -> Result<Step, DocFault>
    ensures spelled { IfOk result (λ step. (t : Located) → head_of t ≡ Some word.now → operands t ≡ all_located parts.now
        → SpellsStep (earlier_of earlier.now) (step_of step) t) }
    ensures clean { OnOk result (headed_step_faults (earlier_of earlier.now) list.0 word.now (all_located parts.now) ≡ []) }
    ensures first { IfErr result (λ fault. TellsFirst fault
        (headed_step_faults (earlier_of earlier.now) list.0 word.now (all_located parts.now))) }
{
    let scope = NameScope {
        sig: earlier.sig,
        binders: Binders::Outermost,
        in_step: true,
    };
    match word.text() {
        "rev" => read_rev(parts, alloc, &scope, list),
        "use" => read_use(parts, alloc, earlier, list),
        _ => {
            let (path, rule) = read_rule(word, parts, alloc, &scope, list)?;
            Ok(Step::Plain { path, rule })
        }
    }
}

// The step that the tree spells.
fn read_step(tree: &Tree, alloc: Global, earlier: &Earlier) -> Result<Step, DocFault>
    ensures spelled { IfOk result (λ step. SpellsStep (earlier_of earlier.now) (step_of step) (located tree.now)) }
    ensures clean { OnOk result (step_faults (earlier_of earlier.now) (located tree.now) ≡ []) }
    ensures first { IfErr result (λ fault. TellsFirst fault (step_faults (earlier_of earlier.now) (located tree.now))) }
{
    let (word, parts) = headed_list(tree)?;
    read_listed(word, parts, alloc, earlier, tree.pos)
}

// The steps that the trees spell, so many steps of the theorem being read before.
fn read_steps(
    parts: &[Tree],
    alloc: Global,
    earlier: &Earlier,
    before: usize,
) -> Result<List<Step>, DocFault>
    requires few { before ≤ limit_number Steps }
    ensures spelled { IfOk result (λ steps. AreSteps (earlier_of earlier.now) (map step_of steps) (all_located parts.now)) }
    ensures count { IfOk result (λ steps. length steps ≡ tree_count (all_located parts.now)) }
    ensures few { IfOk result (λ steps. before + length steps ≤ limit_number Steps) }
    ensures clean { OnOk result (all_step_faults (earlier_of earlier.now) before (all_located parts.now) ≡ []) }
    ensures first { IfErr result (λ fault. TellsFirst fault
        (all_step_faults (earlier_of earlier.now) before (all_located parts.now))) }
{
    let mut steps = List::empty(alloc);
    let mut count = before;
    for part in parts {
        if count as u64 >= Limit::Steps.number() {
            return Err(DocFault::Over {
                limit: Limit::Steps,
                pos: part.pos,
            });
        }
        count += 1;
        steps.push(read_step(part, alloc, earlier)?)?;
    }
    Ok(steps)
}

// The steps of the side of a theorem whose list begins with the word, so many steps of the theorem
// being read before.
pub(crate) fn read_side(
    tree: &Tree,
    alloc: Global,
    earlier: &Earlier,
    side: &str,
    before: usize,
) -> Result<List<Step>, DocFault>
    requires few { before ≤ limit_number Steps }
    ensures spelled { IfOk result (λ steps.
        SpellsSide (earlier_of earlier.now) side.now (map step_of steps) (located tree.now)) }
    ensures count { IfOk result (λ steps. length steps ≡ tree_count (operands (located tree.now))) }
    ensures few { IfOk result (λ steps. before + length steps ≤ limit_number Steps) }
    ensures clean { OnOk result (side_faults (earlier_of earlier.now) side.now before (located tree.now) ≡ []) }
    ensures first { IfErr result (λ fault. TellsFirst fault
        (side_faults (earlier_of earlier.now) side.now before (located tree.now))) }
{
    let parts = parts_after(tree, side)?;
    read_steps(parts, alloc, earlier, before)
}
