//! The marks of steps by rules, in memory of their own.

ghost use Rattle.std.specs.Prelude.{◌≡◌, ℕ, [], ◌∷◌, IfOk};
ghost use Rattle.ipdl_chain.specs.Chains.{by_rule};
ghost use Rattle.ipdl_chain.specs.Views.{IsMarkWithin, mark_of};
ghost use Rattle.ipdl_script.specs.Scripts.{links_of_step};
ghost use Rattle.ipdl_script.specs.Steps.{Setting as PlainSetting};
ghost use Rattle.ipdl_script.specs.Trails.{IsByRule};
ghost use Rattle.ipdl_term.specs.Rules.{rule_word};
ghost use Rattle.ipdl_term.specs.Steps.{direction_of, rule_of, step_of};
ghost use Rattle.ipdl_term.specs.Terms.{Protocol};

use ipdl_base::{Name, NoMemory, Path};
use ipdl_chain::Mark;
use ipdl_term::{Dir, Rule, Step, rule_word};
use std::alloc::Global;

// The word of the rule.
#[tactic(auto, using(crate::proofs::RuleWords::words_are_names))]
fn word_of(alloc: Global, rule: &Rule) -> Result<Name, NoMemory>
    ensures { IfOk result (λ word. word ≡ rule_word (rule_of rule.now)) }
{
    Name::of_text(alloc, rule_word(rule))
}

// The mark of a step by the rule at the place.
fn mark_by(alloc: Global, dir: Dir, rule: &Rule, place: &Path) -> Result<Mark, NoMemory>
    ensures mark { IfOk result (λ mark.
        mark_of mark ≡ by_rule (direction_of dir) (rule_word (rule_of rule.now)) place.now) }
    ensures within { (symbols : ℕ) → IfOk result (λ mark. IsMarkWithin symbols mark) }
{
    let path = Path::from_parts(alloc, place.parts())?;
    let word = word_of(alloc, rule)?;
    Ok(Mark::ByRule { dir, word, path })
}

// The mark of a step by a rule.
pub(crate) fn mark_of_step(alloc: Global, step: &Step) -> Result<Mark, NoMemory>
    requires { IsByRule (step_of step.now) }
    ensures link { (x : PlainSetting) (before after : Protocol) → IfOk result (λ mark.
        links_of_step x before (step_of step.now) after ≡ record { mark = mark_of mark; term = after } ∷ []) }
    ensures within { (symbols : ℕ) → IfOk result (λ mark. IsMarkWithin symbols mark) }
{
    match step {
        Step::Plain { path, rule } => mark_by(alloc, Dir::Lr, rule, path),
        Step::Rev { path, rule, .. } => mark_by(alloc, Dir::Rl, rule, path),
        Step::Invoke { .. } => unreachable!(),
    }
}
