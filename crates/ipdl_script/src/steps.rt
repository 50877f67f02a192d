//! Laws of steps: the relation against the tests, one result, which refusal is told, and what the
//! neighbours mean that a step gives.

ghost use Rattle.std.specs.Prelude.{◌≡◌, ◌↔◌, ◌∷◌, ◌++◌, List, Option, None, Some};
ghost use Rattle.ipdl_chain.specs.Chains.{EachTwo, last_of};
ghost use Rattle.ipdl_rules_r.specs.Tables.{TablesAreWhole};
ghost use Rattle.ipdl_script.specs.Meanings.{IsMarked, LemmasMean};
ghost use Rattle.ipdl_script.specs.Scripts.{links_of_step};
ghost use Rattle.ipdl_script.specs.Steps.{AllPass, IsStep, Refusal, Setting, after_step, assumed_in, step_refusal, step_tests};
ghost use Rattle.ipdl_script.specs.Trails.{IsByRule};
ghost use Rattle.ipdl_term.specs.Steps.{Step};
ghost use Rattle.ipdl_term.specs.Terms.{Protocol};
ghost use Rattle.ipdl_term.specs.Typing.{HasInterface};
ghost use Rattle.ipdl_uses.specs.Meanings.{ChainMeans};

/// A step leads from one whole term to another exactly where no test refuses it and the other term
/// is what it then makes of the one.
pub fn step_exactly()
    ensures { (x : Setting) (before : Protocol) (step : Step) (after : Protocol) →
        IsStep x before step after ↔
        ((step_refusal x before step ≡ None) × (after_step x before step ≡ after)) }
{}

/// A step leads from a whole term to one other at most.
pub fn one_result()
    ensures { (x : Setting) (before : Protocol) (step : Step) (after other : Protocol) →
        IsStep x before step after → IsStep x before step other → after ≡ other }
{}

/// The refusal that is told is that of the first test that does not pass.
pub fn first_refusal_is_told()
    ensures { (x : Setting) (before : Protocol) (step : Step) (refusal : Refusal) →
        step_refusal x before step ≡ Some refusal →
        (passed : List (Option Refusal)) × (later : List (Option Refusal)) × AllPass passed ×
        (step_tests x before step ≡ passed ++ Some refusal ∷ later) }
{}

/// The neighbours of a step by a rule have the sides of the rule of their mark, at its place and in
/// its direction.
pub fn step_is_marked()
    ensures { (x : Setting) (before : Protocol) (step : Step) (after : Protocol) → IsByRule step →
        IsStep x before step after → EachTwo (IsMarked x) before (links_of_step x before step after) }
{}

/// The neighbours that a step gives from a whole term of the theorem's interface mean what their
/// marks say, where each table has a value for each argument and all that may be used means what it
/// says. They lead to the term to which the step leads.
pub fn step_means()
    ensures means { (x : Setting) → TablesAreWhole x.sig → LemmasMean x →
        (before : Protocol) (step : Step) (after : Protocol) →
        HasInterface x.sig x.interface before → IsStep x before step after →
        ChainMeans x.sig x.interface (assumed_in x)
        (record { first = before; links = links_of_step x before step after }) }
    ensures leads { (x : Setting) (before : Protocol) (step : Step) (after : Protocol) →
        IsStep x before step after → last_of before (links_of_step x before step after) ≡ after }
{}
