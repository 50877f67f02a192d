//! The law of the steps that the calls take: what is read fits.

ghost use Rattle.std.specs.Prelude.{◌≤◌, ℕ, List};
ghost use Rattle.ipdl_script.specs.Fitting.{AreArgumentsWithin, IsTermWithin, StepFits};
ghost use Rattle.ipdl_term.specs.Rules.{Rule, rule_arguments};
ghost use Rattle.ipdl_term.specs.Sizes.{most_nodes, term_nodes};
ghost use Rattle.ipdl_term.specs.Steps.{plain, rev};
ghost use Rattle.ipdl_term.specs.Terms.{Term};

/// A step fits whose arguments bind their own variables. For a step backwards the term that is
/// written out is to do so too, and is not to be too large.
pub fn small_step_fits()
    ensures forward { (symbols : ℕ) (place : List ℕ) (rule : Rule) →
        AreArgumentsWithin symbols (rule_arguments rule) → StepFits (plain place rule) }
    ensures backward { (symbols : ℕ) (place : List ℕ) (rule : Rule) (term : Term) →
        AreArgumentsWithin symbols (rule_arguments rule) →
        term_nodes term ≤ most_nodes → IsTermWithin symbols term →
        StepFits (rev place rule term) }
{}
