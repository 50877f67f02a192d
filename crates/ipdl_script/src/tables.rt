//! What `table` and `lin` answer at an expression: their own expression, for `table` where so many
//! conditions are around.

ghost use Rattle.std.specs.Prelude.{◌≡◌, ◌≤◌, IfOk, None, Some, length, map, nat_le, reverse};
ghost use Rattle.ipdl_cursor.specs.Views.{part_of};
ghost use Rattle.ipdl_script.specs.Fitting.{WholeFits};
ghost use Rattle.ipdl_script.specs.Instances.{expression_answer, gives};
ghost use Rattle.ipdl_script.specs.Settling.{settled_rule, unsettled_in_arguments};
ghost use Rattle.ipdl_script.specs.Steps.{around_place, limit_test, refused_unless, side_fails};
ghost use Rattle.ipdl_script.specs.TestGroups.{AnswersTest, answer_refusal};
ghost use Rattle.ipdl_script.specs.Views.{setting_of};
ghost use Rattle.ipdl_term.specs.Places.{term_at};
ghost use Rattle.ipdl_term.specs.Rules as R;
ghost use Rattle.ipdl_term.specs.Rules.{rule_arguments};
ghost use Rattle.ipdl_term.specs.Sizes.{expression_nodes, most_nodes};
ghost use Rattle.ipdl_term.specs.Steps.{rule_of};
ghost use Rattle.ipdl_term.specs.Surroundings.{condition_of};
ghost use Rattle.ipdl_term.specs.Terms.{expression_term, protocol_term};
ghost use Rattle.ipdl_term.specs.Variables.{settled_expression, unsettled_in_expression};
ghost use Rattle.ipdl_term.specs.Views.{expression_of, protocol_of, term_of};

use crate::fault::{Cause, StepFault};
use crate::limits::check_limit;
use crate::setting::Setting;
use crate::variables::settled_argument;
use ipdl_base::{Limit, Path};
use ipdl_cursor::{Found, focus};
use ipdl_term::{Expr, Part, Proto, Rule, boxed, expr_nodes};
use std::alloc::Global;

// What is around the place.
pub(crate) fn surroundings<'a>(
    alloc: Global,
    setting: &Setting<'_>,
    before: &'a Proto,
    path: &Path,
) -> Result<Found<'a>, StepFault>
    requires { WholeFits (setting_of setting.now) (protocol_of before.now) }
    ensures test { AnswersTest result None }
    ensures part { IfOk result (λ found.
        term_at (protocol_term (protocol_of before.now)) path.now ≡ Some (part_of found.part)) }
    ensures widths { IfOk result (λ found.
        reverse found.widths ≡ (around_place (setting_of setting.now) (protocol_of before.now) path.now).widths) }
    ensures conditions { IfOk result (λ found. map condition_of found.conditions
        ≡ (around_place (setting_of setting.now) (protocol_of before.now) path.now).conditions) }
{
    match focus(alloc, setting.interface, before, path) {
        Ok(found) => Ok(found),
        Err(_) => Err(StepFault::Memory),
    }
}

// Checks that so many conditions are around the place.
fn check_conditions(
    alloc: Global,
    setting: &Setting<'_>,
    before: &Proto,
    path: &Path,
    wanted: u32,
) -> Result<(), StepFault>
    requires { WholeFits (setting_of setting.now) (protocol_of before.now) }
    ensures { AnswersTest result (refused_unless (nat_le wanted
        (length (around_place (setting_of setting.now) (protocol_of before.now) path.now).conditions)) (side_fails 1)) }
{
    let found = surroundings(alloc, setting, before, path)?;
    if found.conditions.as_slice().len() < wanted as usize {
        Err(StepFault::Refused(Cause::Side(1)))
    } else {
        Ok(())
    }
}

// Checks how many nodes the expression has.
fn check_nodes(e: &Expr) -> Result<(), StepFault>
    ensures { AnswersTest result (limit_test Limit.Nodes most_nodes (expression_nodes (expression_of e.now))) }
{
    check_limit(Limit::Nodes, Limit::Nodes.number(), expr_nodes(e))
}

// The expression settled, as a part.
fn settled_part(alloc: Global, depth: u32, e: &Expr) -> Result<Box<Part>, StepFault>
    requires { unsettled_in_expression depth (expression_of e.now) ≡ None }
    ensures test { AnswersTest result None }
    ensures value { IfOk result (λ part.
        term_of part.value ≡ expression_term (settled_expression depth (expression_of e.now))) }
{
    let settled = settled_argument(alloc, depth, e)?;
    Ok(boxed(alloc, Ok(Part::E(settled)))?)
}

// The right side of `table`.
fn table_side(
    alloc: Global,
    setting: &Setting<'_>,
    before: &Proto,
    path: &Path,
    depth: u32,
    wanted: u32,
    e: &Expr,
) -> Result<Box<Part>, StepFault>
    requires whole { WholeFits (setting_of setting.now) (protocol_of before.now) }
    requires bound { unsettled_in_expression depth (expression_of e.now) ≡ None }
    ensures test { AnswersTest result (answer_refusal (expression_answer
        (around_place (setting_of setting.now) (protocol_of before.now) path.now).conditions
        (settled_rule depth (R.table wanted (expression_of e.now))))) }
    ensures value { IfOk result (λ right. expression_answer
        (around_place (setting_of setting.now) (protocol_of before.now) path.now).conditions
        (settled_rule depth (R.table wanted (expression_of e.now))) ≡ gives (term_of right.value)) }
{
    check_conditions(alloc, setting, before, path, wanted)?;
    check_nodes(e)?;
    settled_part(alloc, depth, e)
}

// The right side of `lin`.
fn lin_side(alloc: Global, depth: u32, e: &Expr) -> Result<Box<Part>, StepFault>
    requires { unsettled_in_expression depth (expression_of e.now) ≡ None }
    ensures test { AnswersTest result (answer_refusal (gives
        (expression_term (settled_expression depth (expression_of e.now))))) }
    ensures value { IfOk result (λ right. gives (expression_term (settled_expression depth (expression_of e.now)))
        ≡ gives (term_of right.value)) }
{
    check_nodes(e)?;
    settled_part(alloc, depth, e)
}

// The right side of the settled rule for whatever expression stands at the place, around which so
// many binders are.
pub(crate) fn expression_side(
    alloc: Global,
    setting: &Setting<'_>,
    before: &Proto,
    path: &Path,
    depth: u32,
    rule: &Rule,
) -> Result<Box<Part>, StepFault>
    requires whole { WholeFits (setting_of setting.now) (protocol_of before.now) }
    requires bound { unsettled_in_arguments depth (rule_arguments (rule_of rule.now)) ≡ None }
    ensures test { AnswersTest result (answer_refusal (expression_answer
        (around_place (setting_of setting.now) (protocol_of before.now) path.now).conditions
        (settled_rule depth (rule_of rule.now)))) }
    ensures value { IfOk result (λ right. expression_answer
        (around_place (setting_of setting.now) (protocol_of before.now) path.now).conditions
        (settled_rule depth (rule_of rule.now)) ≡ gives (term_of right.value)) }
{
    match rule {
        Rule::Table(wanted, e) => table_side(alloc, setting, before, path, depth, *wanted, e),
        Rule::Lin(e) => lin_side(alloc, depth, e),
        _ => Err(StepFault::Refused(Cause::NoMatch)),
    }
}
