//! The variables that occur in a question.

ghost use Rattle.std.specs.Prelude.{◌≡◌, ◌^◌, ◌<◌, length, map, IfOk};
ghost use Rattle.ipdl_term.specs.Surroundings.{condition_of};
ghost use Rattle.ipdl_term.specs.Variables.{expression_uses};
ghost use Rattle.ipdl_term.specs.Views.{expression_of};
ghost use Rattle.ipdl_truth.specs.FreeVariables.{occurs};
ghost use Rattle.ipdl_truth.specs.Questions.{tests_of, expressions_in, free_variables, free_bits};
ghost use Rattle.ipdl_truth.specs.Views.{asked_of};

use crate::question::Question;
use ipdl_base::NoMemory;
use ipdl_term::{Condition, Expr};
use std::alloc::Global;

// Whether the variable of this number occurs in an expression.
fn expr_uses(term: &Expr, number: usize) -> bool
    ensures { result ≡ expression_uses (expression_of term.now) number }
{
    match term {
        Expr::Lit(_) | Expr::Outer(_) => false,
        Expr::Var(n) => *n as usize == number,
        Expr::Apply(_, e) | Expr::Not(e) | Expr::Cut(_, _, e) => expr_uses(e, number),
        Expr::Xor(a, b) | Expr::And(a, b) | Expr::Cat(a, b) | Expr::Same(a, b) => {
            expr_uses(a, number) || expr_uses(b, number)
        }
        Expr::Mux(test, a, b) => {
            expr_uses(test, number) || (expr_uses(a, number) || expr_uses(b, number))
        }
    }
}

fn tests_use(conditions: &[Condition], number: usize) -> bool
    ensures { result ≡ occurs (tests_of (map condition_of conditions.now)) number }
{
    for condition in conditions {
        if expr_uses(&condition.test, number) {
            return true;
        }
    }
    false
}

// Whether it occurs in one of the expressions of a question.
fn is_used(question: &Question, number: usize) -> bool
    ensures { result ≡ occurs (expressions_in (asked_of question.now)) number }
{
    expr_uses(question.left, number)
        || (expr_uses(question.right, number) || tests_use(question.conditions, number))
}

// The sum of the widths of the free variables.
pub(crate) fn free_bits(question: &Question) -> u64
    requires { length question.now.widths.now < 2 ^ 32 }
    ensures { result ≡ free_bits (asked_of question.now) }
{
    let mut bits = 0;
    let mut inside = question.widths.len();
    for width in question.widths {
        inside -= 1;
        if is_used(question, inside) {
            bits += u64::from(*width);
        }
    }
    bits
}

// The free variables: the depth and the width of each, the outermost first.
pub(crate) fn free_variables(alloc: Global, question: &Question) -> Result<Vec<(u32, u8)>, NoMemory>
    requires { length question.now.widths.now < 2 ^ 32 }
    ensures { IfOk result (λ free. free.items ≡ free_variables (asked_of question.now)) }
{
    let mut free = Vec::new(alloc);
    let mut inside = question.widths.len();
    let mut depth = 0u32;
    for width in question.widths {
        inside -= 1;
        if is_used(question, inside) {
            free.push((depth, *width))?;
        }
        depth += 1;
    }
    Ok(free)
}
