//! Pushes the texts of expressions, with variables named by the depth of their binders.

ghost use Rattle.std.specs.Prelude.{◌≡◌, [], ◌∷◌, length, IsTrue, OnOk};
ghost use Rattle.ipdl_base.specs.Names.{is_name};
ghost use Rattle.ipdl_printing.specs.Printing.{headed, expression_tree};
ghost use Rattle.ipdl_printing.specs.Writes.{WritesTree, WritesMore};
ghost use Rattle.ipdl_term.specs.Views.{expression_of};
ghost use Rattle.ipdl_term.specs.Within.{IsExpressionWithin};

use crate::tokens::{push_binder, push_number_part, push_symbol};
use ipdl_base::NoMemory;
use ipdl_sig::Sig;
use ipdl_term::Expr;
use ipdl_tree::push_literal;

/// Pushes the text of the expression under so many binders. A variable is printed as `x` and the
/// depth of its binder, the outermost one being `x0`, and a symbol by its name. A caller shows that
/// each variable has a binder and each symbol is one of the signature. Where memory runs out, a
/// part of the text may have been pushed.
#[cycle(expression)]
pub fn push_expr(text: &mut Vec<u8>, sig: &Sig, depth: u64, term: &Expr) -> Result<(), NoMemory>
    requires { IsExpressionWithin (length sig.now) depth (expression_of term.now) }
    ensures { OnOk result
        (WritesTree text.old.items text.new.items (expression_tree sig.now depth (expression_of term.now))) }
{
    match term {
        Expr::Lit(bits) => push_literal(text, *bits),
        Expr::Var(n) => push_binder(text, depth - 1 - u64::from(*n)),
        Expr::Outer(n) => push_binder(text, u64::from(*n)),
        Expr::Apply(f, e) => {
            text.push(b'(')?;
            push_symbol(text, sig, *f)?;
            push_expr_part(text, sig, depth, e)?;
            text.push(b')')?;
            Ok(())
        }
        Expr::Xor(a, b) => push_binary(text, sig, depth, "xor", a, b),
        Expr::And(a, b) => push_binary(text, sig, depth, "and", a, b),
        Expr::Not(a) => {
            text.extend_from_slice(b"(not")?;
            push_expr_part(text, sig, depth, a)?;
            text.push(b')')?;
            Ok(())
        }
        Expr::Cat(a, b) => push_binary(text, sig, depth, "cat", a, b),
        Expr::Cut(i, n, a) => {
            text.extend_from_slice(b"(cut")?;
            push_number_part(text, u32::from(*i))?;
            push_number_part(text, u32::from(*n))?;
            push_expr_part(text, sig, depth, a)?;
            text.push(b')')?;
            Ok(())
        }
        Expr::Same(a, b) => push_binary(text, sig, depth, "eq", a, b),
        Expr::Mux(c, a, b) => {
            text.extend_from_slice(b"(mux")?;
            push_expr_part(text, sig, depth, c)?;
            push_expr_part(text, sig, depth, a)?;
            push_expr_part(text, sig, depth, b)?;
            text.push(b')')?;
            Ok(())
        }
    }
}

// The operator with its two operands.
#[cycle(expression)]
fn push_binary(
    text: &mut Vec<u8>,
    sig: &Sig,
    depth: u64,
    operator: &str,
    first: &Expr,
    second: &Expr,
) -> Result<(), NoMemory>
    requires first { IsExpressionWithin (length sig.now) depth (expression_of first.now) }
    requires second { IsExpressionWithin (length sig.now) depth (expression_of second.now) }
    requires operator { IsTrue (is_name operator.now) }
    ensures { OnOk result
        (WritesTree text.old.items text.new.items (headed operator.now (expression_tree sig.now depth (expression_of first.now) ∷ expression_tree sig.now depth (expression_of second.now) ∷ []))) }
{
    text.push(b'(')?;
    text.extend_from_slice(operator.as_bytes())?;
    push_expr_part(text, sig, depth, first)?;
    push_expr_part(text, sig, depth, second)?;
    text.push(b')')?;
    Ok(())
}

// The expression as a further part of a list.
#[cycle(expression)]
pub(crate) fn push_expr_part(
    text: &mut Vec<u8>,
    sig: &Sig,
    depth: u64,
    term: &Expr,
) -> Result<(), NoMemory>
    requires { IsExpressionWithin (length sig.now) depth (expression_of term.now) }
    ensures { OnOk result
        (WritesMore text.old.items text.new.items (expression_tree sig.now depth (expression_of term.now) ∷ [])) }
{
    text.push(b' ')?;
    push_expr(text, sig, depth, term)
}
