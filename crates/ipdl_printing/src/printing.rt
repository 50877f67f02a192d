//! The text of one term alone.

ghost use Rattle.std.specs.Prelude.{[], length, IfOk};
ghost use Rattle.ipdl_printing.specs.Printing.{expression_tree, reaction_tree, protocol_tree, context_tree};
ghost use Rattle.ipdl_term.specs.Within.{IsExpressionWithin, IsReactionWithin, IsProtocolWithin, IsContextWithin};
ghost use Rattle.ipdl_printing.specs.Writes.{WritesTree};
ghost use Rattle.ipdl_term.specs.Views.{expression_of, reaction_of, protocol_of, context_of};

use crate::contexts::push_ctx;
use crate::expressions::push_expr;
use crate::protocols::push_proto;
use crate::reactions::push_react;
use ipdl_base::NoMemory;
use ipdl_sig::Sig;
use ipdl_term::{Ctx, Expr, Proto, React};
use std::alloc::Global;

/// The text of the expression under so many binders. A variable is printed as `x` and the depth of
/// its binder, the outermost one being `x0`, and a symbol by its name. A caller shows that each
/// variable has a binder and each symbol is one of the signature. Where memory runs out, what is
/// written is dropped.
pub fn show_expr(alloc: Global, sig: &Sig, depth: u32, term: &Expr) -> Result<Vec<u8>, NoMemory>
    requires { IsExpressionWithin (length sig.now) depth (expression_of term.now) }
    ensures { IfOk result
        (λ text. WritesTree [] text.items (expression_tree sig.now depth (expression_of term.now))) }
{
    let mut text = Vec::new(alloc);
    push_expr(&mut text, sig, u64::from(depth), term)?;
    Ok(text)
}

/// The text of the reaction under so many binders, as `(bind x0 8 (read a) (ret x0))` under none.
/// The binders of a `bind`'s first part are counted without its own.
pub fn show_react(alloc: Global, sig: &Sig, depth: u32, term: &React) -> Result<Vec<u8>, NoMemory>
    requires { IsReactionWithin (length sig.now) depth (reaction_of term.now) }
    ensures { IfOk result
        (λ text. WritesTree [] text.items (reaction_tree sig.now depth (reaction_of term.now))) }
{
    let mut text = Vec::new(alloc);
    push_react(&mut text, sig, u64::from(depth), term)?;
    Ok(text)
}

/// The text of the protocol. What stands in the right part of a `par` goes on with its parts, as
/// `(par (nil) (nil) (nil))`, and a `new` right in another one with its channels, as
/// `(new ((a 1) (b 2)) (nil))`.
pub fn show_proto(alloc: Global, sig: &Sig, proto: &Proto) -> Result<Vec<u8>, NoMemory>
    requires { IsProtocolWithin (length sig.now) (protocol_of proto.now) }
    ensures { IfOk result
        (λ text. WritesTree [] text.items (protocol_tree sig.now (protocol_of proto.now))) }
{
    let mut text = Vec::new(alloc);
    push_proto(&mut text, sig, proto)?;
    Ok(text)
}

/// The text of the context, with `(hole)` for its hole: that of a protocol otherwise.
pub fn show_ctx(alloc: Global, sig: &Sig, ctx: &Ctx) -> Result<Vec<u8>, NoMemory>
    requires { IsContextWithin (length sig.now) (context_of ctx.now) }
    ensures { IfOk result
        (λ text. WritesTree [] text.items (context_tree sig.now (context_of ctx.now))) }
{
    let mut text = Vec::new(alloc);
    push_ctx(&mut text, sig, ctx)?;
    Ok(text)
}
