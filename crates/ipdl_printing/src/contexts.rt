//! Pushes the texts of contexts, with `(hole)` for the hole.

ghost use Rattle.std.specs.Prelude.{◌≡◌, [], ◌∷◌, length, OnOk};
ghost use Rattle.ipdl_printing.specs.Printing.{port_tree, printed_context, context_tree};
ghost use Rattle.ipdl_printing.specs.Writes.{WritesTree, WritesMore};
ghost use Rattle.ipdl_term.specs.Views.{context_of};
ghost use Rattle.ipdl_term.specs.Within.{IsContextWithin};
ghost use Rattle.ipdl_tree.specs.Trees.{group};
ghost use Rattle.ipdl_tree.specs.Views.{forest};

use crate::protocols::{push_parts, push_port, push_proto};
use ipdl_base::{Name, NoMemory};
use ipdl_sig::Sig;
use ipdl_term::Ctx;

// The ports of the `new` that the context is, after another port.
fn push_ctx_ports(text: &mut Vec<u8>, sig: &Sig, ctx: &Ctx) -> Result<(), NoMemory>
    ensures { OnOk result
        (WritesMore text.old.items text.new.items (printed_context sig.now (context_of ctx.now)).ports) }
{
    match ctx {
        Ctx::Hole | Ctx::Left(_, _) | Ctx::Right(_, _) => Ok(()),
        Ctx::Hide(channel, width, rest) => {
            text.push(b' ')?;
            push_port(text, channel, *width)?;
            push_ctx_ports(text, sig, rest)
        }
    }
}

// The list of the ports of a `new`: this one, and those of the `new` that stands right in it.
fn push_ctx_port_list(
    text: &mut Vec<u8>,
    sig: &Sig,
    channel: &Name,
    width: u8,
    inner: &Ctx,
) -> Result<(), NoMemory>
    ensures { OnOk result
        (WritesTree text.old.items text.new.items (group 0 (forest (port_tree channel.now width ∷ (printed_context sig.now (context_of inner.now)).ports)))) }
{
    text.push(b'(')?;
    push_port(text, channel, width)?;
    push_ctx_ports(text, sig, inner)?;
    text.push(b')')?;
    Ok(())
}

/// Pushes the text of the context, with `(hole)` for its hole: that of a protocol otherwise. Where
/// memory runs out, a part of the text may have been pushed.
#[cycle(context)]
pub fn push_ctx(text: &mut Vec<u8>, sig: &Sig, ctx: &Ctx) -> Result<(), NoMemory>
    requires { IsContextWithin (length sig.now) (context_of ctx.now) }
    ensures { OnOk result
        (WritesTree text.old.items text.new.items (context_tree sig.now (context_of ctx.now))) }
{
    match ctx {
        Ctx::Hole => {
            text.extend_from_slice(b"(hole)")?;
            Ok(())
        }
        Ctx::Left(inner, q) => {
            text.extend_from_slice(b"(par ")?;
            push_ctx(text, sig, inner)?;
            push_parts(text, sig, q)?;
            text.push(b')')?;
            Ok(())
        }
        Ctx::Right(p, inner) => {
            text.extend_from_slice(b"(par ")?;
            push_proto(text, sig, p)?;
            push_ctx_parts(text, sig, inner)?;
            text.push(b')')?;
            Ok(())
        }
        Ctx::Hide(c, w, inner) => {
            text.extend_from_slice(b"(new ")?;
            push_ctx_port_list(text, sig, c, *w, inner)?;
            push_ctx_body(text, sig, inner)?;
            text.push(b')')?;
            Ok(())
        }
    }
}

// The context as the further parts of a `par`.
#[cycle(context)]
fn push_ctx_parts(text: &mut Vec<u8>, sig: &Sig, ctx: &Ctx) -> Result<(), NoMemory>
    requires { IsContextWithin (length sig.now) (context_of ctx.now) }
    ensures { OnOk result
        (WritesMore text.old.items text.new.items (printed_context sig.now (context_of ctx.now)).parts) }
{
    text.push(b' ')?;
    match ctx {
        Ctx::Hole | Ctx::Hide(_, _, _) => push_ctx(text, sig, ctx),
        Ctx::Left(inner, q) => {
            push_ctx(text, sig, inner)?;
            push_parts(text, sig, q)
        }
        Ctx::Right(p, inner) => {
            push_proto(text, sig, p)?;
            push_ctx_parts(text, sig, inner)
        }
    }
}

// What stands in the `new` that the context is, or else the context, as a further part of a list.
#[cycle(context)]
fn push_ctx_body(text: &mut Vec<u8>, sig: &Sig, ctx: &Ctx) -> Result<(), NoMemory>
    requires { IsContextWithin (length sig.now) (context_of ctx.now) }
    ensures { OnOk result
        (WritesMore text.old.items text.new.items ((printed_context sig.now (context_of ctx.now)).body ∷ [])) }
{
    match ctx {
        Ctx::Hide(_, _, inner) => push_ctx_body(text, sig, inner),
        Ctx::Hole | Ctx::Left(_, _) | Ctx::Right(_, _) => {
            text.push(b' ')?;
            push_ctx(text, sig, ctx)
        }
    }
}
