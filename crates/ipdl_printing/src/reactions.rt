//! Pushes the texts of reactions, and counts the binders around.

ghost use Rattle.std.specs.Prelude.{◌≡◌, [], ◌∷◌, length, OnOk};
ghost use Rattle.ipdl_printing.specs.Printing.{binder_name, reaction_tree};
ghost use Rattle.ipdl_printing.specs.Writes.{WritesTree, WritesMore};
ghost use Rattle.ipdl_term.specs.Views.{reaction_of};
ghost use Rattle.ipdl_term.specs.Within.{IsReactionWithin};
ghost use Rattle.ipdl_tree.specs.Trees.{word, number};

use crate::expressions::push_expr_part;
use crate::tokens::{push_binder, push_name_part, push_number_part};
use ipdl_base::NoMemory;
use ipdl_sig::Sig;
use ipdl_term::React;

// The binder at a depth as further parts of a list: its name and its width.
fn push_binder_parts(text: &mut Vec<u8>, depth: u64, width: u8) -> Result<(), NoMemory>
    ensures { OnOk result
        (WritesMore text.old.items text.new.items (word 0 (binder_name depth) ∷ number 0 width ∷ [])) }
{
    text.push(b' ')?;
    push_binder(text, depth)?;
    push_number_part(text, u32::from(width))
}

/// Pushes the text of the reaction under so many binders, as `(bind x0 8 (read a) (ret x0))` under
/// none. The binders of a `bind`'s first part are counted without its own. Memory holds no reaction
/// of 2^64 binders.
#[cycle(reaction)]
pub fn push_react(text: &mut Vec<u8>, sig: &Sig, depth: u64, term: &React) -> Result<(), NoMemory>
    requires { IsReactionWithin (length sig.now) depth (reaction_of term.now) }
    ensures { OnOk result
        (WritesTree text.old.items text.new.items (reaction_tree sig.now depth (reaction_of term.now))) }
{
    match term {
        React::Ret(e) => {
            text.extend_from_slice(b"(ret")?;
            push_expr_part(text, sig, depth, e)?;
            text.push(b')')?;
            Ok(())
        }
        React::Flip(w) => {
            text.extend_from_slice(b"(flip")?;
            push_number_part(text, u32::from(*w))?;
            text.push(b')')?;
            Ok(())
        }
        React::Read(c) => {
            text.extend_from_slice(b"(read")?;
            push_name_part(text, c)?;
            text.push(b')')?;
            Ok(())
        }
        React::Cond(e, r, s) => {
            text.extend_from_slice(b"(if")?;
            push_expr_part(text, sig, depth, e)?;
            push_react_part(text, sig, depth, r)?;
            push_react_part(text, sig, depth, s)?;
            text.push(b')')?;
            Ok(())
        }
        React::Bind(w, r, s) => {
            let Some(under) = depth.checked_add(1) else {
                return Err(NoMemory);
            };
            text.extend_from_slice(b"(bind")?;
            push_binder_parts(text, depth, *w)?;
            push_react_part(text, sig, depth, r)?;
            push_react_part(text, sig, under, s)?;
            text.push(b')')?;
            Ok(())
        }
    }
}

// The reaction as a further part of a list.
#[cycle(reaction)]
pub(crate) fn push_react_part(
    text: &mut Vec<u8>,
    sig: &Sig,
    depth: u64,
    term: &React,
) -> Result<(), NoMemory>
    requires { IsReactionWithin (length sig.now) depth (reaction_of term.now) }
    ensures { OnOk result
        (WritesMore text.old.items text.new.items (reaction_tree sig.now depth (reaction_of term.now) ∷ [])) }
{
    text.push(b' ')?;
    push_react(text, sig, depth, term)
}
