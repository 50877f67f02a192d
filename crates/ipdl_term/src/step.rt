//! The rules with their arguments, and the steps of scripts.

use crate::expression::Expr;
use crate::part::Part;
use ipdl_base::{List, Name, Path};

/// The direction of a step: from the left side of a rule or an item to its right side, or back.
#[derive(Clone, Copy)]
pub enum Dir {
    Lr,
    Rl,
}

/// A rule with its arguments. Which terms it relates is said where it is applied.
#[derive(Drop)]
pub enum Rule {
    Beta,
    Eta,
    Assoc,
    Swap,
    Dropr,
    Again,
    Iftrue,
    Iffalse,
    Ifsame,
    Ifbind,
    /// What the bits are masked with.
    Mask(Expr),
    /// The number of the symbol that permutes the bits.
    Perm(u32),
    Join,
    Flip0,
    Tidy,
    /// How many of the innermost conditions are used, and the new expression.
    Table(u32, Expr),
    /// The new expression.
    Lin(Expr),
    Comm,
    Assocl,
    Assocr,
    Unit,
    Newswap,
    Scope,
    /// The new name of the hidden channel.
    Rename(Name),
    Absorb,
    /// Where the hidden channel is read.
    Fold(Path),
    /// Where the channel is read.
    Subst(Path),
    Drop,
    /// The channel that is read besides, and its width.
    Subsume(Name, u8),
    Diverge,
    Shape,
}

/// A step of a script. The path is the place in the current term.
#[derive(Drop)]
pub enum Step {
    /// The rule, from its left side to its right side.
    Plain {
        path: Path,
        rule: Rule,
    },
    /// The rule from its right side to its left side, which is the term.
    Rev {
        path: Path,
        rule: Rule,
        term: Part,
    },
    /// An assumption or an earlier theorem of this name, under the renaming of the pairs.
    Invoke {
        path: Path,
        name: Name,
        dir: Dir,
        pairs: List<(Name, Name)>,
    },
}
