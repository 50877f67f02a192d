//! Which characters are blanks, digits and parts of names, and what a character begins.
ghost use Rattle.std.specs.Prelude.{◌≡◌};
ghost use Rattle.ipdl_base.specs.Names.{starts_name, continues_name};
ghost use Rattle.ipdl_tree.specs.Spelling.{is_blank, ends_token};
ghost use Rattle.ipdl_tree.specs.Characters.{is_digit, beginning_of};

use unicode_ident::{is_xid_continue, is_xid_start};

// What a character begins where no token is open.
#[derive(Clone, Copy)]
pub(crate) enum Beginning {
    Blank,
    Comment,
    Opening,
    Closing,
    Number,
    Literal,
    Word,
    Nothing,
}

// Whether the character is space, tab, line feed or carriage return.
fn is_blank(c: char) -> bool
    ensures { result ≡ is_blank c }
{
    c == ' ' || c == '\t' || c == '\n' || c == '\r'
}

pub(crate) fn is_digit(c: char) -> bool
    ensures { result ≡ is_digit c }
{
    c >= '0' && c <= '9'
}

pub(crate) fn starts_name(c: char) -> bool
    ensures { result ≡ starts_name c }
{
    is_xid_start(c) || c == '_'
}

pub(crate) fn continues_name(c: char) -> bool
    ensures { result ≡ continues_name c }
{
    is_xid_continue(c)
}

pub(crate) fn ends_token(c: char) -> bool
    ensures { result ≡ ends_token c }
{
    is_blank(c) || c == '(' || c == ')' || c == ';'
}

pub(crate) fn beginning_of(c: char) -> Beginning
    ensures { result ≡ beginning_of c }
{
    if is_blank(c) {
        Beginning::Blank
    } else if c == ';' {
        Beginning::Comment
    } else if c == '(' {
        Beginning::Opening
    } else if c == ')' {
        Beginning::Closing
    } else if is_digit(c) {
        Beginning::Number
    } else if c == '#' {
        Beginning::Literal
    } else if starts_name(c) {
        Beginning::Word
    } else {
        Beginning::Nothing
    }
}
