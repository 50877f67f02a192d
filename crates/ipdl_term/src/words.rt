//! The words of the rules: the word of a rule, the number of a word, and the rule of a word that
//! takes no arguments.
ghost use Rattle.std.specs.Prelude.{◌≡◌, [], IfSome, is_some, bytes_eq, position};
ghost use Rattle.ipdl_term.specs.Rules.{rule_word, rule_number, rule_arguments, is_plain_word};
ghost use Rattle.ipdl_term.specs.Steps.{rule_of};

use crate::step::Rule;
use ipdl_base::Name;

// The table of all rules in the order of their numbers: whether the rule is `plain`, which takes no
// arguments, or stands `with` some, its variant and its word. It gives the word of a rule, all
// words, or the plain rule of a text.
macro_rules! rule_table {
    ($mode:ident $($value:expr)?) => {
        rule_table!(@$mode $($value)?;
            (plain Beta, "beta"), (plain Eta, "eta"), (plain Assoc, "assoc"), (plain Swap, "swap"),
            (plain Dropr, "dropr"), (plain Again, "again"), (plain Iftrue, "iftrue"),
            (plain Iffalse, "iffalse"), (plain Ifsame, "ifsame"), (plain Ifbind, "ifbind"),
            (with Mask, "mask"), (with Perm, "perm"), (plain Join, "join"), (plain Flip0, "flip0"),
            (plain Tidy, "tidy"), (with Table, "table"), (with Lin, "lin"), (plain Comm, "comm"),
            (plain Assocl, "assocl"), (plain Assocr, "assocr"), (plain Unit, "unit"),
            (plain Newswap, "newswap"), (plain Scope, "scope"), (with Rename, "rename"),
            (plain Absorb, "absorb"), (with Fold, "fold"), (with Subst, "subst"),
            (plain Drop, "drop"), (with Subsume, "subsume"), (plain Diverge, "diverge"),
            (plain Shape, "shape"))
    };
    (@word $rule:expr; $(($kind:ident $variant:ident, $word:literal)),*) => {
        match $rule {
            $(Rule::$variant { .. } => $word,)*
        }
    };
    (@all; $(($kind:ident $variant:ident, $word:literal)),*) => {
        [$($word),*]
    };
    (@plain_of $text:expr; $(($kind:ident $variant:ident, $word:literal)),*) => {
        match $text {
            $($word => rule_table!(@one $kind $variant),)*
            _ => None,
        }
    };
    (@one plain $variant:ident) => {
        Some(Rule::$variant)
    };
    (@one with $variant:ident) => {
        None
    };
}

/// The word of a rule, in small letters.
pub fn rule_word(rule: &Rule) -> &str
    ensures { result.now ≡ rule_word (rule_of rule.now) }
{
    rule_table!(word rule)
}

// Where the text stands first among the words.
fn index_of(words: &[&str], text: &str) -> Option<usize>
    ensures { result ≡ position (λ word. bytes_eq word.now text.now) words.now }
{
    words.iter().position(|word| *word == text)
}

/// The number of the rule of this word, counted from 0 in the order of the rules.
pub fn rule_number(word: &Name) -> Option<u8>
    ensures { result ≡ rule_number word.now }
{
    let words = rule_table!(all);
    let number = index_of(&words, word.text())?;
    Some(number as u8)
}

/// The rule of this word, if it is the word of a rule that takes no arguments.
pub fn plain_rule(word: &Name) -> Option<Rule>
    ensures word { IfSome result (λ rule. rule_word (rule_of rule) ≡ word.now) }
    ensures alone { IfSome result (λ rule. rule_arguments (rule_of rule) ≡ []) }
    ensures plain { is_some result ≡ is_plain_word word.now }
{
    rule_table!(plain_of word.text())
}
