//! Laws of terms and rules. The functions do nothing, and their contracts are the laws: a typed
//! term has no symbol that is not there and no variable without a binder, and a rule is found by
//! its word and known by its word and arguments.
ghost use Rattle.std.specs.Prelude.{◌≡◌, ℕ, List, Some, length};
ghost use Rattle.ipdl_term.specs.Terms.{Expression, Reaction, Protocol};
ghost use Rattle.ipdl_term.specs.Interpretations.{Signature};
ghost use Rattle.ipdl_term.specs.Typing.{Scope, HasWidth, GivesWidth, IsTyped};
ghost use Rattle.ipdl_term.specs.Within.{IsExpressionWithin, IsReactionWithin, IsProtocolWithin};
ghost use Rattle.ipdl_term.specs.Rules.{Rule, rule_word, rule_arguments, heading_of, heading_named};

/// The symbols of a typed term are those of the signature, and each of its variables has a binder.
pub fn typed_is_within()
    ensures expression { (sig : Signature) (widths : List ℕ) (e : Expression) (w : ℕ) →
        HasWidth sig widths e w → IsExpressionWithin (length sig) (length widths) e }
    ensures reaction { (sig : Signature) (scope : Scope) (widths : List ℕ) (r : Reaction) (w : ℕ) →
        GivesWidth sig scope widths r w → IsReactionWithin (length sig) (length widths) r }
    ensures protocol { (sig : Signature) (scope : Scope) (p : Protocol) →
        IsTyped sig scope p → IsProtocolWithin (length sig) p }
{}

/// The word of a rule has the rule's heading.
pub fn heading_of_word()
    ensures { (rule : Rule) → heading_named (rule_word rule) ≡ Some (heading_of rule) }
{}

/// Two rules of one word and with the same arguments are one rule.
pub fn rule_of_word_and_arguments()
    ensures { (r s : Rule) → rule_word r ≡ rule_word s → rule_arguments r ≡ rule_arguments s → r ≡ s }
{}
