//! Laws of tidy forms. The functions do nothing, and their contracts are the laws: a tidy form does
//! what the reaction does, has its width, and may stand in its place.

ghost use Rattle.std.specs.Prelude.{◌≡◌, Bool, List, Some, ℕ};
ghost use Rattle.ipdl_laws.specs.MeanSame.{MeanSame};
ghost use Rattle.ipdl_norm.specs.Tidied.{tidied};
ghost use Rattle.ipdl_term.specs.Equality.{Equal};
ghost use Rattle.ipdl_term.specs.Interpretations.{Interpretation, Signature};
ghost use Rattle.ipdl_term.specs.Places.{term_at, term_with};
ghost use Rattle.ipdl_term.specs.Reactions.{reaction_outcome};
ghost use Rattle.ipdl_term.specs.Surroundings.{Surroundings};
ghost use Rattle.ipdl_term.specs.Terms.{Channel, Protocol, Reaction, Value, protocol_term, reaction_term};
ghost use Rattle.ipdl_term.specs.Typing.{GivesWidth, Scope, Typed};
ghost use Rattle.ipdl_term.specs.Valuations.{Valuation};

/// The tidy form gives on each tape what the reaction gives, whatever the values of the variables
/// and of the channels.
pub fn tidied_does_the_same()
    ensures { (J : Interpretation) (r : Reaction) (env : List Value) (inputs : Valuation)
        (tape : List Bool) →
        reaction_outcome J (tidied r) env inputs tape ≡ reaction_outcome J r env inputs tape }
{}

/// The tidy form has each width that the reaction has.
pub fn tidied_is_typed()
    ensures { (sig : Signature) (scope : Scope) (widths : List ℕ) (r : Reaction) (w : ℕ) →
        GivesWidth sig scope widths r w → GivesWidth sig scope widths (tidied r) w }
{}

/// The tidy form means the same as the reaction, in all surroundings.
pub fn tidied_means_the_same()
    ensures { (J : Interpretation) (s : Surroundings) (r : Reaction) →
        MeanSame J s (reaction_term r) (reaction_term (tidied r)) }
{}

/// A reaction that is replaced, at its place in a typed protocol, by its tidy form leaves the whole
/// equal, and so typed.
pub fn tidied_at_place()
    ensures { (sig : Signature) (scope : Scope) (written : List Channel)
        (p q : Protocol) (place : List ℕ) (r : Reaction) →
        let whole = protocol_term p in
        Typed sig scope p written → term_at whole place ≡ Some (reaction_term r) →
        term_with whole place (reaction_term (tidied r)) ≡ protocol_term q →
        Equal sig scope written p q }
{}
