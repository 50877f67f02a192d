//! Rules at a protocol: how its parts communicate. Each rule stands as a law of alike protocols, in
//! every scope, as one of typed protocols where the right side needs no type of its own, and as one
//! of equal protocols.

ghost use Rattle.std.specs.Prelude.{◌≡◌, ◌≢◌, ◌↔◌, ℕ, List, [], Some, true, false};
ghost use Rattle.ipdl_laws.specs.Alike.{Alike};
ghost use Rattle.ipdl_laws.specs.ReactionContexts.{IsClosed};
ghost use Rattle.ipdl_rules_p.specs.ReadPlaces.{read_count};
ghost use Rattle.ipdl_term.specs.Channels.{IsWithin, has, must_reads, outputs, reads};
ghost use Rattle.ipdl_term.specs.Equality.{Equal};
ghost use Rattle.ipdl_term.specs.Interpretations.{Interpretation, Signature};
ghost use Rattle.ipdl_term.specs.Places.{reaction_or, term_at, term_with};
ghost use Rattle.ipdl_term.specs.Rewriting.{lowered_reaction};
ghost use Rattle.ipdl_term.specs.Terms.{Channel, Protocol, Reaction, assignment, binding, hiding, parallel, reaction_term, reading};
ghost use Rattle.ipdl_term.specs.Typing.{Scope, Typed};
ghost use Rattle.ipdl_term.specs.Variables.{has_flip, lifted_reaction, reaction_uses};

/// Where a channel is read at a place, it is read at no other one exactly if it is read once.
pub fn one_read_place()
    ensures { (c : Channel) (k : Reaction) (place : List ℕ) →
        term_at (reaction_term k) place ≡ Some (reaction_term (reading c)) →
        ((other : List ℕ) → term_at (reaction_term k) other ≡ Some (reaction_term (reading c)) →
        other ≡ place) ↔ (read_count c k ≡ 1) }
{}

/// A part with one beside it that writes nothing is alike the part alone.
pub fn absorb_is_alike()
    ensures { (J : Interpretation) (scope : Scope) (p q : Protocol) →
        outputs q ≡ [] → Alike J scope (parallel p q) p }
{}

/// An assignment that must read its own channel is alike one that reads that alone.
pub fn diverge_is_alike()
    ensures { (J : Interpretation) (scope : Scope) (a : Channel) (r : Reaction) →
        has (must_reads r) a ≡ true →
        Alike J scope (assignment a r) (assignment a (reading a)) }
{}

/// Beside an assignment of a, a first read of a may be left out if its value is not used and what
/// follows must read all that the assignment of a reads.
pub fn drop_is_alike()
    ensures { (J : Interpretation) (scope : Scope) (a b : Channel) (w : ℕ) (r s : Reaction) →
        a ≢ b → reaction_uses s 0 ≡ false → IsWithin (reads r) (must_reads s) →
        Alike J scope
        (parallel (assignment a r) (assignment b (binding w (reading a) s)))
        (parallel (assignment a r) (assignment b (lowered_reaction s))) }
{}

/// Beside an assignment of a, a channel that its reaction must read may be read first, where what
/// follows must read a.
pub fn subsume_is_alike()
    ensures { (J : Interpretation) (scope : Scope) (a b c : Channel) (w : ℕ) (r s : Reaction) →
        a ≢ b → has (must_reads s) a ≡ true → has (must_reads r) c ≡ true →
        Alike J scope
        (parallel (assignment a r) (assignment b s))
        (parallel (assignment a r) (assignment b (binding w (reading c) (lifted_reaction s 0 1)))) }
{}

/// Beside an assignment of a, a read of a may be replaced, at its place, by the reaction of a, if that
/// has no `flip`.
pub fn subst_is_alike()
    ensures { (J : Interpretation) (scope : Scope) (a b : Channel) (r k : Reaction) (place : List ℕ) →
        a ≢ b → term_at (reaction_term k) place ≡ Some (reaction_term (reading a)) →
        has_flip r ≡ false → IsClosed r →
        let whole = reaction_or k (term_with (reaction_term k) place (reaction_term r)) in
        Alike J scope
        (parallel (assignment a r) (assignment b k))
        (parallel (assignment a r) (assignment b whole)) }
{}

/// A hidden channel that is read at one place alone, and not by its own reaction, may be replaced
/// there by that reaction.
pub fn fold_is_alike()
    ensures { (J : Interpretation) (scope : Scope) (o c : Channel) (w : ℕ) (r k : Reaction)
        (place : List ℕ) → o ≢ c →
        term_at (reaction_term k) place ≡ Some (reaction_term (reading c)) →
        ((other : List ℕ) → term_at (reaction_term k) other ≡ Some (reaction_term (reading c)) →
        other ≡ place) → has (reads r) c ≡ false → IsClosed r →
        let whole = reaction_or k (term_with (reaction_term k) place (reaction_term r)) in
        Alike J scope
        (hiding c w (parallel (assignment o k) (assignment c r)))
        (assignment o whole) }
{}

/// A part is typed where it is typed with one beside it that writes nothing.
pub fn absorb_is_typed()
    ensures { (sig : Signature) (scope : Scope) (written : List Channel) (p q : Protocol) →
        outputs q ≡ [] → Typed sig scope (parallel p q) written → Typed sig scope p written }
{}

/// An assignment may read its own channel alone where it is typed.
pub fn diverge_is_typed()
    ensures { (sig : Signature) (scope : Scope) (written : List Channel) (a : Channel) (r : Reaction) →
        Typed sig scope (assignment a r) written → Typed sig scope (assignment a (reading a)) written }
{}

/// Beside another one, an assignment without its first read is typed where it was typed with it, if
/// the value is not used.
pub fn drop_is_typed()
    ensures { (sig : Signature) (scope : Scope) (written : List Channel)
        (a b c : Channel) (w : ℕ) (r s : Reaction) → reaction_uses s 0 ≡ false →
        Typed sig scope (parallel (assignment a r) (assignment b (binding w (reading c) s))) written →
        Typed sig scope (parallel (assignment a r) (assignment b (lowered_reaction s))) written }
{}

/// Beside an assignment of a, its reaction may stand in the place of a read of a where both are
/// typed.
pub fn subst_is_typed()
    ensures { (sig : Signature) (scope : Scope) (written : List Channel)
        (a b : Channel) (r k : Reaction) (place : List ℕ) →
        term_at (reaction_term k) place ≡ Some (reaction_term (reading a)) →
        let whole = reaction_or k (term_with (reaction_term k) place (reaction_term r)) in
        Typed sig scope (parallel (assignment a r) (assignment b k)) written →
        Typed sig scope (parallel (assignment a r) (assignment b whole)) written }
{}

/// The reaction of a hidden channel may stand in the place of the only read of it where the whole is
/// typed.
pub fn fold_is_typed()
    ensures { (sig : Signature) (scope : Scope) (written : List Channel)
        (o c : Channel) (w : ℕ) (r k : Reaction) (place : List ℕ) →
        term_at (reaction_term k) place ≡ Some (reaction_term (reading c)) →
        ((other : List ℕ) → term_at (reaction_term k) other ≡ Some (reaction_term (reading c)) →
        other ≡ place) → has (reads r) c ≡ false →
        let whole = reaction_or k (term_with (reaction_term k) place (reaction_term r)) in
        Typed sig scope (hiding c w (parallel (assignment o k) (assignment c r))) written →
        Typed sig scope (assignment o whole) written }
{}

/// A part with one beside it that writes nothing is equal to the part alone.
pub fn absorb_is_equal()
    ensures { (sig : Signature) (scope : Scope) (written : List Channel) (p q : Protocol) →
        outputs q ≡ [] → Typed sig scope (parallel p q) written →
        Equal sig scope written (parallel p q) p }
{}

/// An assignment that must read its own channel is equal to one that reads that alone.
pub fn diverge_is_equal()
    ensures { (sig : Signature) (scope : Scope) (written : List Channel) (a : Channel) (r : Reaction) →
        has (must_reads r) a ≡ true → Typed sig scope (assignment a r) written →
        Equal sig scope written (assignment a r) (assignment a (reading a)) }
{}

/// Beside an assignment of a, a first read of a may equally be left out if its value is not used and
/// what follows must read all that the assignment of a reads.
pub fn drop_is_equal()
    ensures { (sig : Signature) (scope : Scope) (written : List Channel)
        (a b : Channel) (w : ℕ) (r s : Reaction) →
        reaction_uses s 0 ≡ false → IsWithin (reads r) (must_reads s) →
        let left = parallel (assignment a r) (assignment b (binding w (reading a) s)) in
        Typed sig scope left written →
        Equal sig scope written left (parallel (assignment a r) (assignment b (lowered_reaction s))) }
{}

/// Beside an assignment of a, a channel that its reaction must read may equally be read first, where
/// what follows must read a. That the channel has the width is said by the type of the right side.
pub fn subsume_is_equal()
    ensures { (sig : Signature) (scope : Scope) (written : List Channel)
        (a b c : Channel) (w : ℕ) (r s : Reaction) →
        has (must_reads s) a ≡ true → has (must_reads r) c ≡ true →
        let left = parallel (assignment a r) (assignment b s) in
        let right = parallel (assignment a r) (assignment b (binding w (reading c) (lifted_reaction s 0 1))) in
        Typed sig scope left written → Typed sig scope right written →
        Equal sig scope written left right }
{}

/// Beside an assignment of a, a read of a may equally be replaced, at its place, by the reaction of
/// a, if that has no `flip`.
pub fn subst_is_equal()
    ensures { (sig : Signature) (scope : Scope) (written : List Channel)
        (a b : Channel) (r k : Reaction) (place : List ℕ) →
        term_at (reaction_term k) place ≡ Some (reaction_term (reading a)) → has_flip r ≡ false →
        let left = parallel (assignment a r) (assignment b k) in
        let whole = reaction_or k (term_with (reaction_term k) place (reaction_term r)) in
        Typed sig scope left written →
        Equal sig scope written left (parallel (assignment a r) (assignment b whole)) }
{}

/// A hidden channel that is read at one place alone, and not by its own reaction, may equally be
/// replaced there by that reaction.
pub fn fold_is_equal()
    ensures { (sig : Signature) (scope : Scope) (written : List Channel)
        (o c : Channel) (w : ℕ) (r k : Reaction) (place : List ℕ) →
        term_at (reaction_term k) place ≡ Some (reaction_term (reading c)) →
        ((other : List ℕ) → term_at (reaction_term k) other ≡ Some (reaction_term (reading c)) →
        other ≡ place) → has (reads r) c ≡ false →
        let left = hiding c w (parallel (assignment o k) (assignment c r)) in
        let whole = reaction_or k (term_with (reaction_term k) place (reaction_term r)) in
        Typed sig scope left written → Equal sig scope written left (assignment o whole) }
{}
