//! Laws of the first place where two protocols differ.

ghost use Rattle.std.specs.Prelude.{◌≡◌, ◌↔◌, ℕ, List, None, Some};
ghost use Rattle.ipdl_script.specs.Differences.{DifferFirstAt};
ghost use Rattle.ipdl_script.specs.EndPlaces.{differing_place};
ghost use Rattle.ipdl_term.specs.Terms.{Protocol, Term, protocol_term};

/// There is no place exactly where the protocols are one.
pub fn differ_nowhere()
    ensures { (p q : Protocol) → (differing_place p q ≡ None) ↔ (p ≡ q) }
{}

/// A place is found exactly where both have a part at it, these differ in head, name or number, and
/// at no place before it in preorder they do.
pub fn differ_first()
    ensures { (p q : Protocol) (place : List ℕ) →
        (differing_place p q ≡ Some place) ↔
        DifferFirstAt (protocol_term p) (protocol_term q) place }
{}

/// Two terms differ first at one place at most.
pub fn one_first_place()
    ensures { (t u : Term) (place other : List ℕ) →
        DifferFirstAt t u place → DifferFirstAt t u other → place ≡ other }
{}
