//! Laws of documents: one tree spells one term and one document, whatever its offsets, and no test
//! fails at a tree exactly where it spells one within the limits.

ghost use Rattle.std.specs.Prelude.{◌≡◌, ℕ, ◌^◌, ◌<◌, ◌↔◌, ◌⊎◌, ◌++◌, List, [], codes, Option, Some};
ghost use Rattle.std.specs.Fmt.{decimal};
ghost use Rattle.ipdl_base.specs.declared.limit.Limit.{Limit};
ghost use Rattle.ipdl_forms.specs.declared.fault.DocFault.{DocFault};
ghost use Rattle.ipdl_forms.specs.declared.fault.FormCause.{FormCause};
ghost use Rattle.ipdl_forms.specs.Counts.{IsWithinNodes, counted};
ghost use Rattle.ipdl_forms.specs.Documents.{Document};
ghost use Rattle.ipdl_forms.specs.Expressions.{SpellsExpression, expression_faults};
ghost use Rattle.ipdl_forms.specs.Faults.{first_fault, form_fault, over_fault};
ghost use Rattle.ipdl_forms.specs.Items.{SpellsDocument, document_faults};
ghost use Rattle.ipdl_forms.specs.Limits.{IsWithinLimits};
ghost use Rattle.ipdl_forms.specs.Protocols.{SpellsProtocol, protocol_faults};
ghost use Rattle.ipdl_forms.specs.Reactions.{SpellsReaction, reaction_faults};
ghost use Rattle.ipdl_forms.specs.Scopes.{NameScope, outer_number};
ghost use Rattle.ipdl_term.specs.Sizes.{expression_nodes, protocol_nodes, reaction_nodes};
ghost use Rattle.ipdl_term.specs.Terms.{Expression, Protocol, Reaction};
ghost use Rattle.ipdl_tree.specs.Trees.{Located, without_offsets};

/// One tree spells at most one term.
pub fn one_term()
    ensures expressions { (scope : NameScope) (e f : Expression) (t : Located) →
        SpellsExpression scope e t → SpellsExpression scope f t → e ≡ f }
    ensures reactions { (scope : NameScope) (r s : Reaction) (t : Located) →
        SpellsReaction scope r t → SpellsReaction scope s t → r ≡ s }
    ensures protocols { (scope : NameScope) (p q : Protocol) (t : Located) →
        SpellsProtocol scope p t → SpellsProtocol scope q t → p ≡ q }
{}

/// No test fails at a tree that spells a term, where the nodes of the term fit.
pub fn spelled_is_clean()
    ensures expressions { (scope : NameScope) (count : Option ℕ) (e : Expression) (t : Located) →
        SpellsExpression scope e t → IsWithinNodes (counted (expression_nodes e) count) →
        expression_faults scope count t ≡ [] }
    ensures reactions { (scope : NameScope) (count : Option ℕ) (r : Reaction) (t : Located) →
        SpellsReaction scope r t → IsWithinNodes (counted (reaction_nodes r) count) →
        reaction_faults scope count t ≡ [] }
    ensures protocols { (scope : NameScope) (count : Option ℕ) (p : Protocol) (t : Located) →
        SpellsProtocol scope p t → IsWithinNodes (counted (protocol_nodes p) count) →
        protocol_faults scope count t ≡ [] }
{}

/// A tree at which no test fails spells a term whose nodes fit, or a document within the limits.
pub fn clean_is_spelled()
    ensures expressions { (scope : NameScope) (count : Option ℕ) (t : Located) →
        expression_faults scope count t ≡ [] →
        (e : Expression) × SpellsExpression scope e t × IsWithinNodes (counted (expression_nodes e) count) }
    ensures reactions { (scope : NameScope) (count : Option ℕ) (t : Located) →
        reaction_faults scope count t ≡ [] →
        (r : Reaction) × SpellsReaction scope r t × IsWithinNodes (counted (reaction_nodes r) count) }
    ensures protocols { (scope : NameScope) (count : Option ℕ) (t : Located) →
        protocol_faults scope count t ≡ [] →
        (p : Protocol) × SpellsProtocol scope p t × IsWithinNodes (counted (protocol_nodes p) count) }
    ensures documents { (t : Located) → document_faults t ≡ [] →
        (d : Document) × SpellsDocument d t × IsWithinLimits d }
{}

/// One tree spells at most one document.
pub fn one_document()
    ensures { (d e : Document) (t : Located) → SpellsDocument d t → SpellsDocument e t → d ≡ e }
{}

/// No test fails at a tree that spells a document within the limits, and where no test fails the
/// document is within them.
pub fn document_is_read()
    ensures clean { (d : Document) (t : Located) → SpellsDocument d t → IsWithinLimits d →
        document_faults t ≡ [] }
    ensures within { (d : Document) (t : Located) → SpellsDocument d t → document_faults t ≡ [] →
        IsWithinLimits d }
{}

/// The first test that fails at a tree tells of a form or of a limit, never of want of memory.
pub fn first_fault_is_told()
    ensures { (t : Located) (fault : DocFault) → first_fault (document_faults t) ≡ Some fault →
        ((offset : ℕ) × (cause : FormCause) × (fault ≡ form_fault cause offset)) ⊎
        ((offset : ℕ) × (limit : Limit) × (fault ≡ over_fault limit offset)) }
{}

/// What a tree spells does not depend on its offsets: a tree that differs in them alone spells the
/// same.
pub fn offsets_are_free()
    ensures expressions { (scope : NameScope) (e : Expression) (t u : Located) →
        SpellsExpression scope e t → without_offsets t ≡ without_offsets u →
        SpellsExpression scope e u }
    ensures reactions { (scope : NameScope) (r : Reaction) (t u : Located) →
        SpellsReaction scope r t → without_offsets t ≡ without_offsets u →
        SpellsReaction scope r u }
    ensures protocols { (scope : NameScope) (p : Protocol) (t u : Located) →
        SpellsProtocol scope p t → without_offsets t ≡ without_offsets u →
        SpellsProtocol scope p u }
    ensures documents { (d : Document) (t u : Located) →
        SpellsDocument d t → without_offsets t ≡ without_offsets u → SpellsDocument d u }
{}

/// A name is that of an outer variable where it is `x` and its number in decimal digits, and the
/// number fits 32 bits.
pub fn outer_names()
    ensures { (name : List ℕ) (n : ℕ) →
        (outer_number name ≡ Some n) ↔ ((name ≡ codes "x" ++ decimal n) × (n < 2 ^ 32)) }
{}
