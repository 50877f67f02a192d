//! Rules at a protocol: how its parts are put together makes no difference. Each rule stands as a
//! law of alike protocols, in every scope, and as one of equal protocols.

ghost use Rattle.std.specs.Prelude.{◌≡◌, ◌≢◌, ℕ, List, false};
ghost use Rattle.ipdl_laws.specs.Alike.{Alike};
ghost use Rattle.ipdl_term.specs.Channels.{AreDisjoint, free_channels, has, outputs};
ghost use Rattle.ipdl_term.specs.Equality.{Equal};
ghost use Rattle.ipdl_term.specs.Interpretations.{Interpretation, Signature};
ghost use Rattle.ipdl_term.specs.Terms.{Channel, Protocol, hiding, nil, parallel};
ghost use Rattle.ipdl_term.specs.Typing.{Scope, Typed};

/// Two parts that write different channels are alike in the other order.
pub fn comm_is_alike()
    ensures { (J : Interpretation) (scope : Scope) (p q : Protocol) →
        AreDisjoint (outputs p) (outputs q) → Alike J scope (parallel p q) (parallel q p) }
{}

/// Three parts that write different channels are alike with the first two grouped in place of the
/// last two.
pub fn assocl_is_alike()
    ensures { (J : Interpretation) (scope : Scope) (p q r : Protocol) →
        AreDisjoint (outputs p) (outputs q) → AreDisjoint (outputs p) (outputs r) →
        AreDisjoint (outputs q) (outputs r) →
        Alike J scope (parallel p (parallel q r)) (parallel (parallel p q) r) }
{}

/// Three parts that write different channels are alike with the last two grouped in place of the
/// first two.
pub fn assocr_is_alike()
    ensures { (J : Interpretation) (scope : Scope) (p q r : Protocol) →
        AreDisjoint (outputs p) (outputs q) → AreDisjoint (outputs p) (outputs r) →
        AreDisjoint (outputs q) (outputs r) →
        Alike J scope (parallel (parallel p q) r) (parallel p (parallel q r)) }
{}

/// A part with nothing beside it is alike the part alone.
pub fn unit_is_alike()
    ensures { (J : Interpretation) (scope : Scope) (p : Protocol) →
        Alike J scope (parallel p nil) p }
{}

/// Two hidden channels are alike in the other order.
pub fn newswap_is_alike()
    ensures { (J : Interpretation) (scope : Scope) (c d : Channel) (w v : ℕ) (p : Protocol) →
        Alike J scope (hiding c w (hiding d v p)) (hiding d v (hiding c w p)) }
{}

/// A channel that is hidden in one of two parts, and that the other does not name, may be hidden
/// around both.
pub fn scope_is_alike()
    ensures { (J : Interpretation) (scope : Scope) (p q : Protocol) (c : Channel) (w : ℕ) →
        has (free_channels p) c ≡ false →
        Alike J scope (parallel p (hiding c w q)) (hiding c w (parallel p q)) }
{}

/// Two parts are equal in the other order.
pub fn comm_is_equal()
    ensures { (sig : Signature) (scope : Scope) (written : List Channel) (p q : Protocol) →
        Typed sig scope (parallel p q) written →
        Equal sig scope written (parallel p q) (parallel q p) }
{}

/// Three parts are equal with the first two grouped in place of the last two.
pub fn assocl_is_equal()
    ensures { (sig : Signature) (scope : Scope) (written : List Channel) (p q r : Protocol) →
        Typed sig scope (parallel p (parallel q r)) written →
        Equal sig scope written (parallel p (parallel q r)) (parallel (parallel p q) r) }
{}

/// Three parts are equal with the last two grouped in place of the first two.
pub fn assocr_is_equal()
    ensures { (sig : Signature) (scope : Scope) (written : List Channel) (p q r : Protocol) →
        Typed sig scope (parallel (parallel p q) r) written →
        Equal sig scope written (parallel (parallel p q) r) (parallel p (parallel q r)) }
{}

/// A part with nothing beside it is equal to the part alone.
pub fn unit_is_equal()
    ensures { (sig : Signature) (scope : Scope) (written : List Channel) (p : Protocol) →
        Typed sig scope (parallel p nil) written → Equal sig scope written (parallel p nil) p }
{}

/// Two different hidden channels are equal in the other order.
pub fn newswap_is_equal()
    ensures { (sig : Signature) (scope : Scope) (written : List Channel)
        (c d : Channel) (w v : ℕ) (p : Protocol) → c ≢ d →
        Typed sig scope (hiding c w (hiding d v p)) written →
        Equal sig scope written (hiding c w (hiding d v p)) (hiding d v (hiding c w p)) }
{}

/// A channel that is hidden in one of two parts, and that the other does not name, may equally be
/// hidden around both.
pub fn scope_is_equal()
    ensures { (sig : Signature) (scope : Scope) (written : List Channel)
        (p q : Protocol) (c : Channel) (w : ℕ) → has (free_channels p) c ≡ false →
        Typed sig scope (parallel p (hiding c w q)) written →
        Equal sig scope written (parallel p (hiding c w q)) (hiding c w (parallel p q)) }
{}
