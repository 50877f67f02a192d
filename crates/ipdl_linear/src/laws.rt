//! Laws of linear forms. Each is a function that does nothing and has the law as its contract.

ghost use Rattle.std.specs.Prelude.{◌≡◌, ℕ, List, map, reverse};
ghost use Rattle.ipdl_linear.specs.FormValues.{form_value};
ghost use Rattle.ipdl_linear.specs.LinearForms.{linear_forms};
ghost use Rattle.ipdl_linear.specs.Likeness.{Pair, HaveSameForms};
ghost use Rattle.ipdl_term.specs.Interpretations.{Interpretation, Interprets, Signature, evaluation};
ghost use Rattle.ipdl_term.specs.Surroundings.{FitWidths};
ghost use Rattle.ipdl_term.specs.Terms.{Expression, Value};
ghost use Rattle.ipdl_term.specs.Typing.{HasWidth};

/// The bits of the linear forms of a typed expression are its value, under every interpretation of
/// the signature and all values of the binders.
pub fn linear_forms_are_value()
    ensures { (sig : Signature) (J : Interpretation) → Interprets sig J →
        (widths : List ℕ) (env : List Value) → FitWidths widths env →
        (e : Expression) (w : ℕ) → HasWidth sig widths e w →
        map (form_value J env) (linear_forms sig widths e) ≡ evaluation J env e }
{}

/// Typed expressions with the same linear forms have the same value, under every interpretation of
/// the signature and all values of the binders.
pub fn same_forms_same_value()
    ensures { (p : Pair) (J : Interpretation) → Interprets p.sig J →
        (env : List Value) → FitWidths (reverse p.widths) env →
        (v w : ℕ) → HasWidth p.sig (reverse p.widths) p.left v → HasWidth p.sig (reverse p.widths) p.right w →
        HaveSameForms p → evaluation J env p.left ≡ evaluation J env p.right }
{}
