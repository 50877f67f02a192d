//! The laws of the replies to commands. Each is the contract of a function that does nothing.

ghost use Rattle.std.specs.Prelude.{◌≡◌, ◌⊎◌, ℕ, Bool, List};
ghost use Rattle.ipdl_commands.specs.Running.{AnswersRun, RefusesRun};
ghost use Rattle.ipdl_commands.specs.Shapes.{AnswersShape, RefusesShape};
ghost use Rattle.ipdl_forms.specs.Documents.{Document};

/// A document has one reply to `run` with a name and a tape: a text that answers, or the line of a
/// refusal.
pub fn run_has_one_reply()
    ensures some { (d : Document) (name : List ℕ) (tape : List Bool) →
        ((text : List ℕ) × AnswersRun d name tape text) ⊎ ((line : List ℕ) × RefusesRun d name tape line) }
    ensures one_answer { (d : Document) (name text other : List ℕ) (tape : List Bool) →
        AnswersRun d name tape text → AnswersRun d name tape other → text ≡ other }
    ensures one_refusal { (d : Document) (name line other : List ℕ) (tape : List Bool) →
        RefusesRun d name tape line → RefusesRun d name tape other → line ≡ other }
    ensures not_both { (d : Document) (name text line : List ℕ) (tape : List Bool) →
        AnswersRun d name tape text → RefusesRun d name tape line → ⊥ }
{}

/// A document has one reply to `shape` with a name: a text that answers, or the line of a refusal.
pub fn shape_has_one_reply()
    ensures some { (d : Document) (name : List ℕ) →
        ((text : List ℕ) × AnswersShape d name text) ⊎ ((line : List ℕ) × RefusesShape d name line) }
    ensures one_answer { (d : Document) (name text other : List ℕ) →
        AnswersShape d name text → AnswersShape d name other → text ≡ other }
    ensures one_refusal { (d : Document) (name line other : List ℕ) →
        RefusesShape d name line → RefusesShape d name other → line ≡ other }
    ensures not_both { (d : Document) (name text line : List ℕ) →
        AnswersShape d name text → RefusesShape d name line → ⊥ }
{}
