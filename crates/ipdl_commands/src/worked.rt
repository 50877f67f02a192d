//! Worked replies over the definitions: each answer is computed. The functions do nothing, and their
//! contracts are the answers.

ghost use Rattle.std.specs.Prelude.{◌≡◌, ◌++◌, true, [], ◌∷◌, Some, None, codes};
ghost use Rattle.ipdl_commands.specs.Lines.{short_tape, names_repeat, item_line};
ghost use Rattle.ipdl_commands.specs.Running.{run_refusal, run_text};
ghost use Rattle.ipdl_commands.specs.Shapes.{shape_refusal, shape_text};
ghost use Rattle.ipdl_commands.specs.Worked.{worked_network, turned_body, turned_network, repeating_network};

/// A random bit is one on this tape and its opposite zero, and what waits for itself is not written.
pub fn a_bit_its_opposite_and_a_stuck_output()
    ensures accepted { run_refusal [] (true ∷ []) (Some worked_network) ≡ None }
    ensures text { run_text [] (codes "N") (true ∷ []) worked_network
        ≡ codes "run N coins 1\noutput a #1\noutput b #0\noutput s stuck\n" }
{}

/// On the empty tape it is refused.
pub fn an_empty_tape()
    ensures refused { run_refusal [] [] (Some worked_network) ≡ Some (short_tape 1 0) }
    ensures line { item_line (codes "N") (short_tape 1 0) ≡ codes "item N ShortTape 1 0\n" }
{}

/// The shape of a protocol whose hidden channels and assignments are not in the order of their names.
pub fn names_in_turned_order()
    ensures accepted { shape_refusal (Some turned_network) ≡ None }
    ensures text { shape_text [] turned_body
        ≡ codes "(new ((x 1) (y 1)) (par (out b (read y)) (out x (flip 1)) (out y (read x))))\n" }
{}

/// One with a hidden channel that has the name of an input is refused.
pub fn a_hidden_name_that_repeats()
    ensures refused { shape_refusal (Some repeating_network) ≡ Some (names_repeat (codes "c")) }
    ensures line { item_line (codes "N") (names_repeat (codes "c")) ≡ codes "item N NamesRepeat c\n" }
{}
