//! The law of the scope around a place.

ghost use Rattle.std.specs.Prelude.{◌≡◌, ◌++◌, ℕ, List};
ghost use Rattle.ipdl_term.specs.Surroundings.{around, outermost};
ghost use Rattle.ipdl_term.specs.Terms.{Channel, Protocol, protocol_term};
ghost use Rattle.ipdl_term.specs.Typing.{scope_of};
ghost use Rattle.ipdl_term.specs.declared.interface.Port.{Port};
ghost use Rattle.ipdl_cursor.specs.Hidden.{hidden_ports};

/// The scope around a place is that of the ports outside with the hidden channels after them.
pub fn scope_around_place()
    ensures { (ports : List Port) (p : Protocol) (place : List ℕ) (c : Channel) →
        (around (outermost (scope_of ports)) (protocol_term p) place).scope c
        ≡ scope_of (ports ++ hidden_ports (protocol_term p) place) c }
{}
