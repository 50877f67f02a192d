//! Whether the new names of an interface are visible where it is used.

ghost use Rattle.std.specs.Prelude.{◌≡◌, ◌++◌, ◌<◌, ℕ, length, None, Some, IfErr, IfOk, IfSome, OnOk};
ghost use Rattle.ipdl_term.specs.Renaming.{renaming_of};
ghost use Rattle.ipdl_term.specs.Terms.{Channel};
ghost use Rattle.ipdl_term.specs.Typing.{scope_of};
ghost use Rattle.ipdl_embed.specs.Fitting.{first_unfit, is_visible, is_width};

use crate::fault::NoPort;
use crate::renaming::Renaming;
use ipdl_base::{Name, NoMemory};
use ipdl_term::{Interface, Port};
use std::alloc::Global;
use std::collections::HashMap;
use std::marker::Model;

/// The ports of a scope, with a table of the width that is seen under each name: the last port of
/// a name counts. Contracts see the list of the ports. A look-up takes about the same time however
/// many they are.
#[derive(Drop)]
pub struct Visible<'a> {
    ports: &'a [Port],
    widths: HashMap<&'a Name, u8>,
}

impl<'a> Model for Visible<'a> {
    ghost use Rattle.std.specs.Prelude.{◌≡◌, List, ℕ};
    ghost use Rattle.ipdl_term.specs.Typing.{scope_of};
    ghost use Rattle.ipdl_term.specs.declared.interface.Port.{Port as PortOf};
    ghost use Rattle.ipdl_embed.specs.Tables.{seen_in};

    ghost Value = { List PortOf };

    ghost view = { λ v. v.ports.now };

    ghost invariant = { λ v. (c : List ℕ) → seen_in v.widths c ≡ scope_of v.ports.now c };
}

impl<'a> Visible<'a> {
    /// The table of the scope, whose ports stay where they are.
    pub fn of(alloc: Global, scope: &'a [Port]) -> Result<Visible<'a>, NoMemory>
        ensures { IfOk result (λ visible. visible ≡ scope.now) }
    {
        let mut widths = HashMap::new(alloc);
        for port in scope {
            widths.insert(&port.name, port.width)?;
        }
        Ok(Visible {
            ports: scope,
            widths,
        })
    }

    // Whether the name is seen with the width.
    fn has(&self, name: &Name, width: u8) -> bool
        ensures { result ≡ is_width (scope_of self.now name.now) width }
    {
        match self.widths.get(&name) {
            Some(seen) => *seen == width,
            None => false,
        }
    }
}

// Whether the port's new name is visible with the port's width.
fn fits_port(renaming: &Renaming, port: &Port, visible: &Visible<'_>) -> bool
    ensures { result ≡ is_visible (scope_of visible.now) (renaming_of renaming.now) port.now }
{
    match renaming.new_name(&port.name) {
        Some(name) => visible.has(name, port.width),
        None => visible.has(&port.name, port.width),
    }
}

// The number of the first port of which that does not hold.
fn first_unfit(renaming: &Renaming, ports: &[Port], visible: &Visible<'_>) -> Option<usize>
    ensures value { result
        ≡ first_unfit (scope_of visible.now) (renaming_of renaming.now) ports.now }
    ensures within { IfSome result (λ place. place < length ports.now) }
{
    for place in 0..ports.len() {
        if !fits_port(renaming, &ports[place], visible) {
            return Some(place);
        }
    }
    None
}

/// Whether the new name of each channel of the interface is visible with that channel's width. It
/// takes no memory.
pub fn fits(renaming: &Renaming, interface: &Interface, visible: &Visible<'_>) -> Result<(), NoPort>
    ensures ok { OnOk result (first_unfit (scope_of visible.now) (renaming_of renaming.now)
        (interface.now.inputs ++ interface.now.outputs) ≡ None) }
    ensures visible { OnOk result ((c : Channel) (w : ℕ) →
        scope_of (interface.now.inputs ++ interface.now.outputs) c ≡ Some w →
        scope_of visible.now (renaming_of renaming.now c) ≡ Some w) }
    ensures err { IfErr result (λ fault.
        first_unfit (scope_of visible.now) (renaming_of renaming.now)
        (interface.now.inputs ++ interface.now.outputs) ≡ Some fault.place) }
{
    let inputs = interface.inputs.as_slice();
    if let Some(place) = first_unfit(renaming, inputs, visible) {
        return Err(NoPort {
            place: place as u64,
        });
    }
    match first_unfit(renaming, interface.outputs.as_slice(), visible) {
        Some(place) => Err(NoPort {
            place: (inputs.len() + place) as u64,
        }),
        None => Ok(()),
    }
}
