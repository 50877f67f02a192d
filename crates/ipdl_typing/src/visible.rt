//! The channels that are visible at a place of a protocol, found by their names.

ghost use Rattle.std.specs.Prelude.{◌≡◌, [], ◌∷◌, ◌++◌, map, reverse, drop, slice_get, option_map, OnOk};
ghost use Rattle.ipdl_term.specs.Channels.{has};
ghost use Rattle.ipdl_typing.specs.Visible.{visible_entry, unwritten_entry, port_entry, innermost, scope_in, earlier_in, marked};

use ipdl_base::{Name, NoMemory};
use ipdl_term::Port;
use std::alloc::Global;
use std::collections::HashMap;
use std::marker::Model;

// A visible channel.
#[derive(Clone, Copy)]
pub(crate) struct Visible<'a> {
    name: &'a Name,
    pub(crate) width: u8,
    // Whether it is an output or hidden, and not an input.
    pub(crate) writable: bool,
    // Whether an assignment wrote it.
    pub(crate) written: bool,
    // The index of the next channel of its name outside, if there is one.
    outer: Option<usize>,
}

// The channels that are visible at a place. Contracts see the list of them, the innermost first.
// A look-up takes about the same time however many they are.
#[derive(Drop)]
pub(crate) struct VisibleChannels<'a> {
    // The innermost channel is the last one.
    stack: Vec<Visible<'a>>,
    // The index of the innermost channel of each name.
    innermost: HashMap<&'a Name, usize>,
}

impl<'a> Model for VisibleChannels<'a> {
    ghost use Rattle.std.specs.Prelude.{List};
    ghost use Rattle.ipdl_typing.specs.Visible.{Entry, entries_of, IsIndexed, found_in};

    ghost Value = { List Entry };

    ghost view = { λ v. entries_of v.stack.items };

    ghost invariant = { λ v. IsIndexed v.stack.items (found_in v.innermost) };
}

impl<'a> VisibleChannels<'a> {
    // No channel.
    pub(crate) fn new(alloc: Global) -> Self
        ensures { result ≡ [] }
    {
        VisibleChannels {
            stack: Vec::new(alloc),
            innermost: HashMap::new(alloc),
        }
    }

    // The innermost channel of the name.
    fn find(&self, name: &Name) -> Option<Visible<'a>>
        ensures { option_map visible_entry result ≡ innermost self.now name.now }
    {
        match self.innermost.get(&name) {
            Some(index) => Some(self.stack[*index]),
            None => None,
        }
    }

    // The width of the innermost channel of the name.
    pub(crate) fn width_of(&self, name: &Name) -> Option<u8>
        ensures { result ≡ scope_in self.now name.now }
    {
        match self.find(name) {
            Some(channel) => Some(channel.width),
            None => None,
        }
    }

    // Whether the innermost channel of the name was written.
    pub(crate) fn is_written(&self, name: &Name) -> bool
        ensures { result ≡ has (earlier_in self.now) name.now }
    {
        match self.find(name) {
            Some(channel) => channel.written,
            None => false,
        }
    }

    // Notes that the innermost channel of the name is written. The answer is the channel as it was
    // before.
    pub(crate) fn write(&mut self, name: &Name) -> Option<Visible<'a>>
        ensures before { option_map visible_entry result ≡ innermost self.old name.now }
        ensures marked { self.new ≡ marked (has (name.now ∷ [])) self.old }
    {
        match self.innermost.get(&name) {
            Some(index) => {
                let index = *index;
                let before = self.stack[index];
                self.stack[index].written = true;
                Some(before)
            }
            None => None,
        }
    }

    // Makes a channel visible that is not written, inside of all others.
    #[inline(never)]
    pub(crate) fn enter(
        &mut self,
        name: &'a Name,
        width: u8,
        writable: bool,
    ) -> Result<(), NoMemory>
        ensures { OnOk result (self.new ≡ unwritten_entry name.now width writable ∷ self.old) }
    {
        let index = self.stack.len();
        self.stack.reserve(1)?;
        let outer = self.innermost.insert(name, index)?;
        self.stack.push(Visible {
            name,
            width,
            writable,
            written: false,
            outer,
        })?;
        Ok(())
    }

    // Makes ports visible, the later ones inside of the earlier.
    pub(crate) fn enter_ports(&mut self, ports: &'a [Port], writable: bool) -> Result<(), NoMemory>
        ensures { OnOk result (self.new ≡ reverse (map (port_entry writable) ports.now) ++ self.old) }
    {
        for port in ports {
            self.enter(&port.name, port.width, writable)?;
        }
        Ok(())
    }

    // Lets the innermost channel go. The answer is that channel.
    #[inline(never)]
    pub(crate) fn leave(&mut self) -> Option<Visible<'a>>
        ensures innermost { option_map visible_entry result ≡ slice_get self.old 0 }
        ensures others { self.new ≡ drop 1 self.old }
    {
        let channel = self.stack.pop()?;
        match channel.outer {
            Some(outer) => {
                if let Some(index) = self.innermost.get_mut(&channel.name) {
                    *index = outer;
                }
            }
            None => {
                self.innermost.remove(&channel.name);
            }
        }
        Some(channel)
    }
}
