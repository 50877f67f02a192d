//! Networks, and the calls on them.

ghost use Rattle.std.specs.Prelude.{◌≡◌, ◌≢◌, ◌↔◌, ℕ, ◌≤◌, [], None, Err, IfOk, OnOk};
ghost use Rattle.ipdl_mean.specs.Answers.{Solves};
ghost use Rattle.ipdl_mean.specs.Closed.{body_of};
ghost use Rattle.ipdl_mean.specs.Refusals.{IsOpen, IsAbstract, IsShort, first_abstract};
ghost use Rattle.ipdl_term.specs.Networks.{assignment_count};
ghost use Rattle.ipdl_term.specs.Protocols.{coins};
ghost use Rattle.ipdl_term.specs.Sizes.{most_nodes, protocol_nodes};
ghost use Rattle.ipdl_term.specs.Terms.{Channel};
ghost use Rattle.ipdl_term.specs.Typing.{HasInterface};
ghost use Rattle.ipdl_term.specs.Views.{protocol_of};
ghost use Rattle.ipdl_typing.specs.Signatures.{signature_of};

use crate::abstracts::first_abstract;
use crate::collecting::{Collected, collect, output_writers};
use crate::fault::{NetFault, SolveFault};
use crate::writers::Visible;
use ipdl_base::{Bits, List, Name, NoMemory};
use ipdl_forms::ProtocolItem;
use ipdl_sig::Sig;
use ipdl_term::React;
use std::alloc::Global;
use std::marker::Model;

// An assignment.
#[derive(Drop)]
pub(crate) struct Node<'a> {
    pub channel: &'a Name,
    pub reaction: &'a React,
    // The number of the first bit of its segment of the tape, and how many bits the segment has.
    pub first_bit: u64,
    pub coins: u64,
    // For each `read` of the reaction, from the left, which assignment writes the channel.
    pub writers: Vec<Option<u32>>,
}

/// The network of a closed protocol: its assignments, numbered from 0 from left to right. Contracts
/// see the protocol, with the symbols of its document and the outputs that it declares.
#[derive(Drop)]
pub struct Net<'a> {
    pub(crate) sig: &'a Sig,
    pub(crate) item: &'a ProtocolItem,
    pub(crate) nodes: Vec<Node<'a>>,
    // For each output that is declared, in order, which assignment writes it.
    pub(crate) outputs: Vec<Option<u32>>,
    pub(crate) coins: u64,
}

impl<'a> Model for Net<'a> {
    ghost use Rattle.ipdl_mean.specs.Closed.{Closed};
    ghost use Rattle.ipdl_mean.specs.Views.{IsNetwork};
    ghost use Rattle.ipdl_term.specs.contracts.protocol.Proto as proto;
    ghost use Rattle.std.specs.Coded.{codes};

    ghost Value = { Closed };

    ghost coded = { Prim.hlevel (codes, proto.the_row.coded) };

    ghost view = { λ n. record { symbols = n.sig.now; item = n.item.now } };

    ghost invariant = { λ n. IsNetwork n.sig.now n.item.now n.nodes.items n.outputs.items n.coins };
}

// The fault of a first input.
fn open_input(alloc: Global, input: &Name) -> NetFault
    ensures { result ≢ NetFault.Memory → result ≡ NetFault.OpenInput input.now }
{
    match input.copy(alloc) {
        Ok(name) => NetFault::OpenInput { name },
        Err(_) => NetFault::Memory,
    }
}

// The network of an item that has one.
fn built<'a>(alloc: Global, sig: &'a Sig, item: &'a ProtocolItem) -> Result<Net<'a>, NoMemory>
    requires typed { HasInterface (signature_of sig.now) item.now.interface
        (protocol_of item.now.body) }
    requires small { protocol_nodes (protocol_of item.now.body) ≤ most_nodes }
    requires tables { first_abstract (signature_of sig.now) (protocol_of item.now.body) ≡ None }
    ensures { IfOk result (λ net. net ≡ record { symbols = sig.now; item = item.now }) }
{
    let mut collected = Collected {
        nodes: Vec::new(alloc),
        coins: 0,
    };
    collect(
        alloc,
        &item.body,
        &Visible::Outputs(&item.body),
        &mut collected,
    )?;
    let outputs = output_writers(alloc, &item.body, item.interface.outputs.as_slice())?;
    let Collected { nodes, coins } = collected;
    Ok(Net {
        sig,
        item,
        nodes,
        outputs,
        coins,
    })
}

impl<'a> Net<'a> {
    /// The network of the item's protocol. Inputs are looked for first, and then abstract symbols.
    pub fn build(alloc: Global, sig: &'a Sig, item: &'a ProtocolItem) -> Result<Net<'a>, NetFault>
        requires typed { HasInterface (signature_of sig.now) item.now.interface
            (protocol_of item.now.body) }
        requires small { protocol_nodes (protocol_of item.now.body) ≤ most_nodes }

        ensures network { IfOk result (λ net. net ≡ record { symbols = sig.now; item = item.now }) }
        ensures closed { OnOk result (item.now.interface.inputs ≡ []) }
        ensures tables { OnOk result
            (first_abstract (signature_of sig.now) (protocol_of item.now.body) ≡ None) }

        ensures open_input { (name : Channel) → result ≢ Err NetFault.Memory →
            (result ≡ Err (NetFault.OpenInput name)) ↔ IsOpen item.now.interface name }
        ensures abstract_symbol { (symbol : ℕ) → (result ≡ Err (NetFault.AbstractSymbol symbol)) ↔
            IsAbstract (signature_of sig.now) item.now.interface (protocol_of item.now.body) symbol }
    {
        if let Some(input) = item.interface.inputs.as_slice().first() {
            return Err(open_input(alloc, &input.name));
        }
        if let Some(symbol) = first_abstract(sig, &item.body) {
            return Err(NetFault::AbstractSymbol { symbol });
        }
        match built(alloc, sig, item) {
            Ok(net) => Ok(net),
            Err(_) => Err(NetFault::Memory),
        }
    }

    /// How many assignments there are. Their numbers are those below it.
    pub fn assignments(&self) -> u32
        ensures { result ≡ assignment_count (body_of self.now) }
    {
        self.nodes.len() as u32
    }

    /// The most bits of a tape that the assignments take together.
    pub fn coins(&self) -> u64
        ensures { result ≡ coins (body_of self.now) }
    {
        self.coins
    }

    /// The values of the outputs on the tape, in the order in which they are declared, and none for
    /// an output that is not written. Bits of the tape past the coins make no difference.
    pub fn solve(&self, alloc: Global, tape: &[bool]) -> Result<List<Option<Bits>>, SolveFault>
        ensures values { IfOk result (Solves self.now tape.now) }
        ensures short { (want got : ℕ) → (result ≡ Err (SolveFault.ShortTape want got))
            ↔ IsShort self.now tape.now want got }
    {
        let got = tape.len() as u64;
        if got < self.coins {
            return Err(SolveFault::ShortTape {
                want: self.coins,
                got,
            });
        }
        match self.written(alloc, tape) {
            Ok(values) => Ok(List::from_vec(values)),
            Err(_) => Err(SolveFault::Memory),
        }
    }
}
