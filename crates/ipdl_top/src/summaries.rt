//! The lines that say what a document has, where its items are well typed.

ghost use Rattle.std.specs.Prelude.{◌≡◌, ◌+◌, ◌++◌, [], ◌∷◌, IfOk, OnOk, length, string_bytes};
ghost use Rattle.std.specs.Fmt.{decimal};
ghost use Rattle.ipdl_term.specs.Views.{protocol_of};
ghost use Rattle.ipdl_forms.specs.Documents.{entry_of, document_of};
ghost use Rattle.ipdl_top.specs.Summaries.{HasPlainCounts, IsCounted, AreCounted, symbol_summary, protocol_summary, assumption_summary, theorem_summary, item_summary, typed_line, summary_text};
ghost use Rattle.ipdl_printing.specs.Texts.{line, spaced};

use ipdl_base::NoMemory;
use ipdl_forms::{AssumeItem, Document, Item, ProtocolItem, TheoremItem};
use ipdl_sig::{Sig, Symbol};
use ipdl_term::{channels, coins, proto_nodes};
use std::alloc::Global;

// A head with a name and two widths.
fn push_widths(text: &mut String, head: &str, name: &str, from: u8, to: u8) -> Result<(), NoMemory>
    ensures { OnOk result (string_bytes text.new ≡ string_bytes text.old ++ line (spaced (head.now ∷ name.now ∷ decimal from ∷ decimal to ∷ []))) }
{
    writeln!(text, "{head} {name} {from} {to}")?;
    Ok(())
}

fn push_symbol(text: &mut String, symbol: &Symbol) -> Result<(), NoMemory>
    ensures { OnOk result (string_bytes text.new ≡ string_bytes text.old ++ symbol_summary symbol.now) }
{
    let head = match &symbol.values {
        None => "fun",
        Some(_) => "table",
    };
    push_widths(text, head, symbol.name.text(), symbol.from, symbol.to)
}

fn push_protocol(text: &mut String, protocol: &ProtocolItem) -> Result<(), NoMemory>
    requires { HasPlainCounts (protocol_of protocol.now.body) }
    ensures { OnOk result (string_bytes text.new ≡ string_bytes text.old ++ protocol_summary protocol.now.name protocol.now.interface (protocol_of protocol.now.body)) }
{
    let name = protocol.name.text();
    let inputs = protocol.interface.inputs.as_slice().len();
    let outputs = protocol.interface.outputs.as_slice().len();
    let channels = channels(&protocol.body);
    let nodes = proto_nodes(&protocol.body);
    let coins = coins(&protocol.body);
    write!(text, "protocol {name} inputs {inputs} outputs {outputs} ")?;
    writeln!(text, "channels {channels} nodes {nodes} coins {coins}")?;
    Ok(())
}

fn push_assumption(text: &mut String, assumption: &AssumeItem) -> Result<(), NoMemory>
    ensures { OnOk result (string_bytes text.new ≡ string_bytes text.old ++ assumption_summary assumption.now.name assumption.now.left assumption.now.right) }
{
    let name = assumption.name.text();
    let left = assumption.left.text();
    let right = assumption.right.text();
    writeln!(text, "assume {name} {left} {right}")?;
    Ok(())
}

fn push_theorem(text: &mut String, theorem: &TheoremItem) -> Result<(), NoMemory>
    ensures { OnOk result (string_bytes text.new ≡ string_bytes text.old ++ theorem_summary theorem.now.name theorem.now.left theorem.now.right (length theorem.now.left_steps + length theorem.now.right_steps)) }
{
    let name = theorem.name.text();
    let left = theorem.left.text();
    let right = theorem.right.text();
    let steps = theorem.left_steps.as_slice().len() as u64
        + theorem.right_steps.as_slice().len() as u64;
    writeln!(text, "theorem {name} {left} {right} steps {steps}")?;
    Ok(())
}

fn push_item(text: &mut String, sig: &Sig, item: &Item) -> Result<(), NoMemory>
    requires { IsCounted (entry_of sig.now item.now) }
    ensures { OnOk result (string_bytes text.new ≡ string_bytes text.old ++ item_summary (entry_of sig.now item.now)) }
{
    match item {
        Item::Symbol(number) => match sig.symbol(*number) {
            Some(symbol) => push_symbol(text, symbol),
            None => push_widths(text, "fun", "", 0, 0),
        },
        Item::Protocol(protocol) => push_protocol(text, protocol),
        Item::Assumption(assumption) => push_assumption(text, assumption),
        Item::Theorem(theorem) => push_theorem(text, theorem),
    }
}

// The last line.
fn push_typed(text: &mut String, items: usize) -> Result<(), NoMemory>
    ensures { OnOk result (string_bytes text.new ≡ string_bytes text.old ++ typed_line items) }
{
    writeln!(text, "typed items {items}")?;
    Ok(())
}

// A line for each item, and the last one.
pub(crate) fn summary_text(alloc: Global, document: &Document) -> Result<Vec<u8>, NoMemory>
    requires { AreCounted (document_of document.now).entries }
    ensures { IfOk result (λ text. text.items ≡ summary_text (document_of document.now)) }
{
    let mut text = String::new(alloc);
    for item in document.items.as_slice() {
        push_item(&mut text, &document.sig, item)?;
    }
    push_typed(&mut text, document.items.as_slice().len())?;
    Ok(text.into_bytes())
}
