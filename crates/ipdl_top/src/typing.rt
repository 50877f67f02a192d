//! The tests of the types of items, in the order of the items.

ghost use Rattle.std.specs.Prelude.{◌≡◌, nat_lt};
ghost use Rattle.ipdl_base.specs.Limits.{limit_number};
ghost use Rattle.ipdl_term.specs.Sizes.{channel_count, printed_depth, greatest_printed_depth, saturated};
ghost use Rattle.ipdl_term.specs.Terms.{Protocol};
ghost use Rattle.ipdl_term.specs.Views.{protocol_of};
ghost use Rattle.ipdl_forms.specs.Documents.{entry_of, document_of};
ghost use Rattle.ipdl_forms.specs.Networks.{network_named};
ghost use Rattle.ipdl_top.specs.Told.{Tests};
ghost use Rattle.ipdl_top.specs.Typed.{protocol_refusal, sides_refusal, item_refusal, type_refusal};

use crate::refusal::{Stop, ill, over_at_item};
use ipdl_base::{Limit, Name};
use ipdl_forms::{Document, Item, ProtocolItem};
use ipdl_script::GREATEST_DEPTH;
use ipdl_sig::Sig;
use ipdl_term::{Extent, measure};
use ipdl_typing::{check_proto, check_sides};
use std::alloc::Global;

fn has_many_channels(extent: Extent) -> bool
    ensures { (body : Protocol) → extent.channels ≡ saturated (channel_count body) →
        result ≡ nat_lt (limit_number Limit.Channels) (channel_count body) }
{
    extent.channels > Limit::Channels.number()
}

fn is_deep(extent: Extent) -> bool
    ensures { (body : Protocol) → extent.depth ≡ saturated (printed_depth body) →
        result ≡ nat_lt greatest_printed_depth (printed_depth body) }
{
    extent.depth > GREATEST_DEPTH
}

fn test_protocol(alloc: Global, sig: &Sig, protocol: &ProtocolItem) -> Result<(), Stop>
    ensures { Tests result (protocol_refusal sig.now protocol.now.name protocol.now.interface (protocol_of protocol.now.body)) }
{
    let name = &protocol.name;
    let extent = measure(&protocol.body);
    if has_many_channels(extent) {
        let limit = Limit::Channels;
        return Err(over_at_item(alloc, limit, limit.number(), name));
    }
    if is_deep(extent) {
        return Err(over_at_item(alloc, Limit::Depth, GREATEST_DEPTH, name));
    }
    match check_proto(alloc, sig, &protocol.interface, &protocol.body) {
        Ok(()) => Ok(()),
        Err(fault) => Err(ill(alloc, name, fault)),
    }
}

// The two protocols of an item. A document that is read has both.
fn test_sides(
    alloc: Global,
    document: &Document,
    item: &Name,
    left: &Name,
    right: &Name,
) -> Result<(), Stop>
    ensures { Tests result (sides_refusal item.now (network_named (document_of document.now).entries left.now) (network_named (document_of document.now).entries right.now)) }
{
    let Some(left) = document.protocol(left) else {
        return Ok(());
    };
    let Some(right) = document.protocol(right) else {
        return Ok(());
    };
    match check_sides(alloc, &left.interface, &right.interface) {
        Ok(()) => Ok(()),
        Err(fault) => Err(ill(alloc, item, fault)),
    }
}

fn test_item(alloc: Global, document: &Document, item: &Item) -> Result<(), Stop>
    ensures { Tests result (item_refusal document.now.sig (document_of document.now).entries (entry_of document.now.sig item.now)) }
{
    match item {
        Item::Symbol(_) => Ok(()),
        Item::Protocol(protocol) => test_protocol(alloc, &document.sig, protocol),
        Item::Assumption(a) => test_sides(alloc, document, &a.name, &a.left, &a.right),
        Item::Theorem(t) => test_sides(alloc, document, &t.name, &t.left, &t.right),
    }
}

// The tests of all items, up to the first that fails.
pub(crate) fn test_items(alloc: Global, document: &Document) -> Result<(), Stop>
    ensures { Tests result (type_refusal (document_of document.now)) }
{
    for item in document.items.as_slice() {
        test_item(alloc, document, item)?;
    }
    Ok(())
}
