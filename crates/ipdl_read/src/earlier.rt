//! What the items so far declare.

ghost use Rattle.std.specs.Prelude.{◌≡◌, [], ◌∷◌, IfSome, IfNone};
ghost use Rattle.ipdl_forms.specs.Earlier.{protocol_names, statement_names};
ghost use Rattle.ipdl_forms.specs.Lists.{is_among};

use ipdl_base::Name;
use ipdl_forms::Item;
use ipdl_sig::Sig;

// What is declared before an item.
#[derive(Clone, Copy)]
pub(crate) struct Earlier<'a> {
    pub(crate) sig: &'a Sig,
    pub(crate) items: &'a [Item],
}

// The name of the item, if it is a protocol.
fn protocol_name(item: &Item) -> Option<&Name>
    ensures some { IfSome result (λ held. protocol_names (item.now ∷ []) ≡ held.now ∷ []) }
    ensures none { IfNone result (protocol_names (item.now ∷ []) ≡ []) }
{
    match item {
        Item::Protocol(protocol) => Some(&protocol.name),
        Item::Symbol(_) | Item::Assumption(_) | Item::Theorem(_) => None,
    }
}

// Whether an item is a protocol of the name.
pub(crate) fn has_protocol(items: &[Item], name: &Name) -> bool
    ensures { result ≡ is_among (protocol_names items.now) name.now }
{
    for item in items {
        if let Some(held) = protocol_name(item) {
            if held == name {
                return true;
            }
        }
    }
    false
}

// The name of the item, if it is an assumption or a theorem.
fn statement_name(item: &Item) -> Option<&Name>
    ensures some { IfSome result (λ held. statement_names (item.now ∷ []) ≡ held.now ∷ []) }
    ensures none { IfNone result (statement_names (item.now ∷ []) ≡ []) }
{
    match item {
        Item::Assumption(assumption) => Some(&assumption.name),
        Item::Theorem(theorem) => Some(&theorem.name),
        Item::Symbol(_) | Item::Protocol(_) => None,
    }
}

// Whether an item is an assumption or a theorem of the name.
pub(crate) fn has_statement(items: &[Item], name: &Name) -> bool
    ensures { result ≡ is_among (statement_names items.now) name.now }
{
    for item in items {
        if let Some(held) = statement_name(item) {
            if held == name {
                return true;
            }
        }
    }
    false
}
