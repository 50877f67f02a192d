//! Looking up a protocol of a document by its name.

ghost use Rattle.std.specs.Prelude.{◌≡◌, ◌↔◌, false, IsNone};
ghost use Rattle.std.specs.Option.{option_copied};
ghost use Rattle.ipdl_forms.specs.Earlier.{protocol_names};
ghost use Rattle.ipdl_forms.specs.Lists.{is_among};
ghost use Rattle.ipdl_forms.specs.Lookups.{protocol_named};

use crate::document::{Document, Item, ProtocolItem};
use ipdl_base::Name;

// The first protocol of the name.
fn protocol_among<'a>(items: &'a [Item], name: &Name) -> Option<&'a ProtocolItem>
    ensures { option_copied result ≡ protocol_named items.now name.now }
{
    for item in items {
        if let Item::Protocol(protocol) = item {
            if protocol.name == *name {
                return Some(protocol);
            }
        }
    }
    None
}

impl Document {
    /// The protocol of the name. It takes no memory.
    pub fn protocol(&self, name: &Name) -> Option<&ProtocolItem>
        ensures value { option_copied result ≡ protocol_named self.now.items name.now }
        ensures none { IsNone result ↔ (is_among (protocol_names self.now.items) name.now ≡ false) }
    {
        protocol_among(self.items.as_slice(), name)
    }
}
