//! What a step may use by a name: an assumption of the document, or an earlier theorem.

ghost use Rattle.std.specs.Option.{option_copied};
ghost use Rattle.std.specs.Prelude.{◌≡◌, All, IfSome, length, map, option_map};
ghost use Rattle.ipdl_forms.specs.Documents.{document_of};
ghost use Rattle.ipdl_forms.specs.Networks.{network_named};
ghost use Rattle.ipdl_script.specs.Adding.{HasKeptBodies, IsKeptSetting};
ghost use Rattle.ipdl_script.specs.Known.{assumed_lemma, sides_between, sides_named, theorem_named};
ghost use Rattle.ipdl_script.specs.NamedItems.{assumption_named, chain_named};
ghost use Rattle.ipdl_script.specs.Steps.{lemma_named};
ghost use Rattle.ipdl_script.specs.Views.{proved_of, setting_of};
ghost use Rattle.ipdl_uses.specs.Views.{IsKept, IsKeptClaim, lemma_of};

use crate::setting::Setting;
use ipdl_base::Name;
use ipdl_chain::Chain;
use ipdl_forms::{AssumeItem, Document, Item};
use ipdl_uses::{Claim, Known};

// ---- assumptions

// The first assumption of the name.
fn assumption_among<'a>(items: &'a [Item], name: &Name) -> Option<&'a AssumeItem>
    ensures { option_copied result ≡ assumption_named items.now name.now }
{
    for item in items {
        if let Item::Assumption(assumption) = item {
            if assumption.name == *name {
                return Some(assumption);
            }
        }
    }
    None
}

// An assumption of the name between these two protocols, if both are there.
fn between<'a>(
    document: &'a Document,
    name: &'a Name,
    left: &Name,
    right: &Name,
) -> Option<Known<'a>>
    ensures value { option_map lemma_of result ≡ option_map (assumed_lemma name.now)
        (sides_between (network_named (document_of document.now).entries left.now)
        (network_named (document_of document.now).entries right.now)) }
    ensures name { IfSome result (λ known. known.name.now ≡ name.now) }
    ensures kept { HasKeptBodies document.now →
        IfSome result (λ known. IsKeptClaim (length document.now.sig) known.claim) }
{
    let left = document.protocol(left)?;
    let right = document.protocol(right)?;
    Some(Known {
        name,
        interface: &left.interface,
        claim: Claim::Assumption {
            left: &left.body,
            right: &right.body,
        },
    })
}

// The assumption of the name.
fn assumed<'a>(document: &'a Document, name: &'a Name) -> Option<Known<'a>>
    ensures value { option_map lemma_of result ≡
        option_map (assumed_lemma name.now) (sides_named (document_of document.now).entries name.now) }
    ensures name { IfSome result (λ known. known.name.now ≡ name.now) }
    ensures kept { HasKeptBodies document.now →
        IfSome result (λ known. IsKeptClaim (length document.now.sig) known.claim) }
{
    let assumption = assumption_among(document.items.as_slice(), name)?;
    between(document, name, &assumption.left, &assumption.right)
}

// ---- theorems

// The first chain of a theorem of the name.
fn chain_among<'a>(chains: &'a [Chain], name: &Name) -> Option<&'a Chain>
    ensures { option_copied result ≡ chain_named chains.now name.now }
{
    for chain in chains {
        if chain.name == *name {
            return Some(chain);
        }
    }
    None
}

// The theorem of the name, if its left protocol is there.
fn proved<'a>(document: &'a Document, chains: &'a [Chain], name: &'a Name) -> Option<Known<'a>>
    ensures value { option_map lemma_of result ≡
        theorem_named (document_of document.now).entries (map proved_of chains.now) name.now }
    ensures name { IfSome result (λ known. known.name.now ≡ name.now) }
    ensures kept { All (IsKept (length document.now.sig)) chains.now →
        IfSome result (λ known. IsKeptClaim (length document.now.sig) known.claim) }
{
    let chain = chain_among(chains, name)?;
    let left = document.protocol(&chain.left)?;
    Some(Known {
        name,
        interface: &left.interface,
        claim: Claim::Theorem(chain),
    })
}

// ---- both

// What the step may use by the name.
pub(crate) fn known_named<'a>(setting: &Setting<'a>, name: &'a Name) -> Option<Known<'a>>
    ensures value { option_map lemma_of result ≡ lemma_named (setting_of setting.now) name.now }
    ensures name { IfSome result (λ known. known.name.now ≡ name.now) }
    ensures kept { IsKeptSetting setting.now →
        IfSome result (λ known. IsKeptClaim (length (setting_of setting.now).sig) known.claim) }
{
    match assumed(setting.document, name) {
        Some(known) => Some(known),
        None => proved(setting.document, setting.chains, name),
    }
}
