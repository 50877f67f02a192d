//! Reading of bytes: the tree that they spell, or the first fault.
ghost use Rattle.std.specs.Prelude.{◌≡◌, ℕ, ◌<◌, ◌^◌, length, take, IfOk, OnOk, IfErr, Ok, None};
ghost use Rattle.std.specs.Str.{chars};
ghost use Rattle.std.specs.Str.Lossy.{utf8_valid_len};
ghost use Rattle.ipdl_tree.specs.Faults.{Gives, IsFaultOf};
ghost use Rattle.ipdl_tree.specs.Trees.{IsShallow};
ghost use Rattle.ipdl_tree.specs.Reading.{nothing_read, refusal_of, read_on, read_source};
ghost use Rattle.ipdl_tree.specs.Refusals.{refusal};
ghost use Rattle.ipdl_tree.specs.Spelling.{SpellsSource};
ghost use Rattle.ipdl_tree.specs.ReaderViews.{reading, IsTokenAfter};
ghost use Rattle.ipdl_tree.specs.Views.{located};

use crate::fault::{SpellCause, TreeFault};
use crate::reader::{Reader, spell};
use crate::tree::Tree;
use std::alloc::Global;
use std::str;

// The longest text at the front of the bytes.
fn text_of(bytes: &[u8]) -> &str
    ensures { result.now ≡ take (utf8_valid_len bytes.now) bytes.now }
{
    match str::from_utf8(bytes) {
        Ok(text) => text,
        Err(error) => match str::from_utf8(&bytes[..error.valid_up_to()]) {
            Ok(text) => text,
            Err(_) => unreachable!(),
        },
    }
}

// The reader after all characters of the text.
fn read_text(alloc: Global, text: &str) -> Result<Reader, TreeFault>
    requires { length text.now < 2 ^ 32 }
    ensures read { Gives (λ r. reading text.now r) result (read_on refusal_of nothing_read 0 (chars text.now) (λ r _. Ok r)) }
    ensures token { IfOk result (λ r. IsTokenAfter text.now r.token) }
{
    let mut reader = Reader::new(alloc);
    let mut at = 0;
    for c in text.chars() {
        reader.take(alloc, &text[..at], c)?;
        at += c.len_utf8();
    }
    Ok(reader)
}

// The tree that the bytes spell.
fn read(alloc: Global, bytes: &[u8]) -> Result<Tree, TreeFault>
    requires { length bytes.now < 4_294_967_295 }
    ensures { Gives located result (read_source bytes.now) }
{
    let text = text_of(bytes);
    let reader = read_text(alloc, text)?;
    if text.len() < bytes.len() {
        return Err(spell(text.len() as u32, SpellCause::BadByte));
    }
    reader.finish(alloc, text)
}

/// The tree that the bytes spell, with blanks and comments around it. In the tree, the offset of
/// each part is the byte offset of its first character. A fault is the first one of the source.
///
/// Where memory suffices, the bytes are read exactly where they have no refusal.
pub fn read_tree(alloc: Global, bytes: &[u8]) -> Result<Tree, TreeFault>
    requires { length bytes.now < 4_294_967_295 }
    ensures spelled { IfOk result (λ t. SpellsSource (located t) bytes.now) }
    ensures shallow { IfOk result (λ t. IsShallow (located t)) }
    ensures accepted { OnOk result (refusal bytes.now ≡ None) }
    ensures refused { IfErr result (IsFaultOf (refusal bytes.now)) }
{
    read(alloc, bytes)
}
