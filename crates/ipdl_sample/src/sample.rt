//! Pushes the items of the sample document one after the other.

ghost use Rattle.std.specs.Prelude.{◌≡◌, ◌++◌, ◌≤◌, ◌<◌, IfOk, OnOk};
ghost use Rattle.std.specs.Fmt.{decimal};
ghost use Rattle.ipdl_sample.specs.Samples.{entry_text, items_text, left_text, ports_text, right_text, sample_text, theorem_text, width_of};

use ipdl_base::NoMemory;
use ipdl_tree::push_number;
use std::alloc::Global;

// Words, and a number right behind them.
fn push_numbered(text: &mut Vec<u8>, words: &[u8], number: u32) -> Result<(), NoMemory>
    ensures { OnOk result (text.new.items ≡ text.old.items ++ (words.now ++ decimal number)) }
{
    text.extend_from_slice(words)?;
    push_number(text, u64::from(number))?;
    Ok(())
}

// The ports that both protocols have.
fn push_ports(text: &mut Vec<u8>, width: u32) -> Result<(), NoMemory>
    ensures { OnOk result (text.new.items ≡ text.old.items ++ ports_text width) }
{
    push_numbered(text, b" (inputs (m ", width)?;
    push_numbered(text, b")) (outputs (c ", width)?;
    text.extend_from_slice(b"))")?;
    Ok(())
}

// The protocol that hides a message behind a random key.
fn push_left(text: &mut Vec<u8>, number: u32, width: u32) -> Result<(), NoMemory>
    ensures { OnOk result (text.new.items ≡ text.old.items ++ left_text number width) }
{
    push_numbered(text, b"(protocol L", number)?;
    push_ports(text, width)?;
    push_numbered(text, b" (new ((k ", width)?;
    push_numbered(text, b")) (par (out c (bind x ", width)?;
    push_numbered(text, b" (read m) (bind y ", width)?;
    push_numbered(text, b" (read k) (ret (xor x y))))) (out k (flip ", width)?;
    text.extend_from_slice(b")))))")?;
    Ok(())
}

// The protocol that writes random bits once the message is there.
fn push_right(text: &mut Vec<u8>, number: u32, width: u32) -> Result<(), NoMemory>
    ensures { OnOk result (text.new.items ≡ text.old.items ++ right_text number width) }
{
    push_numbered(text, b"(protocol R", number)?;
    push_ports(text, width)?;
    push_numbered(text, b" (out c (bind x ", width)?;
    push_numbered(text, b" (read m) (flip ", width)?;
    text.extend_from_slice(b"))))")?;
    Ok(())
}

// The theorem that the two are equal, with its steps.
fn push_theorem(text: &mut Vec<u8>, number: u32) -> Result<(), NoMemory>
    ensures { OnOk result (text.new.items ≡ text.old.items ++ theorem_text number) }
{
    push_numbered(text, b"(theorem T", number)?;
    push_numbered(text, b" L", number)?;
    push_numbered(text, b" R", number)?;
    text.extend_from_slice(
        b" (left (fold () (1 0)) (mask (0 1) x0) (lin (0 1 1 0) x1) (eta (0 1))) (right))",
    )?;
    Ok(())
}

// The three items of a number, each behind a blank.
fn push_entry(text: &mut Vec<u8>, number: u32) -> Result<(), NoMemory>
    ensures { OnOk result (text.new.items ≡ text.old.items ++ entry_text number) }
{
    let width = number % 128 + 1;
    text.push(b' ')?;
    push_left(text, number, width)?;
    text.push(b' ')?;
    push_right(text, number, width)?;
    text.push(b' ')?;
    push_theorem(text, number)?;
    Ok(())
}

// The items of the numbers from 0 on.
fn push_items(text: &mut Vec<u8>, count: u32) -> Result<(), NoMemory>
    ensures { OnOk result (text.new.items ≡ text.old.items ++ items_text 0 count) }
{
    for number in 0..count {
        push_entry(text, number)?;
    }
    Ok(())
}

/// The document with this count of theorems, as `write_tree` writes trees.
pub fn sample_document(alloc: Global, count: u32) -> Result<Vec<u8>, NoMemory>
    requires some { 1 ≤ count }
    requires most { count ≤ 170 }
    ensures { IfOk result (λ text. text.items ≡ sample_text count) }
{
    let mut text = Vec::new(alloc);
    text.extend_from_slice(b"(ipdl 1")?;
    push_items(&mut text, count)?;
    text.push(b')')?;
    Ok(text)
}
