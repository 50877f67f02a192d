//! Pushes the words and numbers that terms are printed with.

ghost use Rattle.std.specs.Prelude.{◌≡◌, ◌<◌, ◌++◌, [], ◌∷◌, length, OnOk};
ghost use Rattle.ipdl_printing.specs.Printing.{binder_name, symbol_name};
ghost use Rattle.ipdl_printing.specs.Writes.{WritesTree, WritesMore};
ghost use Rattle.ipdl_tree.specs.Trees.{word, number};

use ipdl_base::{Name, NoMemory};
use ipdl_sig::Sig;
use ipdl_tree::push_number;

// A number as a further part of a list: after a blank.
pub(crate) fn push_number_part(text: &mut Vec<u8>, value: u32) -> Result<(), NoMemory>
    ensures { OnOk result (WritesMore text.old.items text.new.items (number 0 value ∷ [])) }
{
    text.push(b' ')?;
    push_number(text, u64::from(value))
}

// The name.
pub(crate) fn push_name(text: &mut Vec<u8>, name: &Name) -> Result<(), NoMemory>
    ensures { OnOk result (WritesTree text.old.items text.new.items (word 0 name.now)) }
{
    text.extend_from_slice(name.text().as_bytes())?;
    Ok(())
}

// The name as a further part of a list.
pub(crate) fn push_name_part(text: &mut Vec<u8>, name: &Name) -> Result<(), NoMemory>
    ensures { OnOk result (WritesMore text.old.items text.new.items (word 0 name.now ∷ [])) }
{
    text.push(b' ')?;
    push_name(text, name)
}

// The name of the binder at a depth.
pub(crate) fn push_binder(text: &mut Vec<u8>, depth: u64) -> Result<(), NoMemory>
    ensures { OnOk result (WritesTree text.old.items text.new.items (word 0 (binder_name depth))) }
{
    text.push(b'x')?;
    push_number(text, depth)?;
    Ok(())
}

// The name of the symbol of a number.
pub(crate) fn push_symbol(text: &mut Vec<u8>, sig: &Sig, number: u32) -> Result<(), NoMemory>
    requires { number < length sig.now }
    ensures { OnOk result (WritesTree text.old.items text.new.items (word 0 (symbol_name sig.now number))) }
{
    match sig.symbol(number) {
        Some(symbol) => push_name(text, &symbol.name),
        None => unreachable!(),
    }
}
