//! Pushes the lines that tell what is written at the outputs of a protocol.

ghost use Rattle.std.specs.Prelude.{◌≡◌, ◌++◌, OnOk};
ghost use Rattle.ipdl_commands.specs.Running.{coins_line, value_text, output_line, output_lines};
ghost use Rattle.ipdl_term.specs.Typing.{port_names};

use ipdl_base::{Bits, Name, NoMemory};
use ipdl_term::Port;
use ipdl_tree::{push_literal, push_number};

// The first line, with the number of coins.
pub(crate) fn push_coins(text: &mut Vec<u8>, name: &str, coins: u64) -> Result<(), NoMemory>
    ensures { OnOk result (text.new.items ≡ text.old.items ++ coins_line name.now coins) }
{
    text.extend_from_slice(b"run ")?;
    text.extend_from_slice(name.as_bytes())?;
    text.extend_from_slice(b" coins ")?;
    push_number(text, coins)?;
    text.push(b'\n')?;
    Ok(())
}

// The value at an output, if there is one.
fn push_value(text: &mut Vec<u8>, value: Option<Bits>) -> Result<(), NoMemory>
    ensures { OnOk result (text.new.items ≡ text.old.items ++ value_text value) }
{
    match value {
        Some(bits) => push_literal(text, bits),
        None => {
            text.extend_from_slice(b"stuck")?;
            Ok(())
        }
    }
}

// The line of an output.
fn push_output(text: &mut Vec<u8>, channel: &Name, value: Option<Bits>) -> Result<(), NoMemory>
    ensures { OnOk result (text.new.items ≡ text.old.items ++ output_line channel.now value) }
{
    text.extend_from_slice(b"output ")?;
    text.extend_from_slice(channel.text().as_bytes())?;
    text.push(b' ')?;
    push_value(text, value)?;
    text.push(b'\n')?;
    Ok(())
}

// A line for each output, with its value.
pub(crate) fn push_outputs(
    text: &mut Vec<u8>,
    outputs: &[Port],
    values: &[Option<Bits>],
) -> Result<(), NoMemory>
    ensures { OnOk result
        (text.new.items ≡ text.old.items ++ output_lines (port_names outputs.now) values.now) }
{
    let mut others = values;
    for port in outputs {
        let [value, rest @ ..] = others else {
            return Ok(());
        };
        push_output(text, &port.name, *value)?;
        others = rest;
    }
    Ok(())
}
