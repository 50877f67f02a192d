//! Pushes numbers with blanks between them, and places such as `(0 1)`.

ghost use Rattle.std.specs.Prelude.{◌≡◌, ◌++◌, OnOk, map, string_bytes};
ghost use Rattle.std.specs.Fmt.{decimal};
ghost use Rattle.ipdl_printing.specs.Texts.{spaced, place_text};

use ipdl_base::NoMemory;

/// Pushes numbers with one blank between two neighbours. Where memory runs out, a part of them may
/// have been pushed.
pub fn push_spaced(text: &mut String, numbers: &[u32]) -> Result<(), NoMemory>
    ensures { OnOk result (string_bytes text.new ≡ string_bytes text.old ++ spaced (map decimal numbers.now)) }
{
    let [first, others @ ..] = numbers else {
        return Ok(());
    };
    write!(text, "{first}")?;
    for number in others {
        write!(text, " {number}")?;
    }
    Ok(())
}

/// Pushes a place in parentheses, as `(0 1)`. Where memory runs out, a part of it may have been
/// pushed.
pub fn push_place(text: &mut String, place: &[u32]) -> Result<(), NoMemory>
    ensures { OnOk result (string_bytes text.new ≡ string_bytes text.old ++ place_text place.now) }
{
    text.push_str("(")?;
    push_spaced(text, place)?;
    text.push_str(")")?;
    Ok(())
}
