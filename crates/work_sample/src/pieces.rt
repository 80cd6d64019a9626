// Pieces that are added to a text.
ghost use Rattle.std.specs.Prelude.{◌≡◌, ◌++◌, OnOk, decimal};

use itoa::Buffer;
use link_port::Memory;

/// Adds a piece.
pub fn add_text(text: &mut Vec<u8>, piece: &str) -> Result<(), Memory>
    ensures { OnOk result (text.new.items ≡ text.old.items ++ piece.now) }
{
    match text.extend_from_slice(piece.as_bytes()) {
        Ok(()) => Ok(()),
        Err(_) => Err(Memory),
    }
}

/// Adds the digits of a number.
pub fn add_number(text: &mut Vec<u8>, number: u64) -> Result<(), Memory>
    ensures { OnOk result (text.new.items ≡ text.old.items ++ decimal number) }
{
    let mut digits = Buffer::new();
    add_text(text, digits.format(number))
}

/// Adds a number between two pieces.
pub fn add_between(
    text: &mut Vec<u8>,
    before: &str,
    number: u64,
    behind: &str,
) -> Result<(), Memory>
    ensures { OnOk result (text.new.items ≡ text.old.items ++ (before.now ++ decimal number ++ behind.now)) }
{
    add_text(text, before)?;
    add_number(text, number)?;
    add_text(text, behind)
}
