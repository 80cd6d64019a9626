// Pieces of text, indentation and notes.
ghost use Rattle.std.specs.Prelude.{◌≡◌, ◌++◌, OnOk, codes};
ghost use Rattle.std.specs.String.{string_bytes};
ghost use Rattle.idl_rules.specs.Canon.{spaces, note_line, note_lines, line_end, prefix_text, core_word};
ghost use Rattle.std.specs.List.{flat_map};

use idl_tree::{Core, Prefix};
use link_port::{Memory, Text};

/// Appends a piece.
pub fn push(out: &mut String, piece: &str) -> Result<(), Memory>
    ensures { OnOk result (string_bytes out.new ≡ string_bytes out.old ++ piece.now) }
{
    match out.push_str(piece) {
        Ok(()) => Ok(()),
        Err(_) => Err(Memory),
    }
}

/// Appends so many spaces.
pub fn push_spaces(out: &mut String, indent: u64) -> Result<(), Memory>
    ensures { OnOk result (string_bytes out.new ≡ string_bytes out.old ++ spaces indent) }
{
    for _space in 0..indent {
        push(out, " ")?;
    }
    Ok(())
}

/// Appends each note as a line of its own.
pub fn push_notes(out: &mut String, indent: u64, notes: &[Text]) -> Result<(), Memory>
    ensures { OnOk result (string_bytes out.new ≡ string_bytes out.old ++ note_lines indent notes.now) }
{
    for note in notes {
        push_note(out, indent, note.as_str())?;
    }
    Ok(())
}

fn push_note(out: &mut String, indent: u64, note: &str) -> Result<(), Memory>
    ensures { OnOk result (string_bytes out.new ≡ string_bytes out.old ++ note_line indent note.now) }
{
    push_spaces(out, indent)?;
    push(out, "#")?;
    push(out, note)?;
    push(out, "\n")
}

/// Appends the prefixes of a type, without blanks.
pub fn push_prefixes(out: &mut String, prefixes: &[Prefix]) -> Result<(), Memory>
    ensures { OnOk result (string_bytes out.new ≡ string_bytes out.old ++ flat_map prefix_text prefixes.now) }
{
    for prefix in prefixes {
        push(out, prefix_text(*prefix))?;
    }
    Ok(())
}

/// The text of a prefix.
pub fn prefix_text(prefix: Prefix) -> &'static str
    ensures { result.now ≡ prefix_text prefix }
{
    match prefix {
        Prefix::Array => "[]",
        Prefix::Map => "[string]",
        Prefix::Maybe => "?",
    }
}

/// The word of a core that is no body.
pub fn core_word(core: &Core) -> &str
    ensures { result.now ≡ core_word core.now }
{
    match core {
        Core::Bool => "bool",
        Core::Int => "int",
        Core::Float => "float",
        Core::Str => "string",
        Core::Object => "object",
        Core::Name(name) => name.as_str(),
        Core::Inline(_) => "",
    }
}
