// Words, marks and notes as the reader tells them apart.
ghost use Rattle.std.specs.Prelude.{◌≡◌, IfOk, IsUtf8};
ghost use Rattle.idl_rules.specs.Settle.{is_keyword, is_gap, trimmed};
ghost use Rattle.idl_rules.specs.Reading.{keyword_of, core_of, mark_of, one_mark};

use idl_rules::{Keyword, Mark};
use idl_tree::{Core, is_member_name};
use link_port::{Memory, Text};
use std::alloc::Global;

/// The word that begins a member.
pub fn keyword_of(word: &str) -> Option<Keyword>
    ensures { result ≡ keyword_of word.now }
{
    match word {
        "type" => Some(Keyword::Types),
        "method" => Some(Keyword::Methods),
        "error" => Some(Keyword::Errors),
        _ => None,
    }
}

/// Whether the word begins a definition or a member.
pub fn is_keyword(word: &str) -> bool
    ensures { result ≡ is_keyword word.now }
{
    word == "interface" || word == "type" || word == "method" || word == "error"
}

/// The type that is one word.
pub fn core_of(alloc: Global, word: &str) -> Result<Option<Core>, Memory>
    ensures { IfOk result (λ core. core ≡ core_of word.now) }
{
    match word {
        "bool" => Ok(Some(Core::Bool)),
        "int" => Ok(Some(Core::Int)),
        "float" => Ok(Some(Core::Float)),
        "string" => Ok(Some(Core::Str)),
        "object" => Ok(Some(Core::Object)),
        _ if is_member_name(word) => Ok(Some(Core::Name(Text::of(alloc, word)?))),
        _ => Ok(None),
    }
}

/// The mark of this spelling.
pub fn mark_of(spelling: &[u8]) -> Option<Mark>
    ensures { result ≡ mark_of spelling.now }
{
    match spelling {
        [byte] => one_mark(*byte),
        [b'-', b'>'] => Some(Mark::Arrow),
        _ => None,
    }
}

fn one_mark(byte: u8) -> Option<Mark>
    ensures { result ≡ one_mark byte }
{
    match byte {
        b'(' => Some(Mark::Open),
        b')' => Some(Mark::Close),
        b',' => Some(Mark::Comma),
        b':' => Some(Mark::Colon),
        b'?' => Some(Mark::Question),
        b'[' => Some(Mark::LeftSquare),
        b']' => Some(Mark::RightSquare),
        _ => None,
    }
}

/// The same bytes as a text.
pub fn text_of(bytes: &[u8]) -> &str
    requires { IsUtf8 bytes.now }
    ensures { result.now ≡ bytes.now }
{
    match std::str::from_utf8(bytes) {
        Ok(text) => text,
        Err(_) => "",
    }
}

/// The text without the spaces and tabs at its end.
pub fn trimmed(text: &[u8]) -> &[u8]
    ensures { result.now ≡ trimmed text.now }
{
    let mut end = text.len();
    while end > 0 && is_gap(text[end - 1]) {
        end -= 1;
    }
    &text[..end]
}

fn is_gap(byte: u8) -> bool
    ensures { result ≡ is_gap byte }
{
    matches!(byte, b' ' | b'\t')
}
