// A text is cut into its items.
ghost use Rattle.std.specs.Prelude.{◌≡◌, ℕ, ◌+◌, ◌-◌, ◌<◌, ◌≤◌, length, take, drop, map, All, IfOk, MatchOption, IsUtf8};
ghost use Rattle.std.specs.List.{prefix_len};
ghost use Rattle.std.specs.Str.Lossy.{utf8_valid_len};
ghost use Rattle.std.specs.Char.{is_ascii_alphanumeric};
ghost use Rattle.idl_token.specs.Lex.{Bytes, Lexemes, Lex, LexAt, BadByteAt, lexeme, placed, first_item, is_blank, is_mark, is_word_byte, is_note_byte};
ghost use Rattle.idl_token.specs.declared.tokens.TokenFault.TheVariants as fault;

use crate::tokens::{Item, ItemKind, TokenFault};
use link_port::List;
use std::alloc::Global;

/// Gives the items of the text in order, each with its place.
pub fn items(alloc: Global, text: &[u8]) -> Result<List<Item<'_>>, TokenFault>
    ensures found { IfOk result (λ items. Lex (map lexeme items) text.now) }
    ensures places { IfOk result (λ items. LexAt (length text.now) (map placed items) text.now) }
    ensures only { IfOk result (λ items. (others : Lexemes) → Lex others text.now
        → others ≡ map lexeme items) }
    ensures slices { IfOk result (λ items. All (λ item.
        take (length item.text.now) (drop item.at text.now) ≡ item.text.now) items) }
    ensures utf8 { IfOk result (λ items. All (λ item. IsUtf8 item.text.now) items) }

    ensures not_utf8 { (at : ℕ) → result ≡ Err (fault.NotUtf8 at)
        → (IsUtf8 text.now → ⊥) × (at ≡ utf8_valid_len text.now) }
    ensures bad_byte { (at : ℕ) → result ≡ Err (fault.BadByte at)
        → IsUtf8 text.now × BadByteAt at text.now }
    ensures none { (at : ℕ) → result ≡ Err (fault.BadByte at)
        → (others : Lexemes) → Lex others text.now → ⊥ }
{
    if let Err(fault) = simdutf8::compat::from_utf8(text) {
        return Err(TokenFault::NotUtf8 {
            at: fault.valid_up_to() as u64,
        });
    }
    let mut found = List::new(alloc);
    let mut end = 0;
    loop {
        let at = blanks_end(text, end);
        if at == text.len() {
            return Ok(found);
        }
        let Some((kind, next)) = item_end(text, at) else {
            return Err(TokenFault::BadByte { at: at as u64 });
        };
        found.push(Item {
            kind,
            at: at as u64,
            text: &text[at..next],
        })?;
        end = next;
    }
}

/// Says that a text has at most one list of items.
pub fn one_list()
    ensures { (items others : Lexemes) (text : Bytes) → Lex items text → Lex others text
        → items ≡ others }
{}

// The kind of the item that begins at `at`, and where it ends.
fn item_end(text: &[u8], at: usize) -> Option<(ItemKind, usize)>
    requires { at < length text.now }
    ensures item { MatchOption result (first_item (drop at text.now) ≡ None) (λ found.
        first_item (drop at text.now)
        ≡ Some ((found.0, take (found.1 - at) (drop at text.now)), drop found.1 text.now)) }
    ensures within { MatchOption result (at ≤ at) (λ found.
        (at < found.1) × (found.1 ≤ length text.now)) }
{
    let byte = text[at];
    let after = at + 1;
    if begins_word(byte) {
        Some((ItemKind::Word, word_end(text, after)))
    } else if is_mark(byte) {
        Some((ItemKind::Mark, after))
    } else if byte == b'#' {
        Some((ItemKind::Note, note_end(text, after)))
    } else if byte == b'-' && after < text.len() && text[after] == b'>' {
        Some((ItemKind::Mark, after + 1))
    } else {
        None
    }
}

// Whether the byte begins a word.
fn begins_word(byte: u8) -> bool
    ensures { result ≡ is_ascii_alphanumeric byte }
{
    byte.is_ascii_alphanumeric()
}

// Whether the byte is a mark by itself.
fn is_mark(byte: u8) -> bool
    ensures { result ≡ is_mark byte }
{
    matches!(byte, b'(' | b')' | b',' | b':' | b'?' | b'[' | b']')
}

// Where the blanks from `at` on end.
fn blanks_end(text: &[u8], at: usize) -> usize
    requires { at ≤ length text.now }
    ensures end { result ≡ at + prefix_len is_blank (drop at text.now) }
    ensures within { result ≤ length text.now }
{
    let mut end = at;
    while end < text.len() && matches!(text[end], b' ' | b'\t' | b'\r' | b'\n') {
        end += 1;
    }
    end
}

// Where the word that goes on at `at` ends.
fn word_end(text: &[u8], at: usize) -> usize
    requires { at ≤ length text.now }
    ensures end { result ≡ at + prefix_len is_word_byte (drop at text.now) }
    ensures within { result ≤ length text.now }
{
    let mut end = at;
    while end < text.len()
        && (text[end].is_ascii_alphanumeric() || matches!(text[end], b'_' | b'.' | b'-'))
    {
        end += 1;
    }
    end
}

// Where the note that goes on at `at` ends.
fn note_end(text: &[u8], at: usize) -> usize
    requires { at ≤ length text.now }
    ensures end { result ≡ at + prefix_len is_note_byte (drop at text.now) }
    ensures within { result ≤ length text.now }
{
    let mut end = at;
    while end < text.len() && !matches!(text[end], b'\r' | b'\n') {
        end += 1;
    }
    end
}
