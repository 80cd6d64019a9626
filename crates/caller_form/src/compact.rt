// Compact JSON without escapes, passed over byte by byte: what most replies are. Any other text is left to the reader
// of tokens.
ghost use Rattle.std.specs.Prelude.{◌≡◌, ◌≤◌, ◌<◌, ◌∷◌, ◌++◌, take, length, IfSome, IsTrue, Some, None, Ok};
ghost use Rattle.serde_json.specs.Data.{Data, Members, put};
ghost use Rattle.caller_form.specs.ReplyOf.{continues_of, error_of, parameters_of};
ghost use Rattle.caller_form.specs.Compact.{IsPlain, TakesValue, TakesMember, TakesItems, TakesMembers, TakesReply};
ghost use Rattle.caller_form.specs.Compact.{AreBare, IsOfSort, IsWord, TellsHead};

use crate::kinds::is_in_range;
use crate::members::MAX_DEPTH;
use json::is_number;
use simdutf8::compat;

// What a value is. Of a string nothing is told.
#[derive(Clone, Copy, Drop)]
pub enum Sort {
    Null,
    True,
    False,
    Text,
    Object,
    // A number or an array.
    Other,
}

// A value, and what stands behind it.
#[derive(Clone, Copy, Drop)]
struct Passed<'a> {
    sort: Sort,
    rest: &'a [u8],
}

// A member, and what stands behind it.
#[derive(Clone, Copy, Drop)]
struct Member<'a> {
    name: &'a [u8],
    sort: Sort,
    rest: &'a [u8],
}

// Whether another reply follows one without an error, where its text is compact.
pub fn compact_head(text: &str) -> Option<bool>
    ensures { IfSome result (λ continues. TellsHead text.now continues) }
{
    let inside = behind(text.as_bytes(), b'{')?;
    let (continues, rest) = take_reply(inside, MAX_DEPTH - 1)?;
    if rest.is_empty() {
        Some(continues)
    } else {
        None
    }
}

fn take_reply<'a>(text: &'a [u8], depth: usize) -> Option<(bool, &'a [u8])>
    ensures { IfSome result (λ r. TakesReply depth text.now r.0 r.1.now) }
{
    if let Some(rest) = behind(text, b'}') {
        return Some((false, rest));
    }
    let first = take_member(text, depth)?;
    let mut continues = with(false, first)?;
    let mut left = first.rest;
    'members: while let Some(next) = behind(left, b',') {
        let member = take_member(next, depth)?;
        continues = with(continues, member)?;
        left = member.rest;
    }
    let rest = behind(left, b'}')?;
    Some((continues, rest))
}

// Whether another reply follows, with one member more.
#[inline(always)]
fn with(continues: bool, member: Member<'_>) -> Option<bool>
    ensures { IfSome result (λ after. (ms : Members) (tree : Data) → AreBare continues ms
        → IsOfSort member.entry.sort tree → AreBare after (put member.entry.name.now tree ms)) }
{
    if member.name == b"continues".as_slice() {
        member.sort.flag()
    } else if member.name == b"error".as_slice() {
        if member.sort.is_null() {
            Some(continues)
        } else {
            None
        }
    } else if member.name == b"parameters".as_slice() {
        if member.sort.may_be_parameters() {
            Some(continues)
        } else {
            None
        }
    } else {
        Some(continues)
    }
}

impl Sort {
    // What `continues` tells.
    #[inline(always)]
    fn flag(self) -> Option<bool>
        ensures { IfSome result (λ flag. (tree : Data) → IsOfSort self tree → continues_of (Some tree) ≡ Ok flag) }
    {
        match self {
            Sort::Null | Sort::False => Some(false),
            Sort::True => Some(true),
            Sort::Text | Sort::Object | Sort::Other => None,
        }
    }

    #[inline(always)]
    fn is_null(self) -> bool
        ensures { IsTrue result → (tree : Data) → IsOfSort self tree → error_of (Some tree) ≡ Ok None }
    {
        match self {
            Sort::Null => true,
            _ => false,
        }
    }

    #[inline(always)]
    fn may_be_parameters(self) -> bool
        ensures { IsTrue result → (tree : Data) → IsOfSort self tree
            → (parameters : Data) × (parameters_of (Some tree) ≡ Ok parameters) }
    {
        match self {
            Sort::Null | Sort::Object => true,
            _ => false,
        }
    }
}

#[cycle(compact)]
fn take_value<'a>(text: &'a [u8], depth: usize) -> Option<Passed<'a>>
    ensures taken { IfSome result (λ r. TakesValue depth text.now r.sort r.rest.now) }
    ensures shorter { IfSome result (λ r. length r.rest.now < length text.now) }
{
    match *text.first()? {
        b'"' => take_string(text),
        b'{' => take_object(text, depth),
        b'[' => take_array(text, depth),
        b't' => take_word(text, "true", Sort::True),
        b'f' => take_word(text, "false", Sort::False),
        b'n' => take_word(text, "null", Sort::Null),
        _ => take_number(text),
    }
}

#[cycle(compact)]
fn take_object<'a>(text: &'a [u8], depth: usize) -> Option<Passed<'a>>
    ensures taken { IfSome result (λ r. TakesValue depth text.now r.sort r.rest.now) }
    ensures shorter { IfSome result (λ r. length r.rest.now < length text.now) }
{
    let inside = behind(text, b'{')?;
    if depth == 0 {
        return None;
    }
    let rest = take_members(inside, depth - 1)?;
    Some(Passed {
        sort: Sort::Object,
        rest,
    })
}

#[cycle(compact)]
fn take_array<'a>(text: &'a [u8], depth: usize) -> Option<Passed<'a>>
    ensures taken { IfSome result (λ r. TakesValue depth text.now r.sort r.rest.now) }
    ensures shorter { IfSome result (λ r. length r.rest.now < length text.now) }
{
    let inside = behind(text, b'[')?;
    if depth == 0 {
        return None;
    }
    let rest = take_items(inside, depth - 1)?;
    Some(Passed {
        sort: Sort::Other,
        rest,
    })
}

#[cycle(compact)]
fn take_items<'a>(text: &'a [u8], depth: usize) -> Option<&'a [u8]>
    ensures taken { IfSome result (λ rest. TakesItems depth text.now rest.now) }
    ensures shorter { IfSome result (λ rest. length rest.now < length text.now) }
{
    let closed = behind(text, b']');
    if closed.is_some() {
        return closed;
    }
    let mut left = take_value(text, depth)?.rest;
    'items: while let Some(next) = behind(left, b',') {
        left = take_value(next, depth)?.rest;
    }
    behind(left, b']')
}

#[cycle(compact)]
fn take_members<'a>(text: &'a [u8], depth: usize) -> Option<&'a [u8]>
    ensures taken { IfSome result (λ rest. TakesMembers depth text.now rest.now) }
    ensures shorter { IfSome result (λ rest. length rest.now < length text.now) }
{
    let closed = behind(text, b'}');
    if closed.is_some() {
        return closed;
    }
    let mut left = take_member(text, depth)?.rest;
    'members: while let Some(next) = behind(left, b',') {
        left = take_member(next, depth)?.rest;
    }
    behind(left, b'}')
}

#[cycle(compact)]
fn take_member<'a>(text: &'a [u8], depth: usize) -> Option<Member<'a>>
    ensures taken { IfSome result (λ r. TakesMember depth text.now r.name.now r.sort r.rest.now) }
    ensures shorter { IfSome result (λ r. length r.rest.now < length text.now) }
{
    let (name, rest) = take_quoted(text)?;
    let passed = take_value(behind(rest, b':')?, depth)?;
    Some(Member {
        name,
        sort: passed.sort,
        rest: passed.rest,
    })
}

fn take_string<'a>(text: &'a [u8]) -> Option<Passed<'a>>
    ensures taken { IfSome result (λ r. TakesValue 0 text.now r.sort r.rest.now) }
    ensures shorter { IfSome result (λ r. length r.rest.now < length text.now) }
{
    let (_, rest) = take_quoted(text)?;
    Some(Passed {
        sort: Sort::Text,
        rest,
    })
}

// What stands between quotes, without escapes, and what stands behind.
fn take_quoted<'a>(text: &'a [u8]) -> Option<(&'a [u8], &'a [u8])>
    ensures front { IfSome result (λ r. text.now ≡ 34 ∷ (r.0.now ++ 34 ∷ r.1.now)) }
    ensures plain { IfSome result (λ r. IsPlain r.0.now) }
{
    let inside = behind(text, b'"')?;
    let (quoted, left) = inside.split_at(plain_end(inside));
    let rest = behind(left, b'"')?;
    Some((quoted, rest))
}

// Where the first byte stands that ends a string or needs an escape.
fn plain_end(inside: &[u8]) -> usize
    ensures within { result ≤ length inside.now }
    ensures plain { IsPlain (take result inside.now) }
{
    let mut end = 0;
    'bytes: while end < inside.len() {
        match inside[end] {
            b'"' | b'\\' | 0..=31 => return end,
            _ => end += 1,
        }
    }
    end
}

fn take_word<'a>(text: &'a [u8], word: &str, sort: Sort) -> Option<Passed<'a>>
    requires { IsWord sort word.now }
    ensures taken { IfSome result (λ r. TakesValue 0 text.now r.sort r.rest.now) }
    ensures shorter { IfSome result (λ r. length r.rest.now < length text.now) }
{
    let rest = text.strip_prefix(word.as_bytes())?;
    Some(Passed { sort, rest })
}

fn take_number<'a>(text: &'a [u8]) -> Option<Passed<'a>>
    ensures taken { IfSome result (λ r. TakesValue 0 text.now r.sort r.rest.now) }
    ensures shorter { IfSome result (λ r. length r.rest.now < length text.now) }
{
    let (number, rest) = text.split_at(number_end(text));
    let number = compat::from_utf8(number).ok()?;
    if is_number(number) && is_in_range(number) {
        Some(Passed {
            sort: Sort::Other,
            rest,
        })
    } else {
        None
    }
}

// Where the bytes end that a number may have.
fn number_end(text: &[u8]) -> usize
    ensures { result ≤ length text.now }
{
    let mut end = 0;
    'bytes: while end < text.len() {
        match text[end] {
            b'0'..=b'9' | b'-' | b'+' | b'.' | b'e' | b'E' => end += 1,
            _ => return end,
        }
    }
    end
}

// What stands behind this byte, where it comes first.
#[inline(always)]
fn behind<'a>(text: &'a [u8], byte: u8) -> Option<&'a [u8]>
    ensures { IfSome result (λ rest. text.now ≡ byte ∷ rest.now) }
{
    match text.split_first() {
        Some((first, rest)) if *first == byte => Some(rest),
        _ => None,
    }
}
