// Values of a JSON text, passed over: of each its kind alone is told.
ghost use Rattle.std.specs.Prelude.{◌≡◌, ◌<◌, ◌≤◌, ◌==◌, ◌∷◌, true, false, length, slice_index, is_some, IsTrue, OnOk};
ghost use Rattle.std.specs.Float.{float_is_finite, binary64};
ghost use Rattle.fast_float.specs.Text.{nearest};
ghost use Rattle.json.specs.Reads.{token_of};
ghost use Rattle.serde_json.specs.Read.{number_of, number_from};
ghost use Rattle.caller_form.specs.Kinds.{Passes, PassesAll, items_at, members_at};

use fast_float::Numeral;
use json::{Invalid, Reader, Token};

// What a value is, as far as the members of a reply are told apart.
#[derive(Clone, Copy, Drop)]
pub enum Kind<'a> {
    Null,
    Flag(bool),
    Text(&'a str),
    Object,
    // A number or an array.
    Other,
}

// Passes over a value. Arrays and objects may nest `depth` deep.
#[cycle(pass)]
#[inline(always)]
pub fn pass_value<'a>(reader: &mut Reader<'a>, depth: usize) -> Result<Kind<'a>, Invalid>
    ensures passed { Passes depth reader.old result reader.new }
    ensures shorter { OnOk result (length reader.new < length reader.old) }
{
    let token = reader.next().ok_or(Invalid)?;
    pass_token(reader, token, depth)
}

// Passes over the value that begins with this token.
#[cycle(pass)]
#[inline(always)]
pub fn pass_token<'a>(
    reader: &mut Reader<'a>,
    token: Token<'a>,
    depth: usize,
) -> Result<Kind<'a>, Invalid>
    ensures passed { Passes depth (token_of token.entry ∷ reader.old) result reader.new }
    ensures shorter { OnOk result (length reader.new ≤ length reader.old) }
{
    match token {
        Token::Null => Ok(Kind::Null),
        Token::Bool(flag) => Ok(Kind::Flag(flag)),
        Token::String(text) => Ok(Kind::Text(text)),
        Token::Number(text) => if is_in_range(text) {
            Ok(Kind::Other)
        } else {
            Err(Invalid)
        },
        Token::BeginArray => {
            if depth == 0 {
                return Err(Invalid);
            }
            pass_items(reader, depth - 1)?;
            Ok(Kind::Other)
        }
        Token::BeginObject => {
            if depth == 0 {
                return Err(Invalid);
            }
            pass_members(reader, depth - 1)?;
            Ok(Kind::Object)
        }
        Token::EndObject | Token::EndArray | Token::Key(_) | Token::Bad => Err(Invalid),
    }
}

#[cycle(pass)]
#[inline(never)]
fn pass_items(reader: &mut Reader<'_>, depth: usize) -> Result<(), Invalid>
    ensures passed { PassesAll (items_at depth reader.old) result reader.new }
    ensures shorter { OnOk result (length reader.new < length reader.old) }
{
    'items: while !reader.take_end_array() {
        pass_value(reader, depth)?;
    }
    Ok(())
}

#[cycle(pass)]
#[inline(never)]
fn pass_members(reader: &mut Reader<'_>, depth: usize) -> Result<(), Invalid>
    ensures passed { PassesAll (members_at depth reader.old) result reader.new }
    ensures shorter { OnOk result (length reader.new < length reader.old) }
{
    'members: while let Some(_) = reader.next_key()? {
        pass_value(reader, depth)?;
    }
    Ok(())
}

// Whether the number of this text is in range: an integer of 64 bits, or nearest to a finite float.
pub fn is_in_range(text: &str) -> bool
    ensures { result ≡ is_some (number_of text.now) }
{
    let bytes = text.as_bytes();
    if has_minus(bytes) {
        is_in_range_below(&Numeral::scan(&bytes[1..]))
    } else {
        is_in_range_above(&Numeral::scan(bytes))
    }
}

fn has_minus(bytes: &[u8]) -> bool
    ensures value { result ≡ (slice_index bytes.now 0 == 45) }
    ensures some { IsTrue result → 0 < length bytes.now }
{
    !bytes.is_empty() && bytes[0] == b'-'
}

fn is_in_range_above(numeral: &Numeral<'_>) -> bool
    ensures { result ≡ is_some (number_from false numeral.now) }
{
    match numeral.to_u64() {
        Some(_) => true,
        None => is_finite(false, numeral),
    }
}

fn is_in_range_below(numeral: &Numeral<'_>) -> bool
    ensures { result ≡ is_some (number_from true numeral.now) }
{
    if let Some(number) = numeral.to_i64(true) {
        if number < 0 {
            return true;
        }
    }
    is_finite(true, numeral)
}

fn is_finite(negative: bool, numeral: &Numeral<'_>) -> bool
    ensures { result ≡ float_is_finite (nearest binary64 negative numeral.now) }
{
    numeral.to_float::<f64>(negative).is_finite()
}
