// The parts of values.
ghost use Rattle.std.specs.Prelude.{◌≡◌};
ghost use Rattle.std.specs.Option.{option_copied};
ghost use Rattle.rule_values.specs.Parts as parts;
ghost use Rattle.rule_values.specs.Meanings.{value_at};

use link_port::Text;
use typed_value::Val;

/// The number that a value is.
pub fn int_of(val: &Val) -> Option<i64>
    ensures { result ≡ parts.int_of val.now }
{
    match val {
        Val::Int(number) => Some(*number),
        _ => None,
    }
}

/// The items of an array.
pub fn items_of(val: &Val) -> Option<&[Val]>
    ensures { option_copied result ≡ parts.items_of val.now }
{
    match val {
        Val::Items(items) => Some(items.as_slice()),
        _ => None,
    }
}

/// The entries of a map, in the byte order of their keys.
pub fn entries_of(val: &Val) -> Option<&[(Text, Val)]>
    ensures { option_copied result ≡ parts.entries_of val.now }
{
    match val {
        Val::Map(entries) => Some(entries.as_slice()),
        _ => None,
    }
}

/// The fields of a struct, in declared order.
pub fn fields_of(val: &Val) -> Option<&[Val]>
    ensures { option_copied result ≡ parts.fields_of val.now }
{
    match val {
        Val::Struct(values) => Some(values.as_slice()),
        _ => None,
    }
}

/// The field of a struct at a place.
pub fn field_at(val: &Val, place: u64) -> Option<&Val>
    ensures { option_copied result ≡ parts.field_at place val.now }
{
    match fields_of(val) {
        Some(values) => values.get(place as usize),
        None => None,
    }
}

/// The value to which a path of fields leads.
pub fn at_path<'x>(val: &'x Val, path: &[u64]) -> Option<&'x Val>
    ensures { option_copied result ≡ parts.at_path path.now val.now }
{
    let mut at = val;
    for place in path {
        match field_at(at, *place) {
            Some(field) => at = field,
            None => return None,
        }
    }
    Some(at)
}

/// The value of a map at a key.
pub fn value_at<'x>(entries: &'x [(Text, Val)], key: &str) -> Option<&'x Val>
    ensures { option_copied result ≡ value_at key.now entries.now }
{
    for entry in entries {
        if key == entry.0.as_str() {
            return Some(&entry.1);
        }
    }
    None
}
