// Numbers among words.
ghost use Rattle.std.specs.Prelude.{◌≡◌, ◌≤◌, suc, nat_lt, IfSome, if◌then◌else◌, Some, None};
ghost use Rattle.network_words.specs.Numbers.{number_to};

/// The number of this decimal text, without a sign and without a leading zero unless it is 0, where it is
/// from 1 to `most`.
pub fn number_to(most: u64, text: &str) -> Option<u64>
    ensures is { result ≡ number_to most text.now }
    ensures within { IfSome result (λ number. number ≤ most) }
{
    if text.starts_with('+') || text.starts_with('0') {
        return None;
    }
    match text.parse::<u64>() {
        Ok(number) => up_to(most, number),
        Err(_) => None,
    }
}

// The number, where it is at most this one.
fn up_to(most: u64, number: u64) -> Option<u64>
    ensures is { result ≡ (if nat_lt number (suc most) then Some number else None) }
    ensures within { IfSome result (λ number. number ≤ most) }
{
    if number <= most { Some(number) } else { None }
}
