// The words of calls.
ghost use Rattle.std.specs.Prelude.{◌≡◌, option_map};
ghost use Rattle.sheet_draft.specs.Outlines.{at_last_dot};

/// The name of an interface and that of a method, which stand before and behind the last dot of a
/// word.
pub fn at_last_dot(word: &str) -> Option<(&str, &str)>
    ensures { option_map (λ parts. (parts.0.now, parts.1.now)) result ≡ at_last_dot word.now }
{
    word.rsplit_once('.')
}
