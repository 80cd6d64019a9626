// The words of calls.
ghost use Rattle.std.specs.Prelude.{◌≡◌, option_map};
ghost use Rattle.resolver_core.specs.Words.{at_dot};

/// The name of an interface and that of a method, which stand before and behind the last dot of a
/// word.
pub fn at_dot(word: &str) -> Option<(&str, &str)>
    ensures { option_map (λ parts. (parts.0.now, parts.1.now)) result ≡ at_dot word.now }
{
    word.rsplit_once('.')
}
