// The forms of names.
ghost use Rattle.std.specs.Prelude.{◌≡◌, ◌-◌, ◌==◌, ◌||◌, length, slice_index};
ghost use Rattle.std.specs.List.{list_all};
ghost use Rattle.std.specs.Char.{is_ascii_alphabetic, is_ascii_alphanumeric, is_ascii_uppercase};
ghost use Rattle.idl_tree.specs.Names.{is_interface_name, is_member_name, is_field_name, is_label, is_run, parts};

/// Whether the word has the form of an interface's name: at least two parts joined by `.`, each of
/// letters, digits and `-`, beginning and ending with a letter or digit, the first with a letter.
pub fn is_interface_name(word: &str) -> bool
    ensures { result ≡ is_interface_name word.now }
{
    begins_with_letter(word) && count_labels(word) > 1 && has_labels(word)
}

/// Whether the word has the form of a member's name: `[A-Z][A-Za-z0-9]*`.
pub fn is_member_name(word: &str) -> bool
    ensures { result ≡ is_member_name word.now }
{
    begins_with_capital(word) && is_alphanumeric(word)
}

/// Whether the word has the form of a field's or an enum's name: `[A-Za-z](_?[A-Za-z0-9])*`. Words
/// such as `type` have it too.
pub fn is_field_name(word: &str) -> bool
    ensures { result ≡ is_field_name word.now }
{
    begins_with_letter(word) && has_runs(word)
}

// Whether the first byte is a letter of ASCII.
fn begins_with_letter(word: &str) -> bool
    ensures { result ≡ is_ascii_alphabetic (slice_index word.now 0) }
{
    match word.as_bytes().first() {
        Some(first) => first.is_ascii_alphabetic(),
        None => false,
    }
}

// Whether the first byte is an upper-case letter of ASCII.
fn begins_with_capital(word: &str) -> bool
    ensures { result ≡ is_ascii_uppercase (slice_index word.now 0) }
{
    match word.as_bytes().first() {
        Some(first) => first.is_ascii_uppercase(),
        None => false,
    }
}

// Whether all bytes are letters and digits of ASCII.
fn is_alphanumeric(word: &str) -> bool
    ensures { result ≡ list_all is_ascii_alphanumeric word.now }
{
    let bytes = word.as_bytes();
    bytes.iter().all(u8::is_ascii_alphanumeric)
}

// How many parts the dots leave.
fn count_labels(word: &str) -> usize
    ensures { result ≡ length (parts 46 word.now) }
{
    word.split('.').count()
}

// Whether each part between dots is a label.
fn has_labels(word: &str) -> bool
    ensures { result ≡ list_all is_label (parts 46 word.now) }
{
    word.split('.').all(is_label)
}

// Whether each part between underscores is a run of letters and digits.
fn has_runs(word: &str) -> bool
    ensures { result ≡ list_all is_run (parts 95 word.now) }
{
    word.split('_').all(is_run)
}

// Whether the part is letters and digits, and not empty.
fn is_run(part: &str) -> bool
    ensures { result ≡ is_run part.now }
{
    !part.is_empty() && is_alphanumeric(part)
}

// Whether the part begins and ends with a letter or digit, with letters, digits and `-` between.
fn is_label(part: &str) -> bool
    ensures { result ≡ is_label part.now }
{
    let bytes = part.as_bytes();
    let Some(first) = bytes.first() else {
        return false;
    };
    let last = bytes[bytes.len() - 1];
    first.is_ascii_alphanumeric() && last.is_ascii_alphanumeric() && has_label_bytes(bytes)
}

// Whether all bytes are letters, digits and `-`.
fn has_label_bytes(bytes: &[u8]) -> bool
    ensures { result ≡ list_all (λ b. is_ascii_alphanumeric b || b == 45) bytes.now }
{
    bytes.iter().all(is_label_byte)
}

fn is_label_byte(byte: &u8) -> bool
    ensures { result ≡ (is_ascii_alphanumeric byte.now || byte.now == 45) }
{
    byte.is_ascii_alphanumeric() || *byte == b'-'
}
