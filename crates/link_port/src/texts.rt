// UTF-8 texts that contracts see as lists of bytes.
ghost use Rattle.std.specs.Prelude.{◌≡◌, ◌==◌, IfOk, IsUtf8, length};
ghost use Rattle.std.specs.Cmp.Lexicographic.{pointwise};
ghost use Rattle.std.specs.Cmp.Rules.{comparing};
ghost use Rattle.std.proofs.Common.{rules};

use crate::refusals::Memory;
use std::alloc::Global;
use std::marker::Model;

/// A UTF-8 text, which contracts see as the list of its bytes.
#[derive(Debug, Drop)]
pub struct Text {
    inner: String,
}

impl Model for Text {
    ghost use Rattle.std.specs.Prelude.{List, ℕ};
    ghost use Rattle.std.specs.String.{string_bytes};

    ghost Value = { List ℕ };

    ghost view = { λ text. string_bytes text.inner };
}

impl Text {
    /// Copies a text.
    pub fn of(alloc: Global, text: &str) -> Result<Text, Memory>
        ensures bytes { IfOk result (λ copy. copy ≡ text.now) }
        ensures utf8 { IfOk result (λ copy. IsUtf8 copy) }
    {
        Ok(Text {
            inner: String::from_str(alloc, text)?,
        })
    }

    /// Lends the text.
    pub fn as_str(&self) -> &str
        ensures { result.now ≡ self.now }
    {
        self.inner.as_str()
    }

    /// The number of its bytes.
    pub fn len(&self) -> u64
        ensures { result ≡ length self.now }
    {
        self.inner.len() as u64
    }
}

impl PartialEq for Text {
    ghost eq = { pointwise ◌==◌ };

    ghost laws = { Prim.search (comparing, rules) };

    fn eq(&self, other: &Text) -> bool {
        self.as_str() == other.as_str()
    }
}

impl Eq for Text {
    ghost laws = { Prim.search (comparing, rules) };
}
