// JSON values that contracts see as their trees.
ghost use Rattle.std.specs.Prelude.{◌≡◌};
ghost use Rattle.serde_json.specs.View.{view};
ghost use Rattle.link_port.specs.SoundTrees.{HasUtf8};

use std::marker::Model;

/// A JSON value (RFC 8259), which contracts see as its tree.
#[derive(Drop)]
pub struct Value {
    inner: serde_json::Value,
}

impl Model for Value {
    ghost use Rattle.serde_json.specs.Data.{Data};
    ghost use Rattle.link_port.specs.DataCode.{coded_data};

    ghost Value = { Data };

    ghost coded = { coded_data };

    ghost use Rattle.serde_json.specs.View as json;

    ghost view = { λ value. json.view value.inner };
}

impl Value {
    /// Wraps a JSON value. It takes no memory.
    pub fn of(inner: serde_json::Value) -> Value
        ensures tree { result ≡ view inner }
        ensures utf8 { HasUtf8 result }
    {
        Value { inner }
    }

    /// Lends the JSON value.
    pub fn inner(&self) -> &serde_json::Value
        ensures { view result.now ≡ self.now }
    {
        &self.inner
    }

    /// Gives the JSON value back.
    pub fn into_inner(self) -> serde_json::Value
        ensures { view result ≡ self }
    {
        let Value { inner } = self;
        inner
    }
}
