//! A board, which gains a value at each request.
use idl_tree::Checked;
use link_port::{List, Memory};
use std::alloc::Global;
use std::sync::Arc;
use turn_desk::Object;
use typed_value::{Val, copy, weight};

/// A checked definition, which other boards may share, and values.
#[derive(Drop)]
pub struct Board {
    pub sheet: Arc<Checked, Global>,
    pub values: List<Val>,
}

impl Object for Board {
    type Request = Val;

    type Reply = u64;

    ghost use Rattle.std.specs.Prelude.{ℕ, [], ◌∷◌, ◌++◌, ◌+◌, ◌^◌, length, min};
    ghost use Rattle.typed_value.specs.Sizes.{weight_of};

    ghost good = { λ board value. Unit {0} };

    ghost after = { λ board value. record board { values = board.values ++ value ∷ [] } };

    ghost answer = { λ board value. length board.values + 1 };

    ghost weigh = { λ value. min (weight_of value) (2 ^ 63) };

    ghost lasting = { λ s q r h. ((λ x. x), λ x. x) };

    fn step(&mut self, alloc: Global, request: &Val) -> Result<u64, Memory> {
        let value = copy(alloc, request)?;
        self.values.push(value)?;
        Ok(self.values.len())
    }

    fn weight(&self, request: &Val) -> u64 {
        weight(request)
    }
}
