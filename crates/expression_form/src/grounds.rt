// What the expressions of a rule are formed by.
ghost use Rattle.expression_form.specs.Places.{Finds};

use crate::places::Places;
use sheet_rules::{Register, Standing, Typ, with_item};

/// What the expressions of a rule are formed by: what they are typed by, and where registers stand.
#[derive(Clone, Copy)]
pub struct Ground<'x> {
    /// What they are typed by.
    pub standing: Standing<'x>,
    /// Where the registers of each name stand.
    pub places: &'x Places,
    pub ghost finds: { Finds places.now.by_name standing.registers.now },
}

impl<'x> Ground<'x> {
    ghost use Rattle.std.specs.Prelude.{◌≡◌, Some};
    ghost use Rattle.sheet_rules.specs.Outcomes.{with_item};
    ghost use Rattle.sheet_rules.specs.Views.{typ_of, setting_of};
    ghost use Rattle.expression_form.specs.References.{register_place};

    /// The place of the register of that name.
    pub fn register(&self, name: &str) -> Option<usize>
        ensures { result ≡ register_place self.now.standing.registers.now name.now }
    {
        self.places.place(name)
    }

    /// The same, with a stream's item of that type.
    pub fn with_item(&self, item: Typ<'x>) -> Ground<'x>
        ensures { setting_of result.standing
            ≡ with_item (setting_of self.now.standing) (Some (typ_of item.entry)) }
    {
        Ground {
            standing: with_item(&self.standing, item),
            places: self.places,
        }
    }
}
