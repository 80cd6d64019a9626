// Places in a sheet.
ghost use Rattle.std.specs.Prelude.{◌≡◌, ◌++◌, codes, decimal, IfOk, string_bytes};
ghost use Rattle.sheet_draft.specs.Places.{place_text, spot_text};
ghost use Rattle.sheet_draft.specs.declared.places.Place.TheVariants as place;

use link_port::{Memory, Text};
use std::alloc::Global;
use std::fmt;

/// A place in a sheet. Interfaces and registers are counted from 0, in their order.
#[derive(Debug, Drop)]
pub enum Place {
    /// The members of the sheet's object, and their kinds.
    Top,
    /// A definition.
    Interface(u64),
    /// A register.
    Register(u64),
    /// A place in the rule of this name.
    Rule(Text, Spot),
}

/// A place in a rule. The first number is the branch, and the second the place of the guard or step in
/// it, all counted from 0.
#[derive(Debug, Clone, Copy, PartialEq, Eq)]
pub enum Spot {
    /// The rule's name, the branches and their members.
    Whole,
    /// The condition of a branch.
    When(u64),
    /// A guard.
    Guard(u64, u64),
    /// A step.
    Step(u64, u64),
    /// The outcome of a branch.
    Outcome(u64),
}

impl Place {
    /// The text of the place: `top`, `interface K`, `register K`, `rule X`, `rule X branch B when`,
    /// `rule X branch B guard K`, `rule X branch B step K` or `rule X branch B outcome`.
    pub fn text(&self, alloc: Global) -> Result<Text, Memory>
        ensures { IfOk result (λ text. text ≡ place_text self.now) }
    {
        let text = match self {
            Place::Top => String::from_str(alloc, "top")?,
            Place::Interface(k) => format!(in alloc; "interface {k}")?,
            Place::Register(k) => format!(in alloc; "register {k}")?,
            Place::Rule(name, spot) => rule_text(alloc, name, *spot)?,
        };
        Text::of(alloc, text.as_str())
    }
}

// The text of a place in a rule.
fn rule_text(alloc: Global, name: &Text, spot: Spot) -> Result<String, Memory>
    ensures { IfOk result (λ text. string_bytes text ≡ place_text (place.Rule name.now spot)) }
{
    let behind = spot_text(alloc, spot)?;
    let text = format!(in alloc; "rule {}{}", name.as_str(), behind.as_str())?;
    Ok(text)
}

// The text of a place in a rule, behind the rule's name.
fn spot_text(alloc: Global, spot: Spot) -> Result<String, Memory>
    ensures { IfOk result (λ text. string_bytes text ≡ spot_text spot) }
{
    match spot {
        Spot::Whole => Ok(String::new(alloc)),
        Spot::When(branch) => branch_text(alloc, branch, "when"),
        Spot::Guard(branch, k) => part_text(alloc, branch, "guard", k),
        Spot::Step(branch, k) => part_text(alloc, branch, "step", k),
        Spot::Outcome(branch) => branch_text(alloc, branch, "outcome"),
    }
}

// The text of what a branch has once.
fn branch_text(alloc: Global, branch: u64, what: &str) -> Result<String, Memory>
    ensures { IfOk result (λ text. string_bytes text ≡ codes " branch " ++ decimal branch ++ codes " " ++ what.now) }
{
    let text = format!(in alloc; " branch {branch} {what}")?;
    Ok(text)
}

// The text of what a branch has in a row.
fn part_text(alloc: Global, branch: u64, what: &str, k: u64) -> Result<String, Memory>
    ensures { IfOk result (λ text. string_bytes text
        ≡ codes " branch " ++ decimal branch ++ codes " " ++ what.now ++ codes " " ++ decimal k) }
{
    let text = format!(in alloc; " branch {branch} {what} {k}")?;
    Ok(text)
}

impl fmt::Display for Place {
    fn fmt<W: fmt::Write>(&self, f: &mut fmt::Formatter<W>) -> fmt::Result {
        match self {
            Place::Top => f.write_str("top"),
            Place::Interface(k) => write!(f, "interface {k}"),
            Place::Register(k) => write!(f, "register {k}"),
            Place::Rule(name, spot) => write!(f, "rule {}{spot}", name.as_str()),
        }
    }
}

impl fmt::Display for Spot {
    fn fmt<W: fmt::Write>(&self, f: &mut fmt::Formatter<W>) -> fmt::Result {
        match self {
            Spot::Whole => Ok(()),
            Spot::When(branch) => write!(f, " branch {branch} when"),
            Spot::Guard(branch, k) => write!(f, " branch {branch} guard {k}"),
            Spot::Step(branch, k) => write!(f, " branch {branch} step {k}"),
            Spot::Outcome(branch) => write!(f, " branch {branch} outcome"),
        }
    }
}
