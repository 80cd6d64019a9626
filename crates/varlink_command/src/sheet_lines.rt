// The lines that tell why a file holds no sheet.
ghost use Rattle.std.specs.Prelude.{◌≡◌, ◌++◌, false, codes, decimal};
ghost use Rattle.link_port.specs.Flow.{IsAsBefore};
ghost use Rattle.sheet_draft.specs.Places.{place_text};
ghost use Rattle.sheet_draft.specs.declared.places.Place.TheVariants.{Rule};
ghost use Rattle.varlink_command.specs.FaultTexts.{refusal_text, sheet_text, wording};
ghost use Rattle.varlink_command.specs.Lines.{PutsAll};

use crate::fault_lines::{Wording, refusal};
use crate::faults::refusal_number;
use crate::pieces::put_texts;
use idl_grammar::IdlFault;
use itoa::Buffer;
use link_port::{Failed, Sink};
use sheet_form::{Place, SheetFault, Spot};

/// Writes the line that tells why a file holds no sheet: `varlink: `, the text, and a line feed. It takes
/// no memory.
///
/// Where the sink fails, a front of the line was written.
pub fn write_sheet_line<E: Sink>(faults: &mut E, why: &SheetFault) -> Result<(), Failed>
    requires { E.finished faults.old ≡ false }
    ensures all { PutsAll (E.written faults.old) (E.written faults.new)
        (E.write_faults faults.old) (E.write_faults faults.new) result
        (codes "varlink: " ++ sheet_text why.now ++ codes "\n") }
    ensures other { IsAsBefore (E.left faults.old) (E.left faults.new)
        (E.read_faults faults.old) (E.read_faults faults.new) }
    ensures unfinished { E.finished faults.new ≡ false }
{
    match why {
        SheetFault::NotJson => put_texts(faults, &["varlink: not JSON\n"]),
        SheetFault::Shape { place } => put_place(faults, "shape at ", place),
        SheetFault::Idl { which, fault } => put_refusal(faults, "interface ", *which, fault),
        SheetFault::Reserved { which } => {
            put_numbered(faults, "interface ", *which, " is reserved")
        }
        SheetFault::TwiceInterface { which } => {
            put_numbered(faults, "interface ", *which, " stands twice")
        }
        SheetFault::Scope { register } => {
            put_numbered(faults, "register ", *register, " has no scope")
        }
        SheetFault::RegisterText { register, fault } => {
            put_refusal(faults, "register ", *register, fault)
        }
        SheetFault::Float { place } => put_place(faults, "float at ", place),
        SheetFault::Initial { register } => {
            put_numbered(faults, "register ", *register, " has no initial value")
        }
        SheetFault::NoSuchMethod { rule } => {
            put_texts(faults, &["varlink: no method ", rule.as_str(), "\n"])
        }
        SheetFault::NoSuchRegister { place } => put_place(faults, "no register at ", place),
        SheetFault::IllTyped { place } => put_place(faults, "ill typed at ", place),
        SheetFault::Memory => put_texts(faults, &["varlink: out of memory\n"]),
    }
}

// A line with a number.
fn put_numbered<'x, E: Sink>(
    faults: &mut E,
    before: &'x str,
    number: u64,
    behind: &'x str,
) -> Result<(), Failed>
    requires { E.finished faults.old ≡ false }
    ensures all { PutsAll (E.written faults.old) (E.written faults.new)
        (E.write_faults faults.old) (E.write_faults faults.new) result
        (codes "varlink: " ++ before.now ++ decimal number ++ behind.now ++ codes "\n") }
    ensures other { IsAsBefore (E.left faults.old) (E.left faults.new)
        (E.read_faults faults.old) (E.read_faults faults.new) }
    ensures unfinished { E.finished faults.new ≡ false }
{
    let mut digits = Buffer::new();
    put_texts(
        faults,
        &["varlink: ", before, digits.format(number), behind, "\n"],
    )
}

// A line with a number and why a definition or a type is refused.
fn put_refusal<'x, E: Sink>(
    faults: &mut E,
    before: &'x str,
    number: u64,
    why: &'x IdlFault,
) -> Result<(), Failed>
    requires { E.finished faults.old ≡ false }
    ensures all { PutsAll (E.written faults.old) (E.written faults.new)
        (E.write_faults faults.old) (E.write_faults faults.new) result
        (codes "varlink: " ++ before.now ++ decimal number ++ codes ": " ++ refusal_text why.now ++ codes "\n") }
    ensures other { IsAsBefore (E.left faults.old) (E.left faults.new)
        (E.read_faults faults.old) (E.read_faults faults.new) }
    ensures unfinished { E.finished faults.new ≡ false }
{
    let mut place = Buffer::new();
    let mut digits = Buffer::new();
    let text = refusal(why, digits.format(refusal_number(why)));
    put_wording(faults, before, place.format(number), text)
}

// A line with a number, given by its digits, and a text.
fn put_wording<'x, E: Sink>(
    faults: &mut E,
    before: &'x str,
    number: &'x str,
    text: Wording<'x>,
) -> Result<(), Failed>
    requires { E.finished faults.old ≡ false }
    ensures all { PutsAll (E.written faults.old) (E.written faults.new)
        (E.write_faults faults.old) (E.write_faults faults.new) result
        (codes "varlink: " ++ before.now ++ number.now ++ codes ": " ++ wording text.entry ++ codes "\n") }
    ensures other { IsAsBefore (E.left faults.old) (E.left faults.new)
        (E.read_faults faults.old) (E.read_faults faults.new) }
    ensures unfinished { E.finished faults.new ≡ false }
{
    put_texts(
        faults,
        &[
            "varlink: ",
            before,
            number,
            ": ",
            text.before,
            text.middle,
            text.behind,
            "\n",
        ],
    )
}

// A line with a place of the sheet.
fn put_place<'x, E: Sink>(faults: &mut E, before: &'x str, place: &'x Place) -> Result<(), Failed>
    requires { E.finished faults.old ≡ false }
    ensures all { PutsAll (E.written faults.old) (E.written faults.new)
        (E.write_faults faults.old) (E.write_faults faults.new) result
        (codes "varlink: " ++ before.now ++ place_text place.now ++ codes "\n") }
    ensures other { IsAsBefore (E.left faults.old) (E.left faults.new)
        (E.read_faults faults.old) (E.read_faults faults.new) }
    ensures unfinished { E.finished faults.new ≡ false }
{
    match place {
        Place::Top => put_texts(faults, &["varlink: ", before, "top\n"]),
        Place::Interface(k) => put_counted(faults, before, "interface ", *k),
        Place::Register(k) => put_counted(faults, before, "register ", *k),
        Place::Rule(name, spot) => put_rule(faults, before, name.as_str(), *spot),
    }
}

// A line that ends with the number of an interface or a register.
fn put_counted<'x, E: Sink>(
    faults: &mut E,
    before: &'x str,
    what: &'x str,
    k: u64,
) -> Result<(), Failed>
    requires { E.finished faults.old ≡ false }
    ensures all { PutsAll (E.written faults.old) (E.written faults.new)
        (E.write_faults faults.old) (E.write_faults faults.new) result
        (codes "varlink: " ++ before.now ++ what.now ++ decimal k ++ codes "\n") }
    ensures other { IsAsBefore (E.left faults.old) (E.left faults.new)
        (E.read_faults faults.old) (E.read_faults faults.new) }
    ensures unfinished { E.finished faults.new ≡ false }
{
    let mut digits = Buffer::new();
    put_texts(faults, &["varlink: ", before, what, digits.format(k), "\n"])
}

// A line with a place in a rule.
fn put_rule<'x, E: Sink>(
    faults: &mut E,
    before: &'x str,
    name: &'x str,
    spot: Spot,
) -> Result<(), Failed>
    requires { E.finished faults.old ≡ false }
    ensures all { PutsAll (E.written faults.old) (E.written faults.new)
        (E.write_faults faults.old) (E.write_faults faults.new) result
        (codes "varlink: " ++ before.now ++ place_text (Rule name.now spot) ++ codes "\n") }
    ensures other { IsAsBefore (E.left faults.old) (E.left faults.new)
        (E.read_faults faults.old) (E.read_faults faults.new) }
    ensures unfinished { E.finished faults.new ≡ false }
{
    match spot {
        Spot::Whole => put_texts(faults, &["varlink: ", before, "rule ", name, "\n"]),
        Spot::When(branch) => put_branch(faults, before, name, branch, " when"),
        Spot::Guard(branch, k) => put_part(faults, before, name, branch, " guard ", k),
        Spot::Step(branch, k) => put_part(faults, before, name, branch, " step ", k),
        Spot::Outcome(branch) => put_branch(faults, before, name, branch, " outcome"),
    }
}

// A line with what a branch has once.
fn put_branch<'x, E: Sink>(
    faults: &mut E,
    before: &'x str,
    name: &'x str,
    branch: u64,
    what: &'x str,
) -> Result<(), Failed>
    requires { E.finished faults.old ≡ false }
    ensures all { PutsAll (E.written faults.old) (E.written faults.new)
        (E.write_faults faults.old) (E.write_faults faults.new) result
        (codes "varlink: " ++ before.now ++ codes "rule " ++ name.now
        ++ codes " branch " ++ decimal branch ++ what.now ++ codes "\n") }
    ensures other { IsAsBefore (E.left faults.old) (E.left faults.new)
        (E.read_faults faults.old) (E.read_faults faults.new) }
    ensures unfinished { E.finished faults.new ≡ false }
{
    let mut digits = Buffer::new();
    put_texts(
        faults,
        &[
            "varlink: ",
            before,
            "rule ",
            name,
            " branch ",
            digits.format(branch),
            what,
            "\n",
        ],
    )
}

// A line with what a branch has in a row.
fn put_part<'x, E: Sink>(
    faults: &mut E,
    before: &'x str,
    name: &'x str,
    branch: u64,
    what: &'x str,
    k: u64,
) -> Result<(), Failed>
    requires { E.finished faults.old ≡ false }
    ensures all { PutsAll (E.written faults.old) (E.written faults.new)
        (E.write_faults faults.old) (E.write_faults faults.new) result
        (codes "varlink: " ++ before.now ++ codes "rule " ++ name.now
        ++ codes " branch " ++ decimal branch ++ what.now ++ decimal k ++ codes "\n") }
    ensures other { IsAsBefore (E.left faults.old) (E.left faults.new)
        (E.read_faults faults.old) (E.read_faults faults.new) }
    ensures unfinished { E.finished faults.new ≡ false }
{
    let (mut digits, mut place) = (Buffer::new(), Buffer::new());
    let branch = digits.format(branch);
    let k = place.format(k);
    put_texts(
        faults,
        &[
            "varlink: ",
            before,
            "rule ",
            name,
            " branch ",
            branch,
            what,
            k,
            "\n",
        ],
    )
}
