// The line that tells a verdict.
ghost use Rattle.std.specs.Prelude.{◌≡◌, ◌++◌, ◌∷◌, [], codes, IfOk, OnOk};
ghost use Rattle.std.specs.String.{string_bytes};
ghost use Rattle.idl_compat.specs.Lines.{line_of, side_name, worded};

use crate::verdicts::{Side, Verdict};
use link_port::{Memory, Text};
use std::alloc::Global;

/// The line that tells a verdict, without an end of line: `compatible`, `other name`, `no method X`, or
/// `differs at X S` with the path's words, each behind a space.
pub fn line(alloc: Global, verdict: &Verdict) -> Result<Text, Memory>
    ensures { IfOk result (λ text. text ≡ line_of verdict.now) }
{
    match verdict {
        Verdict::Compatible => Text::of(alloc, "compatible"),
        Verdict::OtherName => Text::of(alloc, "other name"),
        Verdict::NoMethod(name) => joined(alloc, "no method ", name.as_str()),
        Verdict::Differs { member, side, path } => {
            differs(alloc, member.as_str(), *side, path.as_slice())
        }
    }
}

fn joined(alloc: Global, front: &str, back: &str) -> Result<Text, Memory>
    ensures { IfOk result (λ text. text ≡ front.now ++ back.now) }
{
    let mut line = String::from_str(alloc, front)?;
    line.push_str(back)?;
    Text::of(alloc, line.as_str())
}

fn differs(alloc: Global, member: &str, side: Side, path: &[Text]) -> Result<Text, Memory>
    ensures { IfOk result (λ text. text
        ≡ codes "differs at " ++ member.now ++ codes " " ++ side_name side ++ worded path.now) }
{
    let mut line = String::from_str(alloc, "differs at ")?;
    line.push_str(member)?;
    line.push_str(" ")?;
    line.push_str(side_name(side))?;
    for word in path {
        add_word(&mut line, word.as_str())?;
    }
    Text::of(alloc, line.as_str())
}

fn add_word(line: &mut String, word: &str) -> Result<(), Memory>
    ensures { OnOk result (string_bytes line.new ≡ string_bytes line.old ++ codes " " ++ word.now) }
{
    line.push_str(" ")?;
    line.push_str(word)?;
    Ok(())
}

fn side_name(side: Side) -> &'static str
    ensures { result.now ≡ side_name side }
{
    match side {
        Side::Input => "input",
        Side::Output => "output",
        Side::Error => "error",
    }
}
