// The comparison of two definitions.
ghost use Rattle.std.specs.Prelude.{◌≡◌, ◌↔◌, not, Some, None, IfOk};
ghost use Rattle.std.specs.Str.{bytes_eq};
ghost use Rattle.idl_compat.specs.Both.{AreWithin, AreOf};
ghost use Rattle.idl_compat.specs.Order.{Tells, MayReplace, Compared, comparisons_of_method, comparisons_of_error, of_methods, of_errors};
ghost use Rattle.idl_compat.specs.declared.verdicts.Verdict.TheVariants.{Compatible, Differs};

use crate::both::Both;
use crate::verdicts::{Side, Verdict};
use idl_tree::{Checked, Member, Part};
use link_port::{List, Memory, Text};
use std::alloc::Global;

/// Whether the new definition can take the place of the old one. `Compatible` comes exactly where the
/// interface names are equal, every method of the old is in the new, each value of an old method's
/// parameters reads by the new ones, and each value of a new reply, and of a new error that the old has
/// too, by the old one. The refusals come in this order: `OtherName`; for the old definition's methods in
/// order `NoMethod`, `Differs` on the input, `Differs` on the output; for its errors in order `Differs`.
/// The path leads to a part that the reading type refuses.
pub fn compare(alloc: Global, old: &Checked, new: &Checked) -> Result<Verdict, Memory>
    ensures told { IfOk result (Tells old.now new.now) }
    ensures compatible { IfOk result (λ verdict. (verdict ≡ Compatible) ↔ MayReplace old.now new.now) }
{
    if has_other_name(old, new) {
        return Ok(Verdict::OtherName);
    }
    let mut both = Both::of(alloc, old, new)?;
    let members = old.tree().members.as_slice();
    match methods(alloc, &mut both, members)? {
        Some(verdict) => Ok(verdict),
        None => match errors(alloc, &mut both, members)? {
            Some(verdict) => Ok(verdict),
            None => Ok(Verdict::Compatible),
        },
    }
}

fn has_other_name(old: &Checked, new: &Checked) -> bool
    ensures { result ≡ not (bytes_eq old.now.name new.now.name) }
{
    old.tree().name.as_str() != new.tree().name.as_str()
}

// What differs in the methods among these members of the old definition.
fn methods<'a>(
    alloc: Global,
    both: &mut Both<'a>,
    members: &'a [Member],
) -> Result<Option<Verdict>, Memory>
    requires { AreWithin both.old }
    ensures compared { IfOk result (Compared (of_methods both.old.first.scope.now both.old.second.scope.now members.now)) }
    ensures within { IfOk result (λ found. found ≡ None → AreWithin both.new) }
    ensures of { IfOk result (λ found. AreOf both.new both.old.first.scope.now both.old.second.scope.now) }
{
    for member in members {
        match method(alloc, both, member)? {
            Some(verdict) => return Ok(Some(verdict)),
            None => {}
        }
    }
    Ok(None)
}

// What differs in the errors among these members of the old definition.
fn errors<'a>(
    alloc: Global,
    both: &mut Both<'a>,
    members: &'a [Member],
) -> Result<Option<Verdict>, Memory>
    requires { AreWithin both.old }
    ensures compared { IfOk result (Compared (of_errors both.old.first.scope.now both.old.second.scope.now members.now)) }
    ensures within { IfOk result (λ found. found ≡ None → AreWithin both.new) }
    ensures of { IfOk result (λ found. AreOf both.new both.old.first.scope.now both.old.second.scope.now) }
{
    for member in members {
        match error(alloc, both, member)? {
            Some(verdict) => return Ok(Some(verdict)),
            None => {}
        }
    }
    Ok(None)
}

// What differs in a member, if it is a method.
fn method<'a>(
    alloc: Global,
    both: &mut Both<'a>,
    member: &'a Member,
) -> Result<Option<Verdict>, Memory>
    requires { AreWithin both.old }
    ensures compared { IfOk result (Compared (comparisons_of_method both.old.first.scope.now both.old.second.scope.now
        member.now.name member.now.part)) }
    ensures within { IfOk result (λ found. found ≡ None → AreWithin both.new) }
    ensures of { IfOk result (λ found. AreOf both.new both.old.first.scope.now both.old.second.scope.now) }
{
    match &member.part {
        Part::Method { input, output } => {
            let name = member.name.as_str();
            let Some((found, reply)) = both.second.scope.method(name) else {
                return Ok(Some(Verdict::NoMethod(Text::of(alloc, name)?)));
            };
            match both.sent_path(alloc, input, found)? {
                Some(path) => differs(alloc, name, Side::Input, path),
                None => match both.told_path(alloc, reply, output)? {
                    Some(path) => differs(alloc, name, Side::Output, path),
                    None => Ok(None),
                },
            }
        }
        _ => Ok(None),
    }
}

// What differs in a member, if it is an error.
fn error<'a>(
    alloc: Global,
    both: &mut Both<'a>,
    member: &'a Member,
) -> Result<Option<Verdict>, Memory>
    requires { AreWithin both.old }
    ensures compared { IfOk result (Compared (comparisons_of_error both.old.first.scope.now both.old.second.scope.now
        member.now.name member.now.part)) }
    ensures within { IfOk result (λ found. found ≡ None → AreWithin both.new) }
    ensures of { IfOk result (λ found. AreOf both.new both.old.first.scope.now both.old.second.scope.now) }
{
    match &member.part {
        Part::Fault(body) => {
            let name = member.name.as_str();
            let Some(found) = both.second.scope.error_of(name) else {
                return Ok(None);
            };
            match both.told_path(alloc, found, body)? {
                Some(path) => differs(alloc, name, Side::Error, path),
                None => Ok(None),
            }
        }
        _ => Ok(None),
    }
}

// Tells the type of a member that differs, with the words to the part that does.
fn differs(
    alloc: Global,
    name: &str,
    side: Side,
    path: List<Text>,
) -> Result<Option<Verdict>, Memory>
    ensures { IfOk result (λ found. found ≡ Some (Differs name.now side path)) }
{
    match Text::of(alloc, name) {
        Ok(member) => Ok(Some(Verdict::Differs { member, side, path })),
        Err(Memory) => {
            drop(path);
            Err(Memory)
        }
    }
}
