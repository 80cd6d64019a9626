// Which outcomes are typed, and of one kind.
ghost use Rattle.std.specs.Prelude.{◌≡◌, option_map, option_and_then};
ghost use Rattle.sheet_rules.specs.Types.{array_part};
ghost use Rattle.sheet_rules.specs.Settings.{Setting, ref_typ};
ghost use Rattle.sheet_rules.specs.Outcomes.{ending_is_typed, gives_reply, gives_each, is_no_item, with_item, same_kind, same_raw};
ghost use Rattle.sheet_rules.specs.Views.{typ_of, setting_of};

use crate::expressions::gives;
use crate::forms::{Ending, Expr, Ref};
use crate::paths::ref_typ;
use crate::standings::Standing;
use crate::types::{Typ, array_part, body_typ};
use call_form::Raw;

/// Whether an outcome is typed by the method's reply.
pub fn ending_is_typed(ending: &Ending, standing: &Standing<'_>) -> bool
    ensures { result ≡ ending_is_typed (setting_of standing.now) ending.now }
{
    match ending {
        Ending::Reply(reply) => gives_reply(reply, standing),
        Ending::Stream { over, each, last } => {
            is_no_item(over) && gives_each(over, each, standing) && gives_reply(last, standing)
        }
        Ending::Upgrade { reply, .. } => gives_reply(reply, standing),
    }
}

/// Whether an expression gives the method's reply.
pub fn gives_reply(expr: &Expr, standing: &Standing<'_>) -> bool
    ensures { result ≡ gives_reply (setting_of standing.now) expr.now }
{
    gives(expr, standing, &body_typ(standing.scope, standing.output))
}

// Whether an array is referred to, and the expression gives the reply for each of its items.
fn gives_each(over: &Ref, each: &Expr, standing: &Standing<'_>) -> bool
    ensures { result ≡ gives_each (setting_of standing.now) over.now each.now }
{
    match items_of(over, standing) {
        Some(part) => gives_reply(each, &with_item(standing, part)),
        None => false,
    }
}

/// The type of the items of an array that is referred to.
pub fn items_of<'x>(over: &Ref, standing: &Standing<'x>) -> Option<Typ<'x>>
    ensures { option_map typ_of result
        ≡ option_and_then array_part (ref_typ (setting_of standing.now) over.now) }
{
    match ref_typ(over, standing) {
        Some(of) => array_part(&of),
        None => None,
    }
}

/// The same, with a stream's item of that type.
pub fn with_item<'x>(standing: &Standing<'x>, item: Typ<'x>) -> Standing<'x>
    ensures { setting_of result ≡ with_item (setting_of standing.now) (Some (typ_of item.entry)) }
{
    Standing {
        interfaces: standing.interfaces,
        registers: standing.registers,
        scope: standing.scope,
        input: standing.input,
        output: standing.output,
        item: Some(item),
    }
}

fn is_no_item(over: &Ref) -> bool
    ensures { result ≡ is_no_item over.now }
{
    !matches!(over, Ref::Item(_))
}

/// Whether two outcomes are of one kind, and use raw bytes in the same way.
pub fn same_kind(one: &Ending, other: &Ending) -> bool
    ensures { result ≡ same_kind one.now other.now }
{
    match (one, other) {
        (Ending::Reply(_), Ending::Reply(_)) => true,
        (Ending::Stream { .. }, Ending::Stream { .. }) => true,
        (Ending::Upgrade { raw: a, .. }, Ending::Upgrade { raw: b, .. }) => same_raw(a, b),
        _ => false,
    }
}

/// Whether two upgrades use raw bytes in the same way.
pub fn same_raw(one: &Raw, other: &Raw) -> bool
    ensures { result ≡ same_raw one.now other.now }
{
    match (one, other) {
        (Raw::Echo, Raw::Echo) => true,
        (Raw::Discard, Raw::Discard) => true,
        _ => false,
    }
}
