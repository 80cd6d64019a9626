// Outcomes by names, formed by the method's reply.
ghost use Rattle.std.specs.Prelude.{◌≡◌, Some, option_map, option_and_then};
ghost use Rattle.sheet_rules.specs.Types.{array_part};
ghost use Rattle.sheet_rules.specs.Outcomes.{with_item};
ghost use Rattle.sheet_rules.specs.Views.{typ_of, setting_of};
ghost use Rattle.expression_form.specs.Forms.{Forms, FormsTyped};
ghost use Rattle.rule_form.specs.Outcomes.{reply_made, array_formed, over_formed, stream_made, ending_made, same_kind, outcome_made, with_part};

use expression_draft::{ExprDraft, RefDraft};
use expression_form::{Ground, Unformed, made, ref_formed};
use sheet_draft::EndingDraft;
use sheet_rules::{Ending, Expr, Ref, Typ, array_part, body_typ, same_raw};
use std::alloc::Global;

/// The outcome that a draft is, where it is of the kind of the first branch's. `IllTyped` comes
/// exactly where it is not, or is not typed.
pub fn outcome_made(
    alloc: Global,
    first: &EndingDraft,
    draft: &EndingDraft,
    ground: &Ground<'_>,
) -> Result<Ending, Unformed>
    ensures { Forms result (outcome_made (setting_of ground.now.standing) first.now draft.now) }
{
    if same_kind(first, draft) {
        ending_made(alloc, draft, ground)
    } else {
        Err(Unformed::IllTyped)
    }
}

/// The outcome that a draft is. `IllTyped` comes exactly where it is not typed.
pub fn ending_made(
    alloc: Global,
    draft: &EndingDraft,
    ground: &Ground<'_>,
) -> Result<Ending, Unformed>
    ensures { Forms result (ending_made (setting_of ground.now.standing) draft.now) }
{
    match draft {
        EndingDraft::Reply(expr) => Ok(Ending::Reply(reply_made(alloc, expr, ground)?)),
        EndingDraft::Stream { over, each, last } => stream_by(alloc, over, each, last, ground),
        EndingDraft::Upgrade { raw, reply } => {
            let reply = reply_made(alloc, reply, ground)?;
            Ok(Ending::Upgrade { raw: *raw, reply })
        }
    }
}

// An expression that gives the method's reply.
fn reply_made(alloc: Global, expr: &ExprDraft, ground: &Ground<'_>) -> Result<Expr, Unformed>
    ensures { Forms result (reply_made (setting_of ground.now.standing) expr.now) }
{
    made(
        alloc,
        expr,
        ground,
        &body_typ(ground.standing.scope, ground.standing.output),
    )
}

// A reply for each item of what is referred to, and a last one.
fn stream_by(
    alloc: Global,
    over: &RefDraft,
    each: &ExprDraft,
    last: &ExprDraft,
    ground: &Ground<'_>,
) -> Result<Ending, Unformed>
    ensures { Forms result (option_and_then (stream_made (setting_of ground.now.standing) each.now last.now)
        (over_formed (setting_of ground.now.standing) over.now)) }
{
    match over_formed(alloc, over, ground) {
        Ok((over, part)) => stream_made(alloc, over, part, each, last, ground),
        Err(fault) => Err(fault),
    }
}

// A reply for each item of that type, and a last one.
fn stream_made<'x>(
    alloc: Global,
    over: Ref,
    part: Typ<'x>,
    each: &ExprDraft,
    last: &ExprDraft,
    ground: &Ground<'x>,
) -> Result<Ending, Unformed>
    ensures { Forms result
        (stream_made (setting_of ground.now.standing) each.now last.now (over, typ_of part.entry)) }
{
    match reply_made(alloc, each, &ground.with_item(part)) {
        Ok(each) => match reply_made(alloc, last, ground) {
            Ok(last) => Ok(Ending::Stream { over, each, last }),
            Err(fault) => {
                drop((over, each));
                Err(fault)
            }
        },
        Err(fault) => {
            drop(over);
            Err(fault)
        }
    }
}

// An array that is no item, and the type of its items.
fn over_formed<'x>(
    alloc: Global,
    over: &RefDraft,
    ground: &Ground<'x>,
) -> Result<(Ref, Typ<'x>), Unformed>
    ensures { FormsTyped result (over_formed (setting_of ground.now.standing) over.now) }
{
    match over {
        RefDraft::Param(_) => array_formed(alloc, over, ground),
        RefDraft::Register(_) => array_formed(alloc, over, ground),
        RefDraft::Item(_) => Err(Unformed::IllTyped),
    }
}

fn array_formed<'x>(
    alloc: Global,
    over: &RefDraft,
    ground: &Ground<'x>,
) -> Result<(Ref, Typ<'x>), Unformed>
    ensures { FormsTyped result (array_formed (setting_of ground.now.standing) over.now) }
{
    match ref_formed(alloc, over, ground) {
        Ok((over, of)) => with_part(over, array_part(&of)),
        Err(fault) => Err(fault),
    }
}

fn with_part<'x>(over: Ref, part: Option<Typ<'x>>) -> Result<(Ref, Typ<'x>), Unformed>
    ensures { FormsTyped result (with_part over (option_map typ_of part.entry)) }
{
    match part {
        Some(part) => Ok((over, part)),
        None => {
            drop(over);
            Err(Unformed::IllTyped)
        }
    }
}

// Whether two outcomes are of one kind, and use raw bytes in the same way.
fn same_kind(one: &EndingDraft, other: &EndingDraft) -> bool
    ensures { result ≡ same_kind one.now other.now }
{
    match (one, other) {
        (EndingDraft::Reply(_), EndingDraft::Reply(_)) => true,
        (EndingDraft::Stream { .. }, EndingDraft::Stream { .. }) => true,
        (EndingDraft::Upgrade { raw: a, .. }, EndingDraft::Upgrade { raw: b, .. }) => same_raw(
            a, b,
        ),
        _ => false,
    }
}
