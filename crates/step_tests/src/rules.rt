// A rule made for the rows, whose parts contracts see.
ghost use Rattle.std.specs.Prelude.{◌≡◌, [], ◌∷◌, None, pos, codes, IfOk};
ghost use Rattle.sheet_rules.specs.declared.forms.Expr.TheVariants as expr;
ghost use Rattle.sheet_rules.specs.declared.forms.Ref.TheVariants as ref;
ghost use Rattle.sheet_rules.specs.declared.forms.Cond.TheVariants as cond;
ghost use Rattle.sheet_rules.specs.declared.forms.Ending.TheVariants as ending;
ghost use Rattle.typed_value.specs.declared.vals.Val.TheVariants as val;

use link_port::{List, Memory, Text};
use sheet_rules::{Action, Branch, Cond, Ending, Expr, Guard, Ref};
use std::alloc::Global;
use typed_value::Val;

// The register at a place.
pub fn register(alloc: Global, place: u64) -> Expr
    ensures { result ≡ expr.From (ref.Register place []) }
{
    Expr::From(Ref::Register(place, List::new(alloc)))
}

// A list of one item.
pub fn only<T: Drop>(alloc: Global, item: T) -> Result<List<T>, Memory>
    ensures { IfOk result (λ items. items ≡ item ∷ []) }
{
    let mut items = List::new(alloc);
    items.push(item)?;
    Ok(items)
}

// One branch of one step, which answers with the first register.
pub fn branch(alloc: Global, step: Action) -> Result<Branch, Memory>
    ensures { IfOk result (λ branch. (branch.when ≡ None) × (branch.guards ≡ []) × (branch.steps ≡ step ∷ [])
        × (branch.outcome ≡ ending.Reply (expr.From (ref.Register 0 [])))) }
{
    let steps = only(alloc, step)?;
    Ok(Branch {
        when: None,
        guards: List::new(alloc),
        steps,
        outcome: Ending::Reply(register(alloc, 0)),
    })
}

// The same behind a guard that does not hold, whose error is Bad, with 3.
pub fn guarded(alloc: Global, step: Action) -> Result<Branch, Memory>
    ensures { IfOk result (λ branch. (branch.when ≡ None)
        × (branch.guards ≡ record { need = cond.Less (expr.Const (val.Int (pos 7))) (expr.Const (val.Int (pos 7))); error = codes "Bad"; with = expr.Const (val.Int (pos 3)) } ∷ [])) }
{
    let Branch {
        when,
        guards: _,
        steps,
        outcome,
    } = branch(alloc, step)?;
    match guard(alloc) {
        Ok(guard) => Ok(Branch {
            when,
            guards: guard,
            steps,
            outcome,
        }),
        Err(stop) => {
            drop((when, steps, outcome));
            Err(stop)
        }
    }
}

fn guard(alloc: Global) -> Result<List<Guard>, Memory>
    ensures { IfOk result (λ guards. guards
        ≡ record { need = cond.Less (expr.Const (val.Int (pos 7))) (expr.Const (val.Int (pos 7))); error = codes "Bad"; with = expr.Const (val.Int (pos 3)) } ∷ []) }
{
    let error = Text::of(alloc, "Bad")?;
    let need = Cond::Less(Expr::Const(Val::Int(7)), Expr::Const(Val::Int(7)));
    only(
        alloc,
        Guard {
            need,
            error,
            with: Expr::Const(Val::Int(3)),
        },
    )
}
