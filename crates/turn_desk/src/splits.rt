//! How a pass is cut in two.
ghost use Rattle.std.specs.Prelude.{◌≡◌, ℕ, ◌<◌, ◌≤◌, []};
ghost use Rattle.turn_desk.specs.declared.views.Stage.TheVariants.{Numbered};
ghost use Rattle.turn_desk.specs.Seats.{IsLaid};
ghost use Rattle.turn_desk.specs.Turns.{split_kept, split_given};

use crate::ledgers::Ledger;
use crate::objects::Object;
use crate::plays::{Amount, Cut, Place};
use crate::turns::SharedTable;

/// Gives the number in hand to a new seat, with so many asks.
pub(crate) fn cut<O: Object, L: Ledger<O::Request>, G: Amount>(
    shared: &SharedTable<O, L>,
    seat: &mut Place<O, L, O::Request>,
    asks: u64,
) -> Place<O, L, O::Request>
    requires amount { asks ≡ G.amount }
    requires table { IsLaid shared.now.table_id × (seat.old.table_id ≡ shared.now.table_id) }
    requires number { (n : ℕ) × (seat.old.me.0.stage ≡ Numbered n) }
    requires enough { asks ≤ seat.old.me.0.left }
    ensures table { seat.new.table_id ≡ seat.old.table_id }
    ensures kept { seat.new.me ≡ (split_kept asks seat.old.me.0, seat.old.me.1) }
    ensures same_table { result.table_id ≡ seat.old.table_id }
    ensures given { result.me ≡ (split_given asks seat.old.me.0, []) }
{
    shared.split_seat::<Cut<G>>(seat)
}
