// Names of rules, split at their last dot.
ghost use Rattle.std.specs.Prelude.{◌≡◌};
ghost use Rattle.expression_draft.specs.Answers.{Gives};
ghost use Rattle.sheet_draft.specs.Outlines.{at_last_dot};

use expression_draft::Misfit;
use link_port::Text;
use std::alloc::Global;

/// What stands before the last `.` of a name, and behind it.
pub fn at_last_dot(alloc: Global, name: &str) -> Result<(Text, Text), Misfit>
    ensures { Gives result (at_last_dot name.now) }
{
    match name.rsplit_once('.') {
        Some((before, behind)) => Ok((Text::of(alloc, before)?, Text::of(alloc, behind)?)),
        None => Err(Misfit::Unfit),
    }
}
