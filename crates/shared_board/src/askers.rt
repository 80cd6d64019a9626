//! A worker of a board's desk.
ghost use Rattle.std.specs.Prelude.{◌≡◌};
ghost use Rattle.turn_desk.specs.Passes.{IsOf, all_asks};

use crate::boards::Board;
use shared_work::Work;
use std::alloc::Global;
use std::sync::Wait;
use turn_desk::{Desk, Kept, Pass};
use typed_value::Val;

/// Puts a number on the board, so many times, by a pass of its own.
#[derive(Drop)]
pub struct Asker {
    pub pass: Pass<Board, Kept<Val>>,
    pub alloc: Global,
    pub number: i64,
    pub times: u64,
}

impl Work<Desk<Board, Kept<Val>>> for Asker {
    ghost use Rattle.turn_desk.specs.Passes.{IsOf, all_asks};

    ghost ready = { λ asker desk. IsOf desk asker.pass };

    ghost done = { λ asker desk after. IsOf desk after.pass
        × (all_asks after.pass ≡ all_asks asker.pass) };

    fn work<R: Wait>(&mut self, rt: &R, desk: &Desk<Board, Kept<Val>>) {
        let Asker {
            pass,
            alloc,
            number,
            times,
        } = self;
        ask_times(rt, *alloc, desk, pass, *number, *times);
    }
}

/// Asks so many times with a number.
fn ask_times<R: Wait>(
    rt: &R,
    alloc: Global,
    desk: &Desk<Board, Kept<Val>>,
    pass: &mut Pass<Board, Kept<Val>>,
    number: i64,
    times: u64,
)
    requires { IsOf desk.now pass.old }
    ensures desk { IsOf desk.now pass.new }
    ensures asks { all_asks pass.new ≡ all_asks pass.old }
{
    for _ in 0..times {
        let _ = desk.ask(rt, alloc, pass, Val::Int(number));
    }
}
