//! Workers of a board's desk in threads, and a whole run from start to close.
ghost use Rattle.std.specs.Prelude.{◌≡◌, ◌+◌, ◌*◌, ◌^◌, ◌<◌, ◌≤◌, [], All, sum_by, IfOk};
ghost use Rattle.std.specs.Prelude.{vec_capacity};
ghost use Rattle.turn_desk.specs.Histories.{state_of};
ghost use Rattle.turn_desk.specs.Passes.{IsOf, all_asks, first_pass};

use crate::askers::Asker;
use crate::boards::Board;
use link_port::{List, Memory};
use shared_work::each;
use std::alloc::Global;
use std::sync::Wait;
use std::thread::Threads;
use turn_desk::{Desk, Entry, Kept, Object, Pass};
use typed_value::Val;

/// Has each worker ask, in so many threads at most. Each stays of this desk, with as many asks in all.
pub fn ask_in_threads<R: Threads + Wait + Sync>(
    rt: &R,
    desk: &Desk<Board, Kept<Val>>,
    workers: &mut [Asker],
    threads: usize,
)
    requires threads { 0 < threads }
    requires desk { All (λ w. IsOf desk.now w.pass) workers.old }
    ensures desk { All (λ w. IsOf desk.now w.pass) workers.new }
    ensures asks { sum_by (λ w. all_asks w.pass) workers.new
        ≡ sum_by (λ w. all_asks w.pass) workers.old }
{
    each(rt, desk, workers, threads);
}

/// Joins the passes of all workers into this one.
pub fn gather(
    desk: &Desk<Board, Kept<Val>>,
    mut pass: Pass<Board, Kept<Val>>,
    workers: Vec<Asker>,
) -> Pass<Board, Kept<Val>>
    requires pass { IsOf desk.now pass }
    requires workers { All (λ w. IsOf desk.now w.pass) workers.items }
    ensures desk { IsOf desk.now result }
    ensures asks { all_asks result ≡ all_asks pass + sum_by (λ w. all_asks w.pass) workers.items }
{
    for worker in workers {
        desk.join(&mut pass, worker.pass);
    }
    pass
}

/// Room for two workers.
fn room_for_two(alloc: Global) -> Result<Vec<Asker>, Memory>
    ensures { IfOk result (λ v. (v.items ≡ []) × (2 ≤ vec_capacity v)) }
{
    let mut workers = Vec::new(alloc);
    workers.reserve(2)?;
    Ok(workers)
}

/// Splits two workers off the pass, which ask so many times each.
fn two_workers(
    alloc: Global,
    desk: &Desk<Board, Kept<Val>>,
    pass: &mut Pass<Board, Kept<Val>>,
    mut workers: Vec<Asker>,
    times: u64,
) -> Vec<Asker>
    requires pass { IsOf desk.now pass.old }
    requires workers { (workers.items ≡ []) × (2 ≤ vec_capacity workers) }
    requires times { 2 * (times + 1) ≤ pass.old.left }
    ensures pass { IsOf desk.now pass.new }
    ensures workers { All (λ w. IsOf desk.now w.pass) result.items }
    ensures asks { all_asks pass.new + sum_by (λ w. all_asks w.pass) result.items
        ≡ all_asks pass.old }
{
    let one = desk.split(pass, times);
    let two = desk.split(pass, times);
    workers.push_reserved(Asker {
        pass: one,
        alloc,
        number: 1,
        times,
    });
    workers.push_reserved(Asker {
        pass: two,
        alloc,
        number: 2,
        times,
    });
    workers
}

/// Starts a desk over the board, has two workers ask it in threads, so many times each, and closes
/// it. Gives the board and the history.
pub fn ask_by_two<R: Threads + Wait + Sync>(
    rt: &R,
    alloc: Global,
    board: Board,
    times: u64,
) -> Result<(Board, List<Entry<Val>>), Memory>
    requires { times ≤ 2 ^ 60 }
    ensures { IfOk result (λ r. r.0 ≡ state_of ⟦<Board as Object>⟧.after board r.1) }
{
    let workers = match room_for_two(alloc) {
        Ok(workers) => workers,
        Err(memory) => {
            drop(board);
            return Err(memory);
        }
    };
    match Desk::start(alloc, board, 1 << 62) {
        Ok((desk, pass)) => Ok(run(rt, alloc, desk, pass, workers, times)),
        Err(memory) => {
            drop(workers);
            Err(memory)
        }
    }
}

/// The run of a desk from its first pass to its close.
fn run<R: Threads + Wait + Sync>(
    rt: &R,
    alloc: Global,
    desk: Desk<Board, Kept<Val>>,
    mut pass: Pass<Board, Kept<Val>>,
    workers: Vec<Asker>,
    times: u64,
) -> (Board, List<Entry<Val>>)
    requires pass { pass ≡ first_pass desk }
    requires workers { (workers.items ≡ []) × (2 ≤ vec_capacity workers) }
    requires times { times ≤ 2 ^ 60 }
    ensures { result.0 ≡ state_of ⟦<Board as Object>⟧.after desk.start result.1 }
{
    let mut workers = two_workers(alloc, &desk, &mut pass, workers, times);
    ask_in_threads(rt, &desk, workers.as_mut_slice(), 2);
    let pass = gather(&desk, pass, workers);
    let (board, ledger) = desk.close(pass);
    (board, ledger.into_list())
}
