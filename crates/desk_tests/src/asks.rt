// Passes that ask, split, join and close.
ghost use Rattle.std.specs.Prelude.{◌≡◌, ◌+◌, ◌-◌};
ghost use Rattle.turn_desk.specs.Passes.{IsOf, all_asks};

use link_port::Memory;
use std::alloc::Global;
use std::sync::Wait;
use std::test::Fail;
use std::thread::join;
use turn_desk::{AskFault, Desk, Entry, Forgotten, Kept, Object, Pass};

/// A running total. A request is a number to be added, and is answered with the total.
#[derive(Drop)]
struct Total {
    sum: u64,
}

impl Object for Total {
    type Request = u64;

    type Reply = u64;

    ghost use Rattle.std.specs.Prelude.{ℕ, ◌+◌, ◌%◌, ◌^◌};

    ghost good = { λ s n. Unit {0} };

    ghost after = { λ s n. record { sum = (s.sum + n) % 2 ^ 64 } };

    ghost answer = { λ s n. (s.sum + n) % 2 ^ 64 };

    ghost weigh = { λ n. 192 };

    ghost lasting = { λ s q r h. ((λ x. x), λ x. x) };

    fn step(&mut self, _alloc: Global, request: &u64) -> Result<u64, Memory> {
        self.sum = self.sum.wrapping_add(*request);
        Ok(self.sum)
    }

    fn weight(&self, _request: &u64) -> u64 {
        192
    }
}

type Whole = Kept<u64>;

/// Asks the number 1 so many times, and counts the replies.
fn ask_ones<R: Wait>(
    rt: &R,
    alloc: Global,
    desk: &Desk<Total, Whole>,
    mut pass: Pass<Total, Whole>,
    times: u64,
) -> (Pass<Total, Whole>, u64)
    requires { IsOf desk.now pass }
    ensures desk { IsOf desk.now result.0 }
    ensures asks { all_asks result.0 ≡ all_asks pass }
{
    let mut replies = 0;
    for _ in 0..times {
        if desk.ask(rt, alloc, &mut pass, 1).is_ok() {
            replies += 1;
        }
    }
    (pass, replies)
}

/// How many entries are of this pass.
fn count(history: &[Entry<u64>], number: u64) -> usize {
    history.iter().filter(|e| e.pass == number).count()
}

#[test]
fn a_full_desk_and_a_worn_pass(rt: HostRuntime) -> Result<(), Fail> {
    let alloc = rt.alloc();
    let (desk, mut pass): (Desk<Total, Forgotten>, _) = Desk::start(alloc, Total { sum: 0 }, 200)?;
    assert_eq!(rt; desk.ask(&rt, alloc, &mut pass, 1), Ok(1));
    assert_eq!(rt;
        desk.ask(&rt, alloc, &mut pass, 1),
        Err(AskFault::Full { bytes: 192 })
    );
    let mut worn = desk.split(&mut pass, 0);
    assert_eq!(rt; (worn.number(), worn.left(), worn.asked()), (1, 0, 0));
    assert_eq!(rt; desk.ask(&rt, alloc, &mut worn, 1), Err(AskFault::Worn));
    desk.join(&mut pass, worn);
    assert_eq!(rt; (pass.number(), pass.asked()), (0, 3));
    let (total, _) = desk.close(pass);
    assert_eq!(rt; total.sum, 1);
    Ok(())
}

#[test]
fn two_threads_ask_a_hundred_times_each(rt: HostRuntime) -> Result<(), Fail> {
    let alloc = rt.alloc();
    let (desk, mut pass): (Desk<Total, Whole>, _) = Desk::start(alloc, Total { sum: 0 }, 1 << 62)?;
    let one = desk.split(&mut pass, 100);
    let two = desk.split(&mut pass, 100);
    let shared = &desk;
    let host = &rt;
    let ((one, first), (two, second)) = join(
        &rt,
        || -> (Pass<Total, Whole>, u64)
            requires { IsOf shared.now one }
            ensures { IsOf shared.entry.now result.0 × (all_asks result.0 ≡ all_asks one) }
        { ask_ones(host, alloc, shared, one, 100) },
        || -> (Pass<Total, Whole>, u64)
            requires { IsOf shared.now two }
            ensures { IsOf shared.entry.now result.0 × (all_asks result.0 ≡ all_asks two) }
        { ask_ones(host, alloc, shared, two, 100) },
    );
    assert_eq!(rt; (first, second), (100, 100));
    let (a, b) = (one.number(), two.number());
    desk.join(&mut pass, one);
    desk.join(&mut pass, two);
    let (total, ledger) = desk.close(pass);
    let history = ledger.into_list();
    assert_eq!(rt; total.sum, 200);
    assert_eq!(rt; history.len(), 200);
    assert_eq!(rt;
        (count(history.as_slice(), a), count(history.as_slice(), b)),
        (100, 100)
    );
    Ok(())
}

/// The reply to one request, or 0.
fn reply<R: Wait>(
    rt: &R,
    alloc: Global,
    desk: &Desk<Total, Whole>,
    pass: &mut Pass<Total, Whole>,
    number: u64,
) -> u64
    requires { IsOf desk.now pass.old }
    ensures desk { IsOf desk.now pass.new }
    ensures left { pass.new.left ≡ pass.old.left - 1 }
    ensures asks { all_asks pass.new ≡ all_asks pass.old }
{
    desk.ask(rt, alloc, pass, number).unwrap_or(0)
}

/// Whether the history has just these requests, of these passes.
fn is_history(history: &[Entry<u64>], entries: &[(u64, u64)]) -> bool {
    history.len() == entries.len()
        && history.iter().zip(entries).all(|(entry, (pass, request))| entry.pass == *pass
            && entry.request == *request)
}

#[test]
fn a_tree_of_four_passes(rt: HostRuntime) -> Result<(), Fail> {
    let alloc = rt.alloc();
    let (desk, mut root): (Desk<Total, Whole>, _) = Desk::start(alloc, Total { sum: 0 }, 1 << 62)?;
    let a = reply(&rt, alloc, &desk, &mut root, 1);
    let mut left = desk.split(&mut root, 1000);
    let b = reply(&rt, alloc, &desk, &mut left, 10);
    let mut right = desk.split(&mut root, 1000);
    let c = reply(&rt, alloc, &desk, &mut right, 100);
    let mut leaf = desk.split(&mut left, 500);
    let d = reply(&rt, alloc, &desk, &mut leaf, 1000);
    let e = reply(&rt, alloc, &desk, &mut root, 2);
    let f = reply(&rt, alloc, &desk, &mut root, 2);
    desk.join(&mut leaf, right);
    let g = reply(&rt, alloc, &desk, &mut left, 20);
    desk.join(&mut leaf, root);
    let h = reply(&rt, alloc, &desk, &mut leaf, 2000);
    desk.join(&mut leaf, left);
    let (number, asks) = (leaf.number(), leaf.left() + leaf.asked());
    let (total, ledger) = desk.close(leaf);
    let history = ledger.into_list();
    assert_eq!(rt; (number, asks, total.sum), (3, 1 << 62, 3135));
    assert_eq!(rt;
        [a, b, c, d, e, f, g, h],
        [1, 11, 111, 1111, 1113, 1115, 1135, 3135]
    );
    assert!(rt;
        is_history(
            history.as_slice(),
            &[
                (0, 1),
                (1, 10),
                (2, 100),
                (3, 1000),
                (0, 2),
                (0, 2),
                (1, 20),
                (3, 2000),
            ],
        )
    );
    Ok(())
}
