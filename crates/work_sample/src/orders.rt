// Numbers in the byte order of their digits.
ghost use Rattle.std.specs.Prelude.{◌≡◌, ◌≤◌, ◌++◌, OnOk, IfOk};
ghost use Rattle.work_sample.specs.Texts.{under, in_order as numbers_in_order};

use link_port::{List, Memory};
use std::alloc::Global;

/// The numbers from 1 to `most`, in the byte order of their digits.
pub fn in_order(alloc: Global, most: u64) -> Result<List<u64>, Memory>
    requires { most ≤ 10000 }
    ensures { IfOk result (λ order. order ≡ numbers_in_order most) }
{
    let mut order = List::new(alloc);
    add_in_order(&mut order, most)?;
    Ok(order)
}

// Adds the numbers from 1 to `most`.
#[tactic(auto, using(crate::proofs::Growing::begins, crate::proofs::Growing::grows), unfolding(crate::specs::Texts::in_order))]
fn add_in_order(order: &mut List<u64>, most: u64) -> Result<(), Memory>
    requires { most ≤ 10000 }
    ensures { OnOk result (order.new ≡ order.old ++ numbers_in_order most) }
{
    for digit in 0..9 {
        add_under(order, 5, most, digit + 1)?;
    }
    Ok(())
}

// Adds the numbers up to `most` that begin with the digits of `first`, and have less than so many digits more.
#[tactic(auto, using(crate::proofs::Growing::begins, crate::proofs::Growing::grows), unfolding(crate::specs::Texts::under))]
fn add_under(order: &mut List<u64>, digits: u64, most: u64, first: u64) -> Result<(), Memory>
    requires { most ≤ 10000 }
    ensures { OnOk result (order.new ≡ order.old ++ under digits most first) }
{
    if digits == 0 || most < first {
        return Ok(());
    }
    order.push(first)?;
    for digit in 0..10 {
        add_under(order, digits - 1, most, first * 10 + digit)?;
    }
    Ok(())
}
