// Two definitions that are compared.
ghost use Rattle.std.specs.Prelude.{◌≡◌, None, IfOk, OnOk};
ghost use Rattle.idl_compat.specs.Both.{AreWithin};
ghost use Rattle.idl_compat.specs.Walks.{FoundIn};

use crate::looks::Walk;
use crate::numbers::Table;
use crate::visits::Seen;
use crate::walks::first_failure;
use idl_tree::{Body, Checked};
use link_port::{List, Memory, Text};
use std::alloc::Global;
use std::collections::BTreeSet;

/// Two definitions, with the pairs of bodies that were seen: those of an old and a new one, and those of a
/// new and an old one.
#[derive(Drop)]
pub struct Both<'a> {
    pub first: Table<'a>,
    pub second: Table<'a>,
    pub sent: Seen,
    pub told: Seen,
}

impl<'a> Both<'a> {
    /// The two definitions, of which no pair was seen.
    pub fn of(alloc: Global, old: &'a Checked, new: &'a Checked) -> Result<Both<'a>, Memory>
        ensures within { IfOk result AreWithin }
        ensures first { IfOk result (λ both. both.first.scope.now ≡ old.now) }
        ensures second { IfOk result (λ both. both.second.scope.now ≡ new.now) }
    {
        Ok(Both {
            first: Table::of(alloc, old)?,
            second: Table::of(alloc, new)?,
            sent: BTreeSet::new(alloc),
            told: BTreeSet::new(alloc),
        })
    }

    /// The words that lead to what a new body refuses of an old one's values.
    pub fn sent_path(
        &mut self,
        alloc: Global,
        body: &'a Body,
        reads: &'a Body,
    ) -> Result<Option<List<Text>>, Memory>
        requires { AreWithin self.old }
        ensures found { IfOk result (FoundIn (self.old.first.scope.now, self.old.second.scope.now) body.now reads.now) }
        ensures within { IfOk result (λ path. path ≡ None → AreWithin self.new) }
        ensures first { OnOk result (self.new.first.scope.now ≡ self.old.first.scope.now) }
        ensures second { OnOk result (self.new.second.scope.now ≡ self.old.second.scope.now) }
    {
        let from = self.first.number(alloc, body)?;
        let to = self.second.number(alloc, reads)?;
        let walk = Walk {
            from: &self.first,
            to: &self.second,
        };
        first_failure(alloc, &walk, (from, to), &mut self.sent)
    }

    /// The words that lead to what an old body refuses of a new one's values.
    pub fn told_path(
        &mut self,
        alloc: Global,
        body: &'a Body,
        reads: &'a Body,
    ) -> Result<Option<List<Text>>, Memory>
        requires { AreWithin self.old }
        ensures found { IfOk result (FoundIn (self.old.second.scope.now, self.old.first.scope.now) body.now reads.now) }
        ensures within { IfOk result (λ path. path ≡ None → AreWithin self.new) }
        ensures first { OnOk result (self.new.first.scope.now ≡ self.old.first.scope.now) }
        ensures second { OnOk result (self.new.second.scope.now ≡ self.old.second.scope.now) }
    {
        let from = self.second.number(alloc, body)?;
        let to = self.first.number(alloc, reads)?;
        let walk = Walk {
            from: &self.second,
            to: &self.first,
        };
        first_failure(alloc, &walk, (from, to), &mut self.told)
    }
}
