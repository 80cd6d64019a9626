// Checked definitions, and what is found in them.
ghost use Rattle.std.specs.Prelude.{◌≡◌, ◌↔◌, IsTrue, ◌≤◌, IfOk, option_map, find, slice_get};
ghost use Rattle.std.specs.Option.{option_copied};
ghost use Rattle.std.specs.List.{position_from};
ghost use Rattle.idl_tree.specs.Form.{Form, Deep};
ghost use Rattle.idl_tree.specs.Floats.{BodyReaches, TypeReaches, TellsFloats};
ghost use Rattle.idl_tree.specs.Places.{Tells};
ghost use Rattle.idl_tree.specs.Faults.{Answers, Good, first_fault, type_fault, defines, type_named, method_named, error_named, part_named, is_named};
ghost use Rattle.idl_tree.specs.declared.spaces.Space.TheVariants.{Types};

use crate::checks::{check_members, check_type};
use crate::faults::NameFault;
use crate::floats::{body_is_marked, mark_floats, type_is_marked};
use crate::places::Index;
use crate::spaces::Space;
use crate::trees::{Body, Interface, Member, Part, TypeRef};
use std::alloc::Global;
use std::marker::Model;

/// A tree in form whose names are unique and defined. Contracts see the tree.
#[derive(Drop)]
pub struct Checked {
    tree: Interface,
    index: Index,
    // Which of the types reach `float`, by their places.
    floats: Vec<bool>,
}

impl Model for Checked {
    ghost use Rattle.idl_tree.specs.declared.trees.Interface.{Interface};
    ghost use Rattle.idl_tree.specs.contracts.trees.Interface as stored;

    ghost Value = { Interface };

    ghost coded = { stored.the_row.coded };

    ghost use Rattle.idl_tree.specs.Checks.{IsChecked};

    ghost view = { λ checked. checked.tree };

    ghost invariant = { λ checked. IsChecked checked.tree checked.index checked.floats.items };
}

impl Checked {
    /// Checks the names of a tree in form: in each of the three name spaces and in each bracket a name
    /// stands once, and each name that is used as a type is defined by a `type` member. The names are
    /// visited in text order, and the first fault is given.
    pub fn of(alloc: Global, tree: Interface) -> Result<Checked, NameFault>
        requires formed { Form tree }
        requires within { Deep tree ≤ 64 }
        ensures checked { IfOk result (λ checked. checked ≡ tree) }
        ensures answer { Answers result (first_fault tree) }
    {
        match looked_up(alloc, &tree) {
            Ok((index, floats)) => Ok(Checked {
                tree,
                index,
                floats,
            }),
            Err(fault) => {
                drop(tree);
                Err(fault)
            }
        }
    }

    /// Lends the tree.
    pub fn tree(&self) -> &Interface
        ensures tree { result.now ≡ self.now }
        ensures formed { Form self.now }
        ensures within { Deep self.now ≤ 64 }
        ensures good { Good self.now }
    {
        &self.tree
    }

    /// The body that the type of that name stands for, and None where there is no such type.
    pub fn lookup_type(&self, name: &str) -> Option<&Body>
        ensures { option_copied result ≡ type_named name.now self.now }
    {
        match self.part(Space::Types, name) {
            Some(Part::Shape(body)) => Some(body),
            _ => None,
        }
    }

    /// The parameters and the reply of the method of that name, and None where there is no such method.
    pub fn method(&self, name: &str) -> Option<(&Body, &Body)>
        ensures { option_map (λ bodies. (bodies.0.now, bodies.1.now)) result
            ≡ method_named name.now self.now }
    {
        match self.part(Space::Methods, name) {
            Some(Part::Method { input, output }) => Some((input, output)),
            _ => None,
        }
    }

    /// The parameters of the error of that name, and None where there is no such error.
    pub fn error_of(&self, name: &str) -> Option<&Body>
        ensures { option_copied result ≡ error_named name.now self.now }
    {
        match self.part(Space::Errors, name) {
            Some(Part::Fault(body)) => Some(body),
            _ => None,
        }
    }

    /// The place among the members, counted from 0, of the type of that name, and None where there
    /// is no such type.
    pub fn type_place(&self, name: &str) -> Option<usize>
        ensures { result ≡ position_from (is_named Types name.now) 0 self.now.members }
    {
        self.index.place(Space::Types, name)
    }

    /// Checks the names of a type that is used in this interface: in each bracket a name stands once, and
    /// each name that is used as a type is one of the interface's. The names are visited in text order,
    /// and the first fault is given.
    pub fn check_type(&self, alloc: Global, of: &TypeRef) -> Result<(), NameFault>
        ensures { Answers result (type_fault (defines self.now) of.now) }
    {
        check_type(alloc, of, &self.index)
    }

    /// Whether a body reaches `float`: the type of one of its fields does. It takes no memory.
    pub fn body_reaches_float(&self, body: &Body) -> bool
        ensures { IsTrue result ↔ BodyReaches self.now body.now }
    {
        body_is_marked(body, &self.index, self.floats.as_slice())
    }

    /// Whether a type reaches `float`: its core is `float`, or is a body in place or the name of a type
    /// one of whose fields has a type that reaches `float`, in finitely many steps. It takes no memory.
    pub fn reaches_float(&self, of: &TypeRef) -> bool
        ensures { IsTrue result ↔ TypeReaches self.now of.now }
    {
        type_is_marked(of, &self.index, self.floats.as_slice())
    }

    // The part of the member of that name.
    fn part(&self, space: Space, name: &str) -> Option<&Part>
        ensures { option_copied result ≡ part_named space name.now self.now }
    {
        match self.member(space, name) {
            Some(member) => Some(&member.part),
            None => None,
        }
    }

    // The first member of that name.
    fn member(&self, space: Space, name: &str) -> Option<&Member>
        ensures { option_copied result ≡ find (is_named space name.now) self.now.members }
    {
        match self.index.place(space, name) {
            Some(place) => member_at(self.tree.members.as_slice(), place),
            None => None,
        }
    }
}

fn member_at(members: &[Member], place: usize) -> Option<&Member>
    ensures { option_copied result ≡ slice_get members.now place }
{
    members.get(place)
}

// The index of a tree whose names are good, and which of its types reach `float`.
fn looked_up(alloc: Global, tree: &Interface) -> Result<(Index, Vec<bool>), NameFault>
    ensures tells { IfOk result (λ told. Tells told.0 tree.now.members) }
    ensures floats { IfOk result (λ told. TellsFloats told.0 tree.now told.1.items) }
    ensures answer { Answers result (first_fault tree.now) }
{
    let index = Index::of(alloc, tree.members.as_slice())?;
    match float_marks(alloc, tree, &index) {
        Ok(floats) => Ok((index, floats)),
        Err(fault) => {
            drop(index);
            Err(fault)
        }
    }
}

// Which of the types reach `float`, where the names are good.
fn float_marks(alloc: Global, tree: &Interface, index: &Index) -> Result<Vec<bool>, NameFault>
    requires { Tells index.now tree.now.members }
    ensures floats { IfOk result (λ floats. TellsFloats index.now tree.now floats.items) }
    ensures answer { Answers result (first_fault tree.now) }
{
    match check_members(alloc, tree.members.as_slice(), index) {
        Ok(()) => Ok(mark_floats(alloc, tree, index)?),
        Err(fault) => Err(fault),
    }
}
