// Laws of types that are within each other. The functions do nothing.
ghost use Rattle.idl_compat.specs.Laws.{WithinReads, StructWithinReads};

/// The law that each value of a type, shown, reads by every type in which it is within: over every two
/// interfaces, where the names of the first are good, and the type's names are defined there and distinct
/// in their brackets.
pub fn values_within_read()
    ensures { WithinReads }
{}

/// The same law of each struct and the object that shows its value.
pub fn structs_within_read()
    ensures { StructWithinReads }
{}
