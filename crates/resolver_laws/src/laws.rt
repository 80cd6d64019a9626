// The law that a resolver keeps to its interfaces. The function does nothing.
ghost use Rattle.resolver_laws.specs.Declared.{RepliesAreDeclared};

/// A reply without error has parameters that read by the reply of the method that was called, and an
/// error has those of the error that is declared under its name: over every registry and every call.
pub fn replies_are_declared()
    ensures { RepliesAreDeclared }
{}
