// The law that a text is refused for one cause.
ghost use Rattle.idl_token.specs.Lex.{Bytes};
ghost use Rattle.idl_tree.specs.declared.trees.Interface.{Interface};
ghost use Rattle.idl_grammar.specs.declared.faults.IdlFault.{IdlFault};
ghost use Rattle.idl_grammar.specs.Refuses.{Refuses, SameCause};
ghost use Rattle.idl_grammar.specs.RefusesType.{RefusesType};

/// Says that a text has at most one cause for which it is refused as a definition, and at most one for
/// which it is refused as a type of an interface: want of memory apart, which may come anywhere.
pub fn one_cause()
    ensures definitions { (text : Bytes) (one other : IdlFault)
        → Refuses one text → Refuses other text → SameCause one other }
    ensures types { (text : Bytes) (scope : Interface) (one other : IdlFault)
        → RefusesType one text scope → RefusesType other text scope → SameCause one other }
{}
