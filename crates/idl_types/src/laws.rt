// The law that a text spells one type.
ghost use Rattle.std.specs.Prelude.{◌≡◌};
ghost use Rattle.idl_token.specs.Lex.{Bytes};
ghost use Rattle.idl_tree.specs.declared.trees.TypeRef.{TypeRef};
ghost use Rattle.idl_types.specs.Types.{SpellsType};

/// Says that a text spells at most one type.
pub fn one_type()
    ensures { (text : Bytes) (of other : TypeRef)
        → SpellsType of text → SpellsType other text → of ≡ other }
{}
