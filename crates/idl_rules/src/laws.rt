// The law that a text spells one tree.
ghost use Rattle.std.specs.Prelude.{◌≡◌, ◌≤◌};
ghost use Rattle.idl_token.specs.Lex.{Bytes, Lexemes, Lex};
ghost use Rattle.idl_tree.specs.Form.{Deep};
ghost use Rattle.idl_tree.specs.declared.trees.Interface.{Interface};
ghost use Rattle.idl_rules.specs.Items.{Items};
ghost use Rattle.idl_rules.specs.Settle.{Settle};
ghost use Rattle.idl_rules.specs.Spells.{Spells};

/// Says that a text spells at most one tree.
pub fn one_tree()
    ensures { (text : Bytes) (tree other : Interface) → Spells tree text → Spells other text → tree ≡ other }
{}
