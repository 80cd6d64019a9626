//! What the canonical text of a tree tells. The functions do nothing.
ghost use Rattle.std.specs.Prelude.{◌≡◌, ◌≤◌};
ghost use Rattle.idl_tree.specs.Form.{Form, Deep};
ghost use Rattle.idl_tree.specs.Faults.{Good};
ghost use Rattle.idl_tree.specs.declared.trees.Interface.{Interface};
ghost use Rattle.idl_token.specs.Lex.{Bytes};
ghost use Rattle.idl_rules.specs.Canon.{Canon};
ghost use Rattle.idl_rules.specs.Spells.{Spells, Accepts};

/// The canonical text of a tree in form spells that tree, notes and all, and no other tree.
pub fn canon_spells()
    ensures { (tree : Interface) → Form tree
        → Spells tree (Canon tree)
        × ((other : Interface) → Spells other (Canon tree) → other ≡ tree) }
{}

/// Where its brackets are at most 64 deep and its names are unique and defined, a tree in form is
/// what its canonical text is accepted as, and no other tree is.
pub fn canon_accepted()
    ensures { (tree : Interface) → Form tree → Deep tree ≤ 64 → Good tree
        → Accepts (Canon tree) tree
        × ((other : Interface) → Accepts (Canon tree) other → other ≡ tree) }
{}

/// Formatting twice is formatting once: the canonical text of what a text is accepted as is accepted, and
/// what it is accepted as has that canonical text again.
pub fn canon_formats_once()
    ensures { (text : Bytes) (tree other : Interface) → Accepts text tree
        → Accepts (Canon tree) tree × (Accepts (Canon tree) other → Canon other ≡ Canon tree) }
{}
