// The law on what definitions go on with.
ghost use Rattle.std.specs.Prelude.{◌≡◌, ◌↔◌, true};
ghost use Rattle.idl_token.specs.Lex.{Lexemes};
ghost use Rattle.idl_rules.specs.Grammar.{Front, definition};
ghost use Rattle.idl_rules.specs.Reading.{notes_good};
ghost use Rattle.idl_rules.specs.Spells.{GoesOn};
ghost use Rattle.idl_fronts.specs.Bare.{without_notes};

/// Says that words and marks can be put behind items to make them those of a definition exactly where
/// the items, notes left out, are a front of the grammar: nothing or whole spellings of the first
/// parts, and a front of the next one. The notes among the items have the form that a text gives them.
pub fn fronts_go_on()
    ensures { (items : Lexemes) → notes_good items ≡ true
        → (GoesOn items ↔ Front definition (without_notes items)) }
{}
