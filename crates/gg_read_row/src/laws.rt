//! Laws about the rows of a text. Each is the contract of a function with an empty body.
ghost use Rattle.std.specs.Prelude.{◌≡◌, ◌↔◌, ◌==◌, ℕ, List, false};
ghost use Rattle.std.specs.List.{list_any};
ghost use Rattle.gg_lex.specs.Tokens.{IsWord};
ghost use Rattle.gg_lex.specs.declared.token.Tok.{Tok};
ghost use Rattle.gg_ast.specs.Names.{IsName};
ghost use Rattle.gg_ast.specs.Row.{Row};
ghost use Rattle.gg_read_row.specs.Forms.{SpellsRow};

/// The tokens of a line spell at most one row.
pub fn one_row()
    ensures { (row other : Row) (ts : List Tok) → SpellsRow row ts → SpellsRow other ts → row ≡ other }
{}

/// A name is a word without a dash.
pub fn name_is_a_word()
    ensures { (text : List ℕ) → IsName text ↔ (IsWord text × (list_any (λ b. b == 45) text ≡ false)) }
{}
