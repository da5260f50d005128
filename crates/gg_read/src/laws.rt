//! Laws that follow from the definitions.
ghost use Rattle.std.specs.Prelude.{◌≡◌, ◌⊎◌, ℕ, List};
ghost use Rattle.std.specs.Str.{IsUtf8};
ghost use Rattle.gg_ast.specs.inside.Names.{AreNamesOfCircuit};
ghost use Rattle.gg_ast.specs.Tree.{CircuitTree};
ghost use Rattle.gg_read.specs.Text.{LineTokens, IsFaultLine, HasNoFaultLine, IsTooDeep, Spells};

/// A text spells at most one circuit.
pub fn one_circuit()
    ensures { (text : List ℕ) (c d : CircuitTree) → Spells text c → Spells text d → c ≡ d }
{}

/// A text has at most one fault line.
pub fn one_fault_line()
    ensures { (text : List ℕ) (n m : ℕ) (line other : LineTokens) → IsFaultLine text n line → IsFaultLine text m other → (n ≡ m) × (line ≡ other) }
{}

/// If a text spells a circuit, its fault line is too deep: a text with any other fault spells none.
pub fn spelt_but_too_deep()
    ensures { (text : List ℕ) (n : ℕ) (line : LineTokens) (circuit : CircuitTree) → Spells text circuit → IsFaultLine text n line → IsTooDeep line.tokens }
{}

/// A text that is UTF-8 spells a circuit and has no fault line, or it has a fault line.
pub fn every_text()
    ensures { (text : List ℕ) → IsUtf8 text → ((circuit : CircuitTree) × Spells text circuit × HasNoFaultLine text) ⊎ ((n : ℕ) × (line : LineTokens) × IsFaultLine text n line) }
{}

/// The names of a circuit that a text spells are names: they have no dot and no dash.
pub fn spelt_names()
    ensures { (text : List ℕ) (circuit : CircuitTree) → Spells text circuit → AreNamesOfCircuit circuit }
{}
