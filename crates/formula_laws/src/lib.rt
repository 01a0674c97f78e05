//! Laws of the grammar of formulas, over words and signs and over characters. Each is a function with
//! an empty body whose contract is the law.
#![tactic(auto)]

ghost use Rattle.std.specs.Prelude.{◌≡◌, List, ℕ, Some};
ghost use Rattle.formula_laws.specs.Language.{IsFormula};
ghost use Rattle.formula_laws.specs.Spelling.{IsFormulaText};
ghost use Rattle.formula_base.specs.declared.expressions.Expr.{Expr};
ghost use Rattle.sheet_formula.specs.Grammar.{formula_of};

/// The reader's formulas are those of the grammar: a raw text is read as an expression exactly where the
/// grammar, which says nothing of reading, lets it say that expression.
pub fn formulas_are_those_of_the_grammar()
    ensures sound { (raw : List ℕ) (expression : Expr) → formula_of raw ≡ Some expression → IsFormula raw expression }
    ensures complete { (raw : List ℕ) (expression : Expr) → IsFormula raw expression → formula_of raw ≡ Some expression }
{}

/// A raw text says at most one expression.
pub fn one_expression_a_text()
    ensures { (raw : List ℕ) (one : Expr) (other : Expr) → IsFormula raw one → IsFormula raw other → one ≡ other }
{}

/// What is read is written so: a raw text that is read as an expression is `=`, and then the words and
/// signs of a formula that says it, with blanks between them.
pub fn what_is_read_is_written()
    ensures { (raw : List ℕ) (expression : Expr) → formula_of raw ≡ Some expression → IsFormulaText raw expression }
{}

/// What is written is read: a raw text that is `=`, and then the words and signs of a formula with
/// blanks or without, is read as the expression that the formula says.
pub fn what_is_written_is_read()
    ensures { (raw : List ℕ) (expression : Expr) → IsFormulaText raw expression → formula_of raw ≡ Some expression }
{}

/// A raw text says at most one expression, however its characters are told apart.
pub fn one_expression_a_spelling()
    ensures { (raw : List ℕ) (one : Expr) (other : Expr) → IsFormulaText raw one → IsFormulaText raw other → one ≡ other }
{}
