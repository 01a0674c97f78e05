//! What the values of cells are, as laws: each is a function that does nothing, whose contract is the law.
ghost use Rattle.std.specs.Prelude.{◌≡◌, ◌↔◌, ℕ, Bool, List, true, false, if◌then◌else◌};
ghost use Rattle.std.specs.List.Sorted.{IsStrictlySortedBy};
ghost use Rattle.std.specs.Map.{keys_of};
ghost use Rattle.calc_base.specs.Walks.{walks};
ghost use Rattle.formula_base.specs.declared.values.Value.{Value};
ghost use Rattle.formula_base.specs.declared.values.Value.TheVariants.{Fault};
ghost use Rattle.formula_base.specs.declared.values.CellFault.TheVariants.{Circ};
ghost use Rattle.formula_base.specs.Ranges.{Position, position_cmp};
ghost use Rattle.part_calc.specs.Parts.{Part as Texts, with_text, reads_at, step_at, is_circular, value_at};
ghost use Rattle.part_calc.specs.Shown.{shown_at};
ghost use Rattle.part_calc.specs.Dependants.{Depend};

/// A circular cell has the value `#CIRC!`, and every other cell the value of its text, where the cells
/// that it reads have their own values by the same rule.
pub fn values_follow()
    ensures { (part : Texts) (p : Position) → value_at part p ≡ (if is_circular part p then Fault Circ else step_at part p (value_at part)) }
{}

/// No other values keep to this rule.
pub fn values_are_determined()
    ensures { (part : Texts) (v : Position → Value) → ((p : Position) → v p ≡ (if is_circular part p then Fault Circ else step_at part p v)) → (p : Position) → v p ≡ value_at part p }
{}

/// A cell is circular exactly where walks of every length along reads begin at it.
pub fn circular_cells_never_end()
    ensures { (part : Texts) (p : Position) → is_circular part p ≡ true ↔ ((n : ℕ) → walks (reads_at part) n p ≡ true) }
{}

/// An edit leaves every cell that doesn't depend on the edited one: it is circular where it was, has the
/// value that it had, and shows what it showed.
pub fn other_cells_stay()
    ensures circular { (part : Texts) (at : Position) (raw : List ℕ) (affected : Position → Bool) → IsStrictlySortedBy position_cmp (keys_of part) → Depend part at affected → (c : Position) → affected c ≡ false → is_circular (with_text part at raw) c ≡ is_circular part c }
    ensures value { (part : Texts) (at : Position) (raw : List ℕ) (affected : Position → Bool) → IsStrictlySortedBy position_cmp (keys_of part) → Depend part at affected → (c : Position) → affected c ≡ false → value_at (with_text part at raw) c ≡ value_at part c }
    ensures shown { (part : Texts) (at : Position) (raw : List ℕ) (affected : Position → Bool) → IsStrictlySortedBy position_cmp (keys_of part) → Depend part at affected → (c : Position) → affected c ≡ false → shown_at (with_text part at raw) c ≡ shown_at part c }
{}
