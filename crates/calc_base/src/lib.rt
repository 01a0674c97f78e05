//! Values of cells from scratch, for any cells and any values: which cells are circular, and what value
//! each cell has, given what each cell reads and how the value of a cell comes from those that it reads.
//! The functions here do nothing when they are called: each has a law as its contract.
#![tactic(auto)]

ghost use Rattle.std.specs.Prelude.{◌≡◌, ◌↔◌, ℕ, Bool, true, List, Option};
ghost use Rattle.calc_base.specs.Walks.{walks, circular};
ghost use Rattle.calc_base.specs.Values.{value};
ghost use Rattle.calc_base.specs.Laws.{Covers, IsLocal, Follows, IsSound, IsReady, HasItsValue, EachWaits, IsLost};
ghost use Rattle.calc_base.specs.Edits.{IsApart, found_kept, IsFull, EachWaitsOrCircles};

/// The value of each cell follows from those of the cells that it reads, and a circular cell has the
/// error.
pub fn values_follow<K, V>()
    ensures { (error : V) (reads : K → List K) (formulas : List K) (step : K → (K → V) → V) → IsLocal reads step → Follows error reads formulas step (value error reads formulas step) }
{}

/// No other values follow from one another so.
pub fn values_are_determined<K, V>()
    ensures { (error : V) (reads : K → List K) (formulas : List K) (step : K → (K → V) → V) → IsLocal reads step → (v : K → V) → Follows error reads formulas step v → (c : K) → v c ≡ value error reads formulas step c }
{}

/// A cell is circular exactly where walks of every length begin at it.
pub fn circular_cells_never_end<K>()
    ensures { (reads : K → List K) (formulas : List K) → Covers reads formulas → (c : K) → circular reads formulas c ≡ true ↔ ((n : ℕ) → walks reads n c ≡ true) }
{}

/// Where some cells were found to be not circular, each with its value, a cell that reads found cells
/// alone is not circular either, and its value follows from what was found.
pub fn found_cells_have_their_values<K, V>()
    ensures { (error : V) (reads : K → List K) (formulas : List K) (step : K → (K → V) → V) → Covers reads formulas → IsLocal reads step → (seen : K → Option V) → IsSound error reads formulas step seen → (c : K) → IsReady reads seen c → HasItsValue error reads formulas step seen c }
{}

/// Cells that were not found, each of which reads another such cell, are circular.
pub fn lost_cells_are_circular<K, V>()
    ensures { (reads : K → List K) (formulas : List K) (seen : K → Option V) → EachWaits reads seen → (c : K) → IsLost seen c → circular reads formulas c ≡ true }
{}

/// Cells whose reads and steps an edit leaves, and which read such cells alone, are circular where they
/// were, and keep their values.
pub fn kept_cells_keep_their_values<K, V>()
    ensures circular { (reads : K → List K) (reads' : K → List K) (formulas : List K) (formulas' : List K) (step : K → (K → V) → V) (step' : K → (K → V) → V) (kept : K → Bool) → Covers reads formulas → Covers reads' formulas' → IsApart reads reads' step step' kept → (c : K) → kept c ≡ true → circular reads' formulas' c ≡ circular reads formulas c }
    ensures values { (error : V) (reads : K → List K) (reads' : K → List K) (formulas : List K) (formulas' : List K) (step : K → (K → V) → V) (step' : K → (K → V) → V) (kept : K → Bool) → Covers reads formulas → Covers reads' formulas' → IsLocal reads step → IsLocal reads' step' → IsApart reads reads' step step' kept → (c : K) → kept c ≡ true → value error reads' formulas' step' c ≡ value error reads formulas step c }
{}

/// What was found of such cells before the edit is right after it.
pub fn what_was_found_of_kept_cells_is_right<K, V>()
    ensures { (error : V) (reads : K → List K) (reads' : K → List K) (formulas : List K) (formulas' : List K) (step : K → (K → V) → V) (step' : K → (K → V) → V) (kept : K → Bool) → Covers reads formulas → Covers reads' formulas' → IsLocal reads step → IsLocal reads' step' → IsApart reads reads' step step' kept → (seen : K → Option V) → IsSound error reads formulas step seen → IsSound error reads' formulas' step' (found_kept kept seen) }
{}

/// Where each cell that was not found reads another such cell or is circular, each of them is circular.
pub fn cells_left_are_circular<K, V>()
    ensures { (error : V) (reads : K → List K) (formulas : List K) (step : K → (K → V) → V) → Covers reads formulas → (seen : K → Option V) → IsSound error reads formulas step seen → EachWaitsOrCircles reads formulas seen → IsFull reads formulas seen }
{}
