//! What the damage of cells and of rectangles is: each law is a function with an empty body whose
//! contract is the law.
ghost use Rattle.std.specs.Prelude.{◌≡◌, ℕ, ◌/◌, ◌≤◌, true, List, length};
ghost use Rattle.std.specs.List.{list_any, Contains};
ghost use Rattle.cool_base.specs.Points.{Rectangle, has_point};
ghost use Rattle.kit_trait.specs.Rules.{hurts_point};
ghost use Rattle.cell_damage.specs.declared.limits.TheConstants.{CELL_WIDTH, CELL_HEIGHT, MOST_RECTANGLES};
ghost use Rattle.cell_damage.specs.Rectangles.{damage_in};
ghost use Rattle.cell_damage.specs.Cells.{damage_of};

/// A point of a damaged rectangle, and a point of a damaged cell, is damaged.
pub fn damage_has_its_points()
    ensures rects { (part x y : ℕ) (rects : List Rectangle) → list_any (λ r. has_point r x y) rects ≡ true → list_any (λ d. hurts_point d part x y) (damage_in part rects) ≡ true }
    ensures cells { (part x y : ℕ) (cells : List (ℕ × ℕ)) → Contains cells (y / CELL_HEIGHT, x / CELL_WIDTH) → list_any (λ d. hurts_point d part x y) (damage_of part cells) ≡ true }
{}

/// Damage has at most `MOST_RECTANGLES` rectangles.
pub fn damage_is_of_few_rectangles()
    ensures rects { (part : ℕ) (rects : List Rectangle) → length (damage_in part rects) ≤ MOST_RECTANGLES }
    ensures cells { (part : ℕ) (cells : List (ℕ × ℕ)) → length (damage_of part cells) ≤ MOST_RECTANGLES }
{}
