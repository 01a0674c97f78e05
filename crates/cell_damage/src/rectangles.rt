//! Damaged rectangles.
ghost use Rattle.std.specs.Prelude.{◌≡◌, ◌≤◌, [], length, map, fold, vec_capacity};
ghost use Rattle.cell_damage.specs.Rectangles.{rect_over, damaged, damage_in};

use crate::limits::MOST_RECTANGLES;
use cool_base::Rect;
use kit_trait::Damage;

/// Adds to `damage`, which is empty and has room for `MOST_RECTANGLES`, the damage of the part in
/// which these rectangles are damaged. It takes no memory.
#[tactic(auto, unfolding(crate::specs::Rectangles::damage_in))]
pub fn damage_in(mut damage: Vec<Damage>, part: u32, rects: &[Rect]) -> Vec<Damage>
    requires none { damage.items ≡ [] }
    requires room { MOST_RECTANGLES ≤ vec_capacity damage }
    ensures { result.items ≡ damage_in part rects.now }
{
    match rects {
        [] => {}
        [first, others @ ..] => {
            if rects.len() <= MOST_RECTANGLES {
                push_each(&mut damage, part, rects);
            } else {
                let rect = rect_over_all(*first, others);
                let _ = damage.push(Damage { part, rect });
            }
        }
    }
    damage
}

// Adds each rectangle, for which there is room.
fn push_each(damage: &mut Vec<Damage>, part: u32, rects: &[Rect])
    requires none { damage.old.items ≡ [] }
    requires room { length rects.now ≤ vec_capacity damage.old }
    ensures { damage.new.items ≡ map (damaged part) rects.now }
{
    for rect in rects {
        let _ = damage.push(Damage { part, rect: *rect });
    }
}

// The least rectangle that holds one and these others.
fn rect_over_all(first: Rect, others: &[Rect]) -> Rect
    ensures { result ≡ fold rect_over first others.now }
{
    let mut over = first;
    for rect in others {
        over = rect_over(over, *rect);
    }
    over
}

/// The least rectangle that holds both.
pub(crate) fn rect_over(a: Rect, b: Rect) -> Rect
    ensures { result ≡ rect_over a b }
{
    let x = a.x.min(b.x);
    let y = a.y.min(b.y);
    Rect {
        x,
        y,
        w: (a.x + a.w).max(b.x + b.w) - x,
        h: (a.y + a.h).max(b.y + b.h) - y,
    }
}
