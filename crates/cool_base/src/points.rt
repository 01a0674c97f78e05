//! Rectangles as sets of points, and sizes.

ghost use Rattle.std.specs.Prelude.{◌≡◌, ℕ, ◌&&◌, ◌↔◌, IsTrue};
ghost use Rattle.cool_base.specs.Points.{has_point, Meet, do_meet, intersection_of, nowhere};

use std::marker::Model;

/// The points (px, py) with x ≤ px < x + w and y ≤ py < y + h. Both sums are below 2^32. It has no
/// point where w or h is 0.
#[derive(Clone, Copy, Debug, PartialEq, Eq, PartialOrd, Ord, Hash)]
pub struct Rect {
    pub x: u32,
    pub y: u32,
    pub w: u32,
    pub h: u32,
}

impl Model for Rect {
    ghost use Rattle.std.specs.Prelude.{◌+◌, ◌<◌, ◌^◌};
    ghost use Rattle.cool_base.specs.Points.{Rectangle};

    ghost Value = { Rectangle };

    ghost view = { λ a. record { x = a.x; y = a.y; w = a.w; h = a.h } };

    ghost invariant = { λ a. (a.x + a.w < 2 ^ 32) × (a.y + a.h < 2 ^ 32) };

    ghost inverse = { λ r. record { x = r.x; y = r.y; w = r.w; h = r.h } };
}

/// A width and a height, each at most 2,147,483,647.
#[derive(Clone, Copy, Debug, PartialEq, Eq, PartialOrd, Ord, Hash)]
pub struct Size {
    pub w: u32,
    pub h: u32,
}

impl Model for Size {
    ghost use Rattle.std.specs.Prelude.{◌<◌, ◌^◌};
    ghost use Rattle.cool_base.specs.Points.{Extent};

    ghost Value = { Extent };

    ghost view = { λ a. record { w = a.w; h = a.h } };

    ghost invariant = { λ a. (a.w < 2 ^ 31) × (a.h < 2 ^ 31) };

    ghost inverse = { λ e. record { w = e.w; h = e.h } };
}

/// Whether the two rectangles have a common point.
pub fn meets(a: &Rect, b: &Rect) -> bool
    ensures points { IsTrue result ↔ Meet a.now b.now }
    ensures corners { result ≡ do_meet a.now b.now }
{
    a.x.max(b.x) < (a.x + a.w).min(b.x + b.w) && a.y.max(b.y) < (a.y + a.h).min(b.y + b.h)
}

/// The common points of the two rectangles, all zero where there is none.
pub fn cut(a: &Rect, b: &Rect) -> Rect
    ensures points { (px py : ℕ) → has_point result px py ≡ (has_point a.now px py && has_point b.now px py) }
    ensures none { ¬ Meet a.now b.now → result ≡ nowhere }
    ensures corners { result ≡ intersection_of a.now b.now }
{
    if !meets(a, b) {
        return Rect {
            x: 0,
            y: 0,
            w: 0,
            h: 0,
        };
    }
    let x = a.x.max(b.x);
    let y = a.y.max(b.y);
    Rect {
        x,
        y,
        w: (a.x + a.w).min(b.x + b.w) - x,
        h: (a.y + a.h).min(b.y + b.h) - y,
    }
}
