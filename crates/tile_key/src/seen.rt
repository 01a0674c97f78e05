//! The keys that a view sees.
ghost use Rattle.std.specs.Prelude.{◌≡◌, ℕ, ◌+◌, ◌*◌, ◌/◌, ◌<◌, ◌≤◌, ◌^◌, ◌↔◌, ◌++◌, true, length, IsTrue, IfOk, OnOk, AllPairs, Contains};
ghost use Rattle.tile_key.specs.Places.{Place, is_zoom};
ghost use Rattle.tile_key.specs.Visible.{IsVisible, IsBefore, row_of, rows_of, tiles_to, visible_keys, is_too_large, IsPart};
ghost use Rattle.cool_base.specs.Points.{intersection_of};

use crate::keys::TileKey;
use crate::zooms::Zoom;
use cool_base::{Memory, Rect, Size, cut};
use std::alloc::{AllocError, AllocFailed, Global};
use thiserror::Error;

/// Why the keys that a view sees were not listed.
#[derive(Clone, Copy, Debug, PartialEq, Eq, Error)]
pub enum VisibleFault {
    /// They are more than 4,096, or their pixels more than 16,777,216.
    #[error("too many tiles or pixels are visible")]
    TooLarge,
    /// No memory was left.
    #[error("out of memory")]
    Memory,
}

impl From<Memory> for VisibleFault {
    ghost use Rattle.std.specs.Prelude.{◌≡◌};
    ghost use Rattle.tile_key.specs.declared.seen.VisibleFault.TheVariants.{Memory as NoMemory};

    ghost from_gives = { λ _ fault. fault ≡ NoMemory };

    fn from(_error: Memory) -> VisibleFault {
        VisibleFault::Memory
    }
}

// The rows and columns of a zoom that a view sees: the first ones, and how many they are.
#[derive(Clone, Copy)]
struct Grid {
    first: u32,
    columns: u32,
    top: u32,
    rows: u32,
}

/// The keys of the part and the zoom whose rectangle meets the area cut to the part's size, each once,
/// in key order. TooLarge exactly where they are more than 4,096, or their pixels more than 16,777,216;
/// this takes no memory. The time is that of the keys listed.
pub fn visible(
    alloc: Global,
    part: u32,
    zoom: &Zoom,
    area: &Rect,
    size: &Size,
) -> Result<Vec<TileKey>, VisibleFault>
    ensures keys { IfOk result (λ keys. keys.items ≡ visible_keys part zoom.now area.now size.now) }
    ensures each { IfOk result (λ keys. (key : Place) → Contains keys.items key ↔ IsVisible part zoom.now area.now size.now key) }
    ensures order { IfOk result (λ keys. AllPairs IsBefore keys.items) }
    ensures too_large { (result ≡ Err VisibleFault.TooLarge) ↔ (is_too_large zoom.now (length (visible_keys part zoom.now area.now size.now)) ≡ true) }
{
    if sees_too_many(zoom, area, size) {
        return Err(VisibleFault::TooLarge);
    }
    let keys = keys_of(alloc, part, zoom, &grid_of(zoom, area, size))?;
    Ok(keys)
}

/// Whether a view of this zoom and area would see more than 4,096 keys, or more than 16,777,216 pixels.
pub fn sees_too_many(zoom: &Zoom, area: &Rect, size: &Size) -> bool
    ensures { (part : ℕ) → result ≡ is_too_large zoom.now (length (visible_keys part zoom.now area.now size.now)) }
{
    let grid = grid_of(zoom, area, size);
    is_large(zoom, &grid)
}

fn grid_of(zoom: &Zoom, area: &Rect, size: &Size) -> Grid
    ensures keys { (part : ℕ) → rows_of part zoom.now result.first result.columns result.top result.rows ≡ visible_keys part zoom.now area.now size.now }
    ensures right { (result.first + result.columns) * zoom.now.twip_w ≤ 2147483647 + zoom.now.twip_w }
    ensures lower { (result.top + result.rows) * zoom.now.twip_h ≤ 2147483647 + zoom.now.twip_h }
    ensures wide { result.first + result.columns < 2 ^ 32 }
    ensures high { result.top + result.rows < 2 ^ 32 }
    ensures zoom { IsTrue (is_zoom zoom.now) }
    ensures size { IsPart size.now }
{
    let part = Rect {
        x: 0,
        y: 0,
        w: size.w,
        h: size.h,
    };
    let seen = cut(area, &part);
    let across = zoom.twip_w();
    let down = zoom.twip_h();
    let first = seen.x / across;
    let top = seen.y / down;
    let columns = (seen.x + seen.w + across - 1) / across - first;
    let rows = (seen.y + seen.h + down - 1) / down - top;
    Grid {
        first,
        columns,
        top,
        rows,
    }
}

fn is_large(zoom: &Zoom, grid: &Grid) -> bool
    ensures { result ≡ is_too_large zoom.now (grid.now.rows * grid.now.columns) }
{
    let count = u64::from(grid.rows) * u64::from(grid.columns);
    let pixels = u64::from(zoom.pixel_w()) * u64::from(zoom.pixel_h());
    count > 4_096 || count * pixels > 16_777_216
}

#[tactic(auto, unfolding(crate::specs::Visible::rows_of))]
fn keys_of(alloc: Global, part: u32, zoom: &Zoom, grid: &Grid) -> Result<Vec<TileKey>, Memory>
    requires right { (grid.now.first + grid.now.columns) * zoom.now.twip_w ≤ 2147483647 + zoom.now.twip_w }
    requires lower { (grid.now.top + grid.now.rows) * zoom.now.twip_h ≤ 2147483647 + zoom.now.twip_h }
    requires wide { grid.now.first + grid.now.columns < 2 ^ 32 }
    requires high { grid.now.top + grid.now.rows < 2 ^ 32 }
    ensures { IfOk result (λ keys. keys.items ≡ rows_of part zoom.now grid.now.first grid.now.columns grid.now.top grid.now.rows) }
{
    let mut keys = Vec::new(alloc);
    for row in 0..grid.rows {
        push_row(&mut keys, part, zoom, grid, grid.top + row)?;
    }
    Ok(keys)
}

#[tactic(auto, unfolding(crate::specs::Visible::row_of))]
fn push_row(
    keys: &mut Vec<TileKey>,
    part: u32,
    zoom: &Zoom,
    grid: &Grid,
    row: u32,
) -> Result<(), Memory>
    requires right { (grid.now.first + grid.now.columns) * zoom.now.twip_w ≤ 2147483647 + zoom.now.twip_w }
    requires lower { row * zoom.now.twip_h ≤ 2147483647 }
    requires wide { grid.now.first + grid.now.columns < 2 ^ 32 }
    ensures { OnOk result (keys.new.items ≡ keys.old.items ++ row_of part zoom.now grid.now.first row grid.now.columns) }
{
    for column in 0..grid.columns {
        keys.push(zoom.key(part, grid.first + column, row))?;
    }
    Ok(())
}
