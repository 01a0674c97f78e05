//! Zooms, visible keys and rectangles.
use anyhow::Result;
use cool_base::{Rect, Size, cut, meets};
use tile_key::{VisibleFault, Zoom, sees_too_many, visible};

/// Prints the zoom of the five numbers.
pub fn show_zoom(rt: &HostRuntime, numbers: &[u32]) -> Result<()> {
    match zoom_of(numbers) {
        Some(zoom) => println!(rt; "  {zoom:?}")?,
        None => println!(rt; "  no zoom")?,
    }
    Ok(())
}

fn zoom_of(numbers: &[u32]) -> Option<Zoom> {
    match numbers {
        [pixel_w, pixel_h, twip_w, twip_h, nviewid] => {
            Zoom::read(*pixel_w, *pixel_h, *twip_w, *twip_h, *nviewid)
        }
        _ => None,
    }
}

// The rectangle of these four numbers, where its sums are below 2^32.
fn rect_of(x: u32, y: u32, w: u32, h: u32) -> Option<Rect> {
    let _right = x.checked_add(w)?;
    let _lower = y.checked_add(h)?;
    Some(Rect { x, y, w, h })
}

// The size of these two numbers, where they are below 2^31.
fn size_of(w: u32, h: u32) -> Option<Size> {
    if w > 2_147_483_647 || h > 2_147_483_647 {
        return None;
    }
    Some(Size { w, h })
}

/// Prints the keys that a view sees.
pub fn show_visible(rt: &HostRuntime, numbers: &[u32]) -> Result<()> {
    let [
        part,
        pixel_w,
        pixel_h,
        twip_w,
        twip_h,
        nviewid,
        x,
        y,
        w,
        h,
        width,
        height,
    ] = numbers
    else {
        return Ok(());
    };
    let zoom = Zoom::read(*pixel_w, *pixel_h, *twip_w, *twip_h, *nviewid);
    let area = rect_of(*x, *y, *w, *h);
    let (Some(zoom), Some(area), Some(size)) = (zoom, area, size_of(*width, *height)) else {
        println!(rt; "  no view")?;
        return Ok(());
    };
    show_seen(rt, *part, &zoom, &area, &size)
}

// Prints how many keys the view sees, the first and the last.
fn show_seen(rt: &HostRuntime, part: u32, zoom: &Zoom, area: &Rect, size: &Size) -> Result<()> {
    let many = sees_too_many(zoom, area, size);
    match visible(rt.alloc(), part, zoom, area, size) {
        Ok(keys) => {
            let count = keys.len();
            let (first, last) = (keys.first(), keys.last());
            println!(rt; "  {many} {count}\n  {first:?}\n  {last:?}")?;
        }
        Err(VisibleFault::Memory) => return Err(VisibleFault::Memory.into()),
        Err(fault) => println!(rt; "  {many} {fault:?}")?,
    }
    Ok(())
}

/// Prints whether the two rectangles meet, and their common points.
pub fn show_rects(rt: &HostRuntime, numbers: &[u32]) -> Result<()> {
    let [x, y, w, h, px, py, pw, ph] = numbers else {
        return Ok(());
    };
    let (Some(a), Some(b)) = (rect_of(*x, *y, *w, *h), rect_of(*px, *py, *pw, *ph)) else {
        println!(rt; "  no rectangles")?;
        return Ok(());
    };
    let meet = meets(&a, &b);
    let common = cut(&a, &b);
    println!(rt; "  {meet} {common:?}")?;
    Ok(())
}
