//! Keys, areas and groups.
use anyhow::Result;
use tile_key::{Area, TileWords, area_of, key_of, rect_of, single};

/// The words of eight numbers.
pub fn words_of(numbers: &[u32]) -> Option<TileWords> {
    match numbers {
        [
            part,
            width,
            height,
            tileposx,
            tileposy,
            tilewidth,
            tileheight,
            nviewid,
        ] => Some(TileWords {
            part: *part,
            width: *width,
            height: *height,
            tileposx: *tileposx,
            tileposy: *tileposy,
            tilewidth: *tilewidth,
            tileheight: *tileheight,
            nviewid: *nviewid,
        }),
        _ => None,
    }
}

/// Prints the key that the numbers name, its points, the area of its group, and the area that the numbers
/// name.
pub fn show_key(rt: &HostRuntime, numbers: &[u32]) -> Result<()> {
    let Some(words) = words_of(numbers) else {
        return Ok(());
    };
    match key_of(&words) {
        Some(key) => {
            let rect = rect_of(&key);
            let group = single(&key).copy();
            let area = area_of(&group);
            let same = area == Area::of_key(&key) && group.keys() == [key].as_slice();
            println!(rt; "  {key:?} {rect:?} {same}")?;
        }
        None => println!(rt; "  no key")?,
    }
    match Area::read(&words) {
        Some(area) => {
            let words = area.words();
            println!(rt; "  {words:?}")?;
        }
        None => println!(rt; "  no area")?,
    }
    Ok(())
}

/// Prints how the two keys stand in key order, and whether they are one.
pub fn show_order(rt: &HostRuntime, numbers: &[u32]) -> Result<()> {
    let Some((front, behind)) = numbers.split_at_checked(8) else {
        return Ok(());
    };
    let (Some(front), Some(behind)) = (words_of(front), words_of(behind)) else {
        return Ok(());
    };
    match (key_of(&front), key_of(&behind)) {
        (Some(key), Some(other)) => {
            let order = key.compare(&other);
            let same = key.is_same(&other);
            println!(rt; "  {order:?} {same}")?;
        }
        _ => println!(rt; "  no keys")?,
    }
    Ok(())
}
