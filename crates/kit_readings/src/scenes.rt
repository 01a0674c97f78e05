//! Lines that ask for what a document shows.
use crate::documents::number_of;
use cool_base::Ticket;
use kit_trait::{Kit, PaintJob, Pixels, Scene, paint};
use std::alloc::Global;
use std::fmt::Debug;
use std::io::Print;
use tile_key::{Area, TileKey, TileWords, single};

/// Cuts the scene of the line's area, and prints its picture or what it holds, or keeps it.
pub fn show<K: Kit>(
    rt: &impl Print,
    alloc: Global,
    kit: &mut K,
    kept: &mut Option<K::Scene>,
    word: &str,
    rest: &str,
) -> anyhow::Result<()>
where
    K::Scene: Debug,
{
    let Some(area) = area_of(rest) else {
        return Ok(println!(rt; "  no area")?);
    };
    if area.part() >= kit.parts() {
        return Ok(println!(rt; "  no such part")?);
    }
    let scene = kit.scene(alloc, &area)?;
    match word {
        "cut" => println!(rt; "  {scene:?}")?,
        "keep" => *kept = Some(scene),
        "kept" => compare(rt, alloc, kept, &scene)?,
        _ => print_picture(rt, &painted(alloc, scene)?)?,
    }
    Ok(())
}

// The area that eight numbers name.
fn area_of(rest: &str) -> Option<Area> {
    let mut numbers = [0; 8];
    for (place, word) in rest.split(' ').enumerate() {
        if place < 8 {
            numbers[place] = number_of(word);
        }
    }
    Area::read(&TileWords {
        part: numbers[0],
        width: numbers[1],
        height: numbers[2],
        tileposx: numbers[3],
        tileposy: numbers[4],
        tilewidth: numbers[5],
        tileheight: numbers[6],
        nviewid: numbers[7],
    })
}

// The picture that a painter answers to a job of the scene.
fn painted<S: Scene>(alloc: Global, scene: S) -> anyhow::Result<Pixels> {
    let job = PaintJob {
        ticket: Ticket(1),
        number: 0,
        group: single(&TileKey::default()),
        scene,
    };
    Ok(paint(alloc, job)?.pixels)
}

// Whether the kept scene is equal to the new one, and the picture of its copy.
fn compare<S: Scene>(
    rt: &impl Print,
    alloc: Global,
    kept: &Option<S>,
    scene: &S,
) -> anyhow::Result<()> {
    let Some(old) = kept else {
        return Ok(println!(rt; "  none is kept")?);
    };
    let copy = old.copy(alloc)?;
    println!(rt; "  equal: {} {}", *old == *scene, copy == *old)?;
    print_picture(rt, &copy.paint(alloc)?)
}

// Prints a letter for each pixel, row by row.
fn print_picture(rt: &impl Print, pixels: &Pixels) -> anyhow::Result<()> {
    println!(rt; "  {} by {}", pixels.width, pixels.height)?;
    let across = (4 * pixels.width as usize).max(4);
    for row in pixels.rgba.chunks(across) {
        print!(rt; "  ")?;
        for pixel in row.chunks(4) {
            print!(rt; "{}", letter_of(pixel))?;
        }
        println!(rt)?;
    }
    Ok(())
}

// `W` for white, `B` for black, `G` for the grey of lines, a digit for the colour 1 to 9, `+` for another
// grey, `?` for what is no grey.
fn letter_of(pixel: &[u8]) -> char {
    match pixel {
        [255, 255, 255, 255] => 'W',
        [0, 0, 0, 255] => 'B',
        [192, 192, 192, 255] => 'G',
        [red, green, blue, 255] => {
            if *red != *green || *green != *blue {
                '?'
            } else if *red < 10 {
                char::from(b'0' + *red)
            } else {
                '+'
            }
        }
        _ => '?',
    }
}
