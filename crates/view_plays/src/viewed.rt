//! `Viewed`: a view that sees tiles of 3,840 twips in parts of 64 by 64 of them, and what it answered.
use crate::words::{at, numbers};
use cool_base::{Memory, Rect, Size, Token, Wid};
use std::alloc::Global;
use tile_key::{TileKey, TileWords, Zoom, key_of};
use view_session::{Rights, View, ViewFault};

const PART: Size = Size {
    w: 245_760,
    h: 245_760,
};

// The key of a column of row 0, of so many pixels and twips.
fn key(column: u32, pixels: u32, twips: u32, nviewid: u32) -> Option<TileKey> {
    key_of(&TileWords {
        part: 0,
        width: pixels,
        height: pixels,
        tileposx: column.wrapping_mul(twips),
        tileposy: 0,
        tilewidth: twips,
        tileheight: twips,
        nviewid,
    })
}

// The area of so many columns and rows.
fn area(columns: u32, rows: u32) -> Option<Rect> {
    if columns > 1_000 || rows > 1_000 {
        return None;
    }
    Some(Rect {
        x: 0,
        y: 0,
        w: columns * 3_840,
        h: rows * 3_840,
    })
}

// A rectangle over the edge of the first row.
fn edge(x: u32, w: u32) -> Option<Rect> {
    if x > 1_000_000 || w > 1_000_000 {
        return None;
    }
    Some(Rect {
        x,
        y: 3_839,
        w,
        h: 9,
    })
}

fn answer(changed: Result<(), ViewFault>) -> &'static str {
    match changed {
        Ok(()) => "done",
        Err(ViewFault::TooLarge) => "too large",
        Err(ViewFault::AskedFull) => "asked full",
        Err(ViewFault::Memory) => "out of memory",
    }
}

/// A view, and in lines what it answered.
#[derive(Drop)]
pub(crate) struct Viewed {
    view: View,
    text: String,
}

impl Viewed {
    /// A view that may write, as it joins.
    pub(crate) fn new(alloc: Global) -> Result<Viewed, Memory> {
        let Some(token) = Token::read(alloc, "token")? else {
            return Err(Memory);
        };
        let rights = Rights {
            can_write: true,
            token,
        };
        Ok(Viewed {
            view: View::new(alloc, rights, &PART)?,
            text: String::new(alloc),
        })
    }

    /// All that it answered.
    pub(crate) fn text(&self) -> &str {
        self.text.as_str()
    }

    /// - `look 2 1`: it looks at so many columns and rows. `scale 128 1920`: its tiles have so many pixels and
    ///   twips, and the look of a third number. `go 1`: it goes to a part.
    /// - `ask 9`, `ask 9 1`: it asks for the key in this column of row 0, in this look. `many 1024`, `many 1024
    ///   2`: it asks for so many keys of one pixel at once, each so many times. `cancel`.
    /// - `send 9 4 1`: the key in this column is sent in this version, as the present one where the last number
    ///   is 1. `send_all`: present tiles of the due keys are sent while there is room. `process 3`.
    /// - `damage 0 3839 1`: so many twips of a part are damaged, from this one on.
    /// - `facts`, `tell`, `count`: what it is; its keys, with what is said of each; how many these are.
    /// - `next`, `behind 9`: the first due key, and the first behind the key in this column.
    pub(crate) fn act(&mut self, alloc: Global, line: &str) -> Result<(), Memory> {
        let (word, rest) = line.split_once(' ').unwrap_or((line, ""));
        let numbers = numbers(alloc, rest)?;
        let (a, b, c) = (
            at(numbers.as_slice(), 0),
            at(numbers.as_slice(), 1),
            at(numbers.as_slice(), 2),
        );
        match word {
            "look" => self.looks(a, b),
            "scale" => self.scales(a, b, c),
            "go" => {
                let done = self.view.set_part(a, &PART);
                self.write(answer(done))
            }
            "ask" => self.asks(a, b),
            "many" => self.asks_many(alloc, a, b),
            "cancel" => {
                self.view.cancel();
                self.write("done")
            }
            "process" => {
                let open = self.view.processed(Wid(u64::from(a)));
                self.write(if open { "open" } else { "not open" })
            }
            "damage" => self.damages(a, b, c),
            _ => self.act_more(alloc, word, a, b, c),
        }
    }

    fn act_more(
        &mut self,
        alloc: Global,
        word: &str,
        a: u32,
        b: u32,
        c: u32,
    ) -> Result<(), Memory> {
        match word {
            "send" => self.sends(alloc, a, b, c == 1),
            "send_all" => self.sends_all(alloc),
            "facts" => self.facts(alloc),
            "tell" => self.tells(alloc),
            "count" => self.counts(alloc),
            "next" => self.tells_next(alloc, None),
            "behind" => self.tells_next(alloc, key(a, 256, 3_840, 0)),
            _ => self.write("no such act"),
        }
    }

    fn write(&mut self, line: &str) -> Result<(), Memory> {
        self.text.push_str(line)?;
        self.text.push('\n')?;
        Ok(())
    }

    fn looks(&mut self, columns: u32, rows: u32) -> Result<(), Memory> {
        let Some(area) = area(columns, rows) else {
            return self.write("no such area");
        };
        let done = self.view.set_area(&area, &PART);
        self.write(answer(done))
    }

    fn scales(&mut self, pixels: u32, twips: u32, nviewid: u32) -> Result<(), Memory> {
        let Some(zoom) = Zoom::read(pixels, pixels, twips, twips, nviewid) else {
            return self.write("no such zoom");
        };
        let done = self.view.set_zoom(&zoom, &PART);
        self.write(answer(done))
    }

    fn asks(&mut self, column: u32, nviewid: u32) -> Result<(), Memory> {
        let Some(key) = key(column, 256, 3_840, nviewid) else {
            return self.write("no such key");
        };
        let done = self.view.ask(&[key]);
        self.write(answer(done))
    }

    fn asks_many(&mut self, alloc: Global, count: u32, times: u32) -> Result<(), Memory> {
        let mut keys = Vec::new(alloc);
        for _ in 0..times.max(1) {
            for column in 0..count {
                if let Some(key) = key(column, 1, 15, 0) {
                    keys.push(key)?;
                }
            }
        }
        let done = self.view.ask(keys.as_slice());
        self.write(answer(done))
    }

    fn damages(&mut self, part: u32, x: u32, w: u32) -> Result<(), Memory> {
        let Some(rect) = edge(x, w) else {
            return self.write("no such rectangle");
        };
        self.view.damage(part, &rect);
        self.write("done")
    }

    fn sent(&mut self, key: &TileKey, version: u64, current: bool) -> Option<Wid> {
        if self.view.room() == 0 || !self.view.wants(key) || !self.view.can_number() {
            return None;
        }
        Some(self.view.sent(key, version, current))
    }

    fn sends(
        &mut self,
        alloc: Global,
        column: u32,
        version: u32,
        current: bool,
    ) -> Result<(), Memory> {
        let Some(key) = key(column, 256, 3_840, 0) else {
            return self.write("no such key");
        };
        match self.sent(&key, u64::from(version), current) {
            Some(wid) => {
                let number = wid.0;
                let line = format!(in alloc; "tile {number}")?;
                self.write(line.as_str())
            }
            None => self.write("not sent"),
        }
    }

    fn sends_all(&mut self, alloc: Global) -> Result<(), Memory> {
        let mut count = 0u32;
        for _ in 0..100 {
            let Some(key) = self.view.first_due() else {
                break;
            };
            if self.sent(&key, 0, true).is_none() {
                break;
            }
            count = count.wrapping_add(1);
        }
        let line = format!(in alloc; "{count} tiles")?;
        self.write(line.as_str())
    }

    fn facts(&mut self, alloc: Global) -> Result<(), Memory> {
        self.view.kept();
        let writes = self.view.rights().can_write;
        let part = self.view.part();
        let zoom = self.view.zoom();
        let (wide, high) = (zoom.pixel_w(), zoom.pixel_h());
        let (across, down) = (zoom.twip_w(), zoom.twip_h());
        let look = zoom.nviewid();
        let area = self.view.area();
        let (x, y, w, h) = (area.x, area.y, area.w, area.h);
        let numbers = self.view.can_number();
        let line = format!(in alloc;
            "write {writes} part {part} zoom {wide}x{high} {across}x{down} {look} area {x},{y} {w}x{h} number {numbers}"
        )?;
        self.write(line.as_str())
    }

    // Each key, with a mark where it is due, one where it is asked for, and its version on the screen.
    fn tells(&mut self, alloc: Global) -> Result<(), Memory> {
        for key in self.view.keys()?.as_slice() {
            let word = told(alloc, &self.view, key)?;
            self.text.push_str(word.as_str())?;
        }
        self.write("")
    }

    fn tells_next(&mut self, alloc: Global, before: Option<TileKey>) -> Result<(), Memory> {
        match self.view.next_due(before) {
            Some(key) => {
                let word = told(alloc, &self.view, &key)?;
                self.write(word.as_str())
            }
            None => self.write("none is due"),
        }
    }

    fn counts(&mut self, alloc: Global) -> Result<(), Memory> {
        let keys = self.view.keys()?.len();
        let due = self.view.uncurrent()?.len();
        let open = self.view.wids().len();
        let still = if self.view.is_still() { ", still" } else { "" };
        let closed = if self.view.is_acknowledged() {
            ", acknowledged"
        } else {
            ""
        };
        let line = format!(in alloc; "{keys} keys, {due} due, {open} open{still}{closed}")?;
        self.write(line.as_str())
    }
}

fn told(alloc: Global, view: &View, key: &TileKey) -> Result<String, Memory> {
    let part = key.part();
    let column = key.posx() / 3_840;
    let look = if key.nviewid() == 1 { "*" } else { "" };
    let due = if view.is_due(key) { "!" } else { "" };
    let asked = if view.is_asked(key) { "?" } else { "" };
    match view.version(key) {
        Some(version) => Ok(format!(in alloc; "{part}.{column}{look}{due}{asked}={version} ")?),
        None => Ok(format!(in alloc; "{part}.{column}{look}{due}{asked} ")?),
    }
}
