//! `Stage`: a document with its views, as a daemon and its browsers see it, and all that it gave out.
use crate::client::{Client, Tile, afresh, compared, joined, rect};
use crate::texts::{at, letters, line_of_frame, line_of_tile, numbers};
use broker_core::{Broker, JoinFault, Outs, Rights, Turned};
use bytes::Bytes;
use cool_base::{FileId, Memory, Token, ViewId};
use cool_frame::Frame;
use kit_trait::{Input, Kit, LoadFault, What};
use outside::Errand;
use std::alloc::Global;
use tile_key::{TileKey, Zoom};

/// A job that was cut.
#[derive(Drop)]
pub(crate) struct Held<S> {
    pub(crate) ticket: u64,
    pub(crate) scene: S,
}

/// A document with its file, its views and the inputs that it accepts, the last tiles of each view, the jobs
/// and the errands that it gave out, and in lines all that it gave out.
#[derive(Drop)]
pub(crate) struct Stage<K: Kit> {
    pub(crate) broker: Broker<K>,
    file: Bytes,
    shades: bool,
    views: Vec<Client>,
    inputs: Vec<Input>,
    tiles: Vec<Tile>,
    pub(crate) jobs: Vec<Held<K::Scene>>,
    pub(crate) errands: Vec<Errand>,
    text: String,
}

/// The broker of a document with these bytes; None where they are no file.
fn started<K: Kit>(alloc: Global, file: &Bytes) -> Result<Option<Broker<K>>, Memory> {
    let Some(id) = FileId::read("f") else {
        return Ok(None);
    };
    match Broker::start(alloc, &id, file.clone()?) {
        Ok(broker) => Ok(Some(broker)),
        Err(LoadFault::BadFile) => Ok(None),
        Err(LoadFault::Memory) => Err(Memory),
    }
}

impl<K: Kit> Stage<K> {
    /// The document of this file. Where `shades`, the line of a tile tells its first byte.
    pub(crate) fn new(alloc: Global, file: &[u8], shades: bool) -> Result<Stage<K>, Memory> {
        let file = Bytes::copy_from_slice(alloc, file)?;
        let Some(broker) = started(alloc, &file)? else {
            return Err(Memory);
        };
        Ok(Stage {
            broker,
            file,
            shades,
            views: Vec::new(alloc),
            inputs: Vec::new(alloc),
            tiles: Vec::new(alloc),
            jobs: Vec::new(alloc),
            errands: Vec::new(alloc),
            text: String::new(alloc),
        })
    }

    /// All that it gave out.
    pub(crate) fn text(&self) -> &str {
        self.broker.kept();
        self.text.as_str()
    }

    /// - `file 256 7`: the document is that of so many bytes of this value.
    /// - `join w` and `join r`: a view joins that may write, or one that may not. `crowd 3`: three that may.
    /// - `leave 0`, `say 0 text`: a view leaves, or says a text. `ask 9`: view 0 asks for nine tiles in a row.
    /// - `turn`: one turn. `paint`: the job that was cut last comes back painted. `paint_as 7`: the same under
    ///   another ticket. `paint_old`: the scene of the job before it comes back with the last one's ticket.
    /// - `serve 2`: two times `turn` and `paint`. What else becomes of works stands at `act_work`.
    /// - `tell`: the counts of inputs, and whether the document is quiet. `window 0`: the numbers of the tiles
    ///   that the view has not acknowledged.
    /// - `hush`: what was given out so far is forgotten.
    pub(crate) fn act(&mut self, alloc: Global, line: &str) -> Result<(), Memory> {
        let (word, rest) = line.split_once(' ').unwrap_or((line, ""));
        let numbers = numbers(alloc, rest)?;
        let first = at(numbers.as_slice(), 0);
        match word {
            "file" => self.loads(alloc, first, at(numbers.as_slice(), 1)),
            "join" => self.joins(alloc, rest == "w"),
            "crowd" => self.crowds(alloc, first),
            "leave" => self.leaves(first),
            "say" => {
                let (_view, text) = rest.split_once(' ').unwrap_or((rest, ""));
                self.says(alloc, first, text)
            }
            "ask" => self.asks(alloc, first),
            "turn" => self.turns(alloc),
            "paint" => self.paints(alloc),
            "paint_as" => self.paints_as(alloc, first),
            "paint_old" => self.paints_old(alloc),
            "serve" => self.serves(alloc, first),
            "tell" => self.tells(alloc),
            "window" => self.window(alloc, first),
            "hush" => {
                self.text.clear();
                Ok(())
            }
            _ => self.act_round(alloc, word, numbers.as_slice()),
        }
    }

    /// - `zoom 0 8 240`, `zoom 0 8 8 240 240 1`: a view takes tiles of so many pixels and twips, in this look.
    ///   `part 0 1`: it goes to a part. `look 0 0 0 240 720`: it looks at an area.
    /// - `click 0 10 10`: a view clicks a point. `type 0 55`: it types a character.
    /// - `rounds`: turns are made up to Idle, and each job comes back painted at once. `compare`: all windows
    ///   are acknowledged, and each tile that a view sees is compared with the document made afresh.
    /// - `show 0 0 240`: the colours of the tile that a view was last sent at a place.
    fn act_round(&mut self, alloc: Global, word: &str, numbers: &[u32]) -> Result<(), Memory> {
        let view = at(numbers, 0);
        let (a, b, c, d) = (
            at(numbers, 1),
            at(numbers, 2),
            at(numbers, 3),
            at(numbers, 4),
        );
        match word {
            "zoom" => self.zooms(alloc, view, (a, b), (c, d), at(numbers, 5)),
            "part" => self.goes(alloc, view, a),
            "look" => self.looks(alloc, view, (a, b), (c, d)),
            "click" => self.clicks(alloc, view, a, b),
            "type" => self.types(alloc, view, a),
            "rounds" => self.rounds(alloc),
            "compare" => self.compares(alloc),
            "show" => self.shows(alloc, view, a, b),
            _ => self.act_work(alloc, word, view),
        }
    }

    pub(crate) fn write(&mut self, line: &str) -> Result<(), Memory> {
        self.text.push_str(line)?;
        self.text.push('\n')?;
        Ok(())
    }

    fn loads(&mut self, alloc: Global, count: u32, value: u32) -> Result<(), Memory> {
        let byte = u8::try_from(value).unwrap_or(0);
        let mut file = Vec::new(alloc);
        for _ in 0..count {
            file.push(byte)?;
        }
        let file = Bytes::copy_from_slice(alloc, file.as_slice())?;
        let Some(broker) = started(alloc, &file)? else {
            return self.write("bad file");
        };
        self.broker = broker;
        self.file = file;
        self.write("loaded")
    }

    /// The frames, each with its view before it. Tiles are kept.
    pub(crate) fn show(&mut self, alloc: Global, outs: &Outs<K::Scene>) -> Result<(), Memory> {
        for (view, frame) in outs.frames.get() {
            let to = view.0;
            match frame {
                Frame::Tile {
                    key,
                    ver,
                    wid,
                    pixels,
                } => {
                    self.keep(to, key, pixels)?;
                    let line = line_of_tile(alloc, to, key, *ver, wid.0)?;
                    self.write_tile(alloc, line.as_str(), pixels.as_slice())?;
                }
                _ => {
                    let line = line_of_frame(alloc, to, frame)?;
                    self.write(line.as_str())?;
                }
            }
        }
        Ok(())
    }

    fn write_tile(&mut self, alloc: Global, line: &str, pixels: &[u8]) -> Result<(), Memory> {
        if !self.shades {
            return self.write(line);
        }
        let shade = pixels.first().copied().unwrap_or(0);
        let line = format!(in alloc; "{line} shade={shade}")?;
        self.write(line.as_str())
    }

    /// The view's picture of the key is this one from now on.
    fn keep(&mut self, view: u32, key: &TileKey, pixels: &Bytes) -> Result<(), Memory> {
        let pixels = pixels.clone()?;
        for tile in self.tiles.iter_mut() {
            if tile.view == view && tile.key.is_same(key) {
                tile.pixels = pixels;
                return Ok(());
            }
        }
        self.tiles.push(Tile {
            view,
            key: *key,
            pixels,
        })?;
        Ok(())
    }

    fn joins(&mut self, alloc: Global, can_write: bool) -> Result<(), Memory> {
        let Some(token) = Token::read(alloc, "t")? else {
            return Err(Memory);
        };
        match self.broker.join(Rights { can_write, token }) {
            Ok((view, outs)) => {
                let id = view.0;
                if let Some(client) = joined(id, can_write) {
                    self.views.push(client)?;
                }
                let line = format!(in alloc; "view {id}")?;
                self.write(line.as_str())?;
                self.show(alloc, &outs)
            }
            Err(JoinFault::ViewsFull) => self.write("full"),
            Err(JoinFault::Memory) => self.write("spent"),
        }
    }

    fn crowds(&mut self, alloc: Global, count: u32) -> Result<(), Memory> {
        for _ in 0..count {
            self.joins(alloc, true)?;
        }
        Ok(())
    }

    /// The view leaves, with all that it was sent.
    fn leaves(&mut self, view: u32) -> Result<(), Memory> {
        if !self.broker.is_live(ViewId(view)) {
            return self.write("no view");
        }
        self.broker.leave(ViewId(view));
        self.views.retain(|client| client.id != view);
        self.tiles.retain(|tile| tile.view != view);
        Ok(())
    }

    fn says(&mut self, alloc: Global, view: u32, text: &str) -> Result<(), Memory> {
        if !self.broker.is_live(ViewId(view)) {
            return self.write("no view");
        }
        let outs = self.broker.message(ViewId(view), text.as_bytes())?;
        self.show(alloc, &outs)
    }

    /// View 0 asks for so many tiles of 15 by 15 twips, one after the other, in a row.
    fn asks(&mut self, alloc: Global, count: u32) -> Result<(), Memory> {
        for n in 0..count {
            let x = u64::from(n) * 15;
            let text = format!(in alloc;
                "tile part=0 width=1 height=1 tileposx={x} tileposy=0 tilewidth=15 tileheight=15"
            )?;
            self.says(alloc, 0, text.as_str())?;
        }
        Ok(())
    }

    fn turns(&mut self, alloc: Global) -> Result<(), Memory> {
        match self.broker.turn()? {
            Turned::Idle => self.write("idle"),
            Turned::Worked(outs) => {
                self.show(alloc, &outs)?;
                self.hold(alloc, outs)
            }
        }
    }

    fn serves(&mut self, alloc: Global, times: u32) -> Result<(), Memory> {
        for _ in 0..times {
            self.turns(alloc)?;
            self.paints(alloc)?;
        }
        Ok(())
    }

    fn tells(&mut self, alloc: Global) -> Result<(), Memory> {
        let applied = self.broker.applied();
        let accepted = self.broker.accepted();
        let quiet = self.broker.is_quiet();
        let line = format!(in alloc; "{applied} of {accepted} applied, quiet {quiet}")?;
        self.write(line.as_str())
    }

    fn window(&mut self, alloc: Global, view: u32) -> Result<(), Memory> {
        if !self.broker.is_live(ViewId(view)) {
            return self.write("no view");
        }
        let wids = self.broker.unprocessed(ViewId(view));
        for wid in wids.as_slice() {
            let number = wid.0;
            let word = format!(in alloc; "{number} ")?;
            self.text.push_str(word.as_str())?;
        }
        self.write("open")
    }

    fn zooms(
        &mut self,
        alloc: Global,
        view: u32,
        pixels: (u32, u32),
        twips: (u32, u32),
        nviewid: u32,
    ) -> Result<(), Memory> {
        let Some(zoom) = Zoom::read(pixels.0, pixels.1, twips.0, twips.1, nviewid) else {
            return self.write("no such zoom");
        };
        for client in self.views.iter_mut() {
            if client.id == view {
                client.zoom = zoom;
            }
        }
        let (w, h) = pixels;
        let (across, down) = twips;
        let text = format!(in alloc;
            "clientzoom tilepixelwidth={w} tilepixelheight={h} tiletwipwidth={across} tiletwipheight={down} nviewid={nviewid}"
        )?;
        self.says(alloc, view, text.as_str())
    }

    /// The view goes to a part, and forgets all that it was sent.
    fn goes(&mut self, alloc: Global, view: u32, part: u32) -> Result<(), Memory> {
        for client in self.views.iter_mut() {
            if client.id == view {
                client.part = part;
            }
        }
        self.tiles.retain(|tile| tile.view != view);
        let text = format!(in alloc; "setclientpart part={part}")?;
        self.says(alloc, view, text.as_str())
    }

    fn looks(
        &mut self,
        alloc: Global,
        view: u32,
        corner: (u32, u32),
        size: (u32, u32),
    ) -> Result<(), Memory> {
        let (x, y) = corner;
        let (w, h) = size;
        let Some(area) = rect(x, y, w, h) else {
            return self.write("no such area");
        };
        for client in self.views.iter_mut() {
            if client.id == view {
                client.area = area;
            }
        }
        let text = format!(in alloc; "clientvisiblearea x={x} y={y} width={w} height={h}")?;
        self.says(alloc, view, text.as_str())
    }

    /// The input is an accepted one where its view may write.
    fn enters(&mut self, view: u32, what: What) -> Result<(), Memory> {
        for client in &self.views {
            if client.id == view && client.can_write {
                self.inputs.push(Input {
                    view: ViewId(view),
                    part: client.part,
                    what,
                })?;
            }
        }
        Ok(())
    }

    fn clicks(&mut self, alloc: Global, view: u32, x: u32, y: u32) -> Result<(), Memory> {
        self.enters(
            view,
            What::Mouse {
                x,
                y,
                count: 1,
                buttons: 1,
                modifier: 0,
            },
        )?;
        let text = format!(in alloc; "mouse type=buttondown x={x} y={y}")?;
        self.says(alloc, view, text.as_str())
    }

    fn types(&mut self, alloc: Global, view: u32, chr: u32) -> Result<(), Memory> {
        self.enters(view, What::Key { chr, code: 0 })?;
        let text = format!(in alloc; "key type=input char={chr} key=0")?;
        self.says(alloc, view, text.as_str())
    }

    /// One turn, with each job painted and answered at once: whether it did a work.
    fn round(&mut self, alloc: Global) -> Result<bool, Memory> {
        let Turned::Worked(outs) = self.broker.turn()? else {
            return Ok(false);
        };
        self.show(alloc, &outs)?;
        for job in outs.jobs.into_inner() {
            self.gives(alloc, job.ticket.0, job.scene)?;
        }
        Ok(true)
    }

    /// Turns up to Idle.
    fn rounds(&mut self, alloc: Global) -> Result<(), Memory> {
        for _turn in 0..100 {
            if !self.round(alloc)? {
                return self.write("idle");
            }
        }
        self.write("turns do not end")
    }

    /// Each view acknowledges all that it was sent.
    fn acknowledges(&mut self, alloc: Global, view: u32) -> Result<(), Memory> {
        if !self.broker.is_live(ViewId(view)) {
            return Ok(());
        }
        let wids = self.broker.unprocessed(ViewId(view));
        if wids.is_empty() {
            return Ok(());
        }
        let mut text = String::from_str(alloc, "tileprocessed wids=")?;
        for wid in wids.as_slice() {
            let number = wid.0;
            text.push_str(format!(in alloc; "{number},")?.as_str())?;
        }
        let _comma = text.pop();
        self.says(alloc, view, text.as_str())
    }

    /// A line with whether the document is quiet once all windows are acknowledged, and how many of the tiles
    /// that the views see are what the document of the accepted inputs shows there.
    fn compares(&mut self, alloc: Global) -> Result<(), Memory> {
        for i in 0..self.views.len() {
            let view = match self.views.get(i) {
                Some(client) => client.id,
                None => break,
            };
            self.acknowledges(alloc, view)?;
        }
        self.tells(alloc)?;
        let made = afresh(alloc, self.file.as_slice(), self.inputs.as_slice())?;
        let Some(mut kit): Option<K> = made else {
            return self.write("no such document");
        };
        let (mut count, mut all) = (0usize, 0usize);
        for client in &self.views {
            let (keys, right) = compared(alloc, &mut kit, client, self.tiles.as_slice())?;
            all = all.wrapping_add(keys);
            count = count.wrapping_add(right);
        }
        let line = format!(in alloc; "{count} of {all} tiles are right")?;
        self.write(line.as_str())
    }

    fn shows(&mut self, alloc: Global, view: u32, x: u32, y: u32) -> Result<(), Memory> {
        for tile in &self.tiles {
            if tile.view == view && tile.key.posx() == x && tile.key.posy() == y {
                let letters = letters(alloc, tile.pixels.as_slice())?;
                self.text.push_str(letters.as_str())?;
                self.text.push('\n')?;
                return Ok(());
            }
        }
        self.write("no such tile")
    }
}
