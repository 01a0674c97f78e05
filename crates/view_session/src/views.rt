//! `View`.
ghost use Rattle.std.specs.Prelude.{◌≡◌, ◌≢◌, ◌↔◌, ◌+◌, ◌<◌, ◌≤◌, ◌^◌, ◌&&◌, true, false, not, length, map, find, nat_eq, IsTrue, IfOk, OnOk, OnErr};
ghost use Rattle.std.specs.List.{list_any};
ghost use Rattle.tile_key.specs.Visible.{visible_keys, is_too_large};
ghost use Rattle.document_machine.specs.Keys.{is_among};
ghost use Rattle.document_machine.specs.Message.{asked_with_all};
ghost use Rattle.view_session.specs.Viewing.{opening, looks, zooms, goes_to, asks, cancels, processed, sent, damaged, wants, version_on, is_due, keys, uncurrent, next_due};
ghost use Rattle.view_session.specs.Keeps.{IsViewing};

use crate::asking::{asks_too_many, is_asked};
use crate::slots::{
    OnScreen, Slot, ask_all, damage, due_keys, due_place, earlier, end_asking, find, first_due,
    keep_seen, keys, next_due, see, seeing, sees_due, show,
};
use cool_base::{Memory, Rect, Size, Wid, Wids};
use document_machine::{MOST_ASKED, Rights};
use send_window::{MOST_SENT, Window};
use std::alloc::{AllocError, Global};
use std::marker::Model;
use thiserror::Error;
use tile_key::{TileKey, VisibleFault, Zoom, visible};

/// Why a view was not changed.
#[derive(Clone, Copy, Debug, PartialEq, Eq, Error)]
pub enum ViewFault {
    /// It would see more than 4,096 keys, or more than 16,777,216 pixels.
    #[error("too many tiles or pixels are visible")]
    TooLarge,
    /// It would ask for more than `MOST_ASKED` keys.
    #[error("too many tiles are asked for")]
    AskedFull,
    /// No memory was left.
    #[error("out of memory")]
    Memory,
}

impl From<Memory> for ViewFault {
    ghost use Rattle.std.specs.Prelude.{◌≡◌};
    ghost use Rattle.view_session.specs.declared.views.ViewFault.TheVariants.{Memory as NoMemory};

    ghost from_gives = { λ _ fault. fault ≡ NoMemory };

    fn from(_error: Memory) -> ViewFault {
        ViewFault::Memory
    }
}

impl From<AllocError> for ViewFault {
    ghost use Rattle.std.specs.Prelude.{◌≡◌};
    ghost use Rattle.view_session.specs.declared.views.ViewFault.TheVariants.{Memory as NoMemory};

    ghost from_gives = { λ _ fault. fault ≡ NoMemory };

    fn from(_error: AllocError) -> ViewFault {
        ViewFault::Memory
    }
}

impl From<VisibleFault> for ViewFault {
    ghost use Rattle.view_session.specs.Faults.{fault_of};
    ghost use Rattle.std.specs.Prelude.{◌≡◌};

    ghost from_gives = { λ fault now. now ≡ fault_of fault };

    fn from(fault: VisibleFault) -> ViewFault {
        match fault {
            VisibleFault::TooLarge => ViewFault::TooLarge,
            VisibleFault::Memory => ViewFault::Memory,
        }
    }
}

/// One view of a document. Each change that answers an `Err` leaves it as it was.
#[derive(Drop)]
pub struct View {
    rights: Rights,
    part: u32,
    zoom: Zoom,
    area: Rect,
    slots: Vec<Slot>,
    // How many slots come before the first that is due.
    first: usize,
    asked: Vec<TileKey>,
    window: Window,
    next_wid: u64,
}

impl Model for View {
    ghost use Rattle.view_session.specs.Viewing.{Viewing};
    ghost use Rattle.view_session.specs.Slots.{seen_in, screen_in};
    ghost use Rattle.view_session.specs.Held.{IsPlaced};

    ghost Value = { Viewing };

    ghost view = { λ v. record { rights = v.rights; part = v.part; zoom = v.zoom; area = v.area; visible = seen_in v.slots.items; asked = v.asked.items; screen = screen_in v.slots.items; window = v.window; next_wid = v.next_wid } };

    ghost invariant = { λ v. IsPlaced v.zoom v.slots.items v.asked.items v.window v.next_wid v.first };
}

impl View {
    /// A view as it joins a document whose first part has this size: in part 0, at tiles of 256 by 256
    /// pixels of 3,840 by 3,840 twips, with an area of no point.
    pub fn new(alloc: Global, rights: Rights, size: &Size) -> Result<View, Memory>
        ensures { IfOk result (λ view. view ≡ opening rights size.now) }
    {
        let Some(zoom) = Zoom::read(256, 256, 3_840, 3_840, 0) else {
            unreachable!()
        };
        let area = Rect {
            x: 0,
            y: 0,
            w: 0,
            h: 0,
        };
        let keys = match visible(alloc, 0, &zoom, &area, size) {
            Ok(keys) => keys,
            Err(VisibleFault::TooLarge) => unreachable!(),
            Err(VisibleFault::Memory) => return Err(Memory),
        };
        let slots = see(alloc, keys.as_slice())?;
        let first = due_place(slots.as_slice(), 0);
        Ok(View {
            rights,
            part: 0,
            zoom,
            area,
            slots,
            first,
            asked: Vec::new(alloc),
            window: Window::new(),
            next_wid: 1,
        })
    }

    /// What every view keeps.
    pub fn kept(&self)
        ensures { IsViewing self.now }
    {
        let _next = self.next_wid;
        let _width = self.zoom.pixel_w();
        let _room = self.window.room();
    }

    /// What the view may do.
    pub fn rights(&self) -> &Rights
        ensures { result.now ≡ self.now.rights }
    {
        &self.rights
    }

    /// The part of the document that it stands in.
    pub fn part(&self) -> u32
        ensures { result ≡ self.now.part }
    {
        self.part
    }

    /// The size of its tiles.
    pub fn zoom(&self) -> &Zoom
        ensures { result.now ≡ self.now.zoom }
    {
        &self.zoom
    }

    /// The rectangle that it looks at, in twips of its part.
    pub fn area(&self) -> &Rect
        ensures { result.now ≡ self.now.area }
    {
        &self.area
    }

    /// How many more tiles may be sent to it, of `MOST_SENT`.
    pub fn room(&self) -> u32
        ensures { result + length self.now.window ≡ MOST_SENT }
    {
        self.window.room()
    }

    /// Whether no tile waits to be acknowledged.
    pub fn is_acknowledged(&self) -> bool
        ensures { result ≡ nat_eq (length self.now.window) 0 }
    {
        self.window.is_empty()
    }

    /// The numbers of the tiles that it has not acknowledged, in the order sent.
    pub fn wids(&self) -> Wids
        ensures { map (λ wid. wid.0) result.items ≡ map (λ tile. tile.wid) self.now.window }
    {
        self.window.wids()
    }

    /// Whether the next tile's number has a successor.
    pub fn can_number(&self) -> bool
        ensures { IsTrue result ↔ (self.now.next_wid + 1 < 2 ^ 64) }
    {
        self.next_wid < u64::MAX
    }

    /// It looks at this area of its part, which has this size. TooLarge exactly where it would see more
    /// than 4,096 keys, or more than 16,777,216 pixels. The screen forgets the keys that it neither sees
    /// nor asks for then.
    pub fn set_area(&mut self, area: &Rect, size: &Size) -> Result<(), ViewFault>
        ensures ok { OnOk result (self.new ≡ looks area.now size.now self.old) }
        ensures too_large { (result ≡ Err ViewFault.TooLarge) ↔ (is_too_large self.old.zoom (length (visible_keys self.old.part self.old.zoom area.now size.now)) ≡ true) }
        ensures not_full { result ≢ Err ViewFault.AskedFull }
        ensures err { OnErr result (self.new ≡ self.old) }
    {
        let alloc = *self.slots.allocator();
        let keys = visible(alloc, self.part, &self.zoom, area, size)?;
        let slots = seeing(
            alloc,
            keys.as_slice(),
            self.asked.as_slice(),
            self.slots.as_slice(),
        )?;
        self.first = due_place(slots.as_slice(), 0);
        self.slots = slots;
        self.area = *area;
        Ok(())
    }

    /// Its tiles have this size from now on; its part has this size. TooLarge and the screen as for
    /// `set_area`.
    pub fn set_zoom(&mut self, zoom: &Zoom, size: &Size) -> Result<(), ViewFault>
        ensures ok { OnOk result (self.new ≡ zooms zoom.now size.now self.old) }
        ensures too_large { (result ≡ Err ViewFault.TooLarge) ↔ (is_too_large zoom.now (length (visible_keys self.old.part zoom.now self.old.area size.now)) ≡ true) }
        ensures not_full { result ≢ Err ViewFault.AskedFull }
        ensures err { OnErr result (self.new ≡ self.old) }
    {
        let alloc = *self.slots.allocator();
        let keys = visible(alloc, self.part, zoom, &self.area, size)?;
        let slots = seeing(
            alloc,
            keys.as_slice(),
            self.asked.as_slice(),
            self.slots.as_slice(),
        )?;
        self.first = due_place(slots.as_slice(), 0);
        self.slots = slots;
        self.zoom = *zoom;
        Ok(())
    }

    /// It goes to this part, which has this size. TooLarge and the screen as for `set_area`.
    pub fn set_part(&mut self, part: u32, size: &Size) -> Result<(), ViewFault>
        ensures ok { OnOk result (self.new ≡ goes_to part size.now self.old) }
        ensures too_large { (result ≡ Err ViewFault.TooLarge) ↔ (is_too_large self.old.zoom (length (visible_keys part self.old.zoom self.old.area size.now)) ≡ true) }
        ensures not_full { result ≢ Err ViewFault.AskedFull }
        ensures err { OnErr result (self.new ≡ self.old) }
    {
        let alloc = *self.slots.allocator();
        let keys = visible(alloc, part, &self.zoom, &self.area, size)?;
        let slots = seeing(
            alloc,
            keys.as_slice(),
            self.asked.as_slice(),
            self.slots.as_slice(),
        )?;
        self.first = due_place(slots.as_slice(), 0);
        self.slots = slots;
        self.part = part;
        Ok(())
    }

    /// It asks for these keys too, in the order given, each once. AskedFull exactly where they would be
    /// more than `MOST_ASKED` together, which is counted before any memory is taken.
    pub fn ask(&mut self, keys: &[TileKey]) -> Result<(), ViewFault>
        ensures ok { OnOk result (self.new ≡ asks keys.now self.old) }
        ensures full { (result ≡ Err ViewFault.AskedFull) ↔ (MOST_ASKED < length (asked_with_all self.old.asked keys.now)) }
        ensures not_large { result ≢ Err ViewFault.TooLarge }
        ensures err { OnErr result (self.new ≡ self.old) }
    {
        if asks_too_many(self.slots.as_slice(), self.asked.as_slice(), keys) {
            return Err(ViewFault::AskedFull);
        }
        let alloc = *self.slots.allocator();
        let mut slots = Vec::from_slice(alloc, self.slots.as_slice())?;
        let mut asked = Vec::from_slice(alloc, self.asked.as_slice())?;
        ask_all(&mut slots, &mut asked, keys)?;
        self.first = due_place(slots.as_slice(), 0);
        self.slots = slots;
        self.asked = asked;
        Ok(())
    }

    /// It asks only for what it sees, and its screen forgets the rest. It takes no memory.
    pub fn cancel(&mut self)
        ensures { self.new ≡ cancels self.old }
    {
        self.slots.retain(|slot| slot.visible);
        keep_seen(&mut self.asked, self.slots.as_slice());
        self.first = due_place(self.slots.as_slice(), 0);
    }

    /// The tile with this number is acknowledged; false exactly where none in the window has it, and then
    /// the view is unchanged. It takes no memory.
    pub fn processed(&mut self, wid: Wid) -> bool
        ensures there { result ≡ list_any (λ tile. nat_eq tile.wid wid.0) self.old.window }
        ensures processed { self.new ≡ processed wid.0 self.old }
        ensures unchanged { result ≡ false → self.new ≡ self.old }
    {
        self.window.close(wid)
    }

    /// A tile of the key in this version is sent to it, as the present one or not: the number that the
    /// tile gets. It takes no memory.
    pub fn sent(&mut self, key: &TileKey, ver: u64, current: bool) -> Wid
        requires room { length self.old.window < MOST_SENT }
        requires wanted { wants self.old key.now ≡ true }
        requires numbers { self.old.next_wid + 1 < 2 ^ 64 }
        ensures wid { result.0 ≡ self.old.next_wid }
        ensures sent { self.new ≡ sent key.now ver current self.old }
    {
        let wid = self.next_wid;
        let shown = OnScreen {
            version: ver,
            stale: !current,
        };
        end_asking(&mut self.asked, key, current);
        let place = show(&mut self.slots, key, shown, current);
        let from = earlier(self.first, place);
        self.first = due_place(self.slots.as_slice(), from);
        self.window.put(Wid(wid), key);
        self.next_wid = wid + 1;
        Wid(wid)
    }

    /// What of this part is on its screen and meets the rectangle is stale from now on. It takes no
    /// memory.
    pub fn damage(&mut self, part: u32, rect: &Rect)
        ensures { self.new ≡ damaged part rect.now self.old }
    {
        damage(self.slots.as_mut_slice(), part, rect);
        self.first = due_place(self.slots.as_slice(), 0);
    }

    /// The version of the key on its screen; None exactly where the screen lacks it.
    pub fn version(&self, key: &TileKey) -> Option<u64>
        ensures { result ≡ version_on self.now key.now }
    {
        match find(self.slots.as_slice(), key) {
            Ok(i) => self.slots[i].version(),
            Err(_) => None,
        }
    }

    /// Whether it asked for the key.
    pub fn is_asked(&self, key: &TileKey) -> bool
        ensures { result ≡ is_among self.now.asked key.now }
    {
        is_asked(self.slots.as_slice(), key)
    }

    /// Whether it sees the key or asked for it.
    pub fn wants(&self, key: &TileKey) -> bool
        ensures { result ≡ wants self.now key.now }
    {
        match find(self.slots.as_slice(), key) {
            Ok(_) => true,
            Err(_) => false,
        }
    }

    /// Whether the key is due: the view sees it and its screen lacks it or has it stale, or it asked for
    /// it.
    pub fn is_due(&self, key: &TileKey) -> bool
        ensures { result ≡ is_due self.now key.now }
    {
        match find(self.slots.as_slice(), key) {
            Ok(i) => self.slots[i].is_due(),
            Err(_) => false,
        }
    }

    /// The first due key in key order. It takes no memory.
    pub fn first_due(&self) -> Option<TileKey>
        ensures { result ≡ find (is_due self.now) (keys self.now) }
    {
        first_due(self.slots.as_slice())
    }

    /// The first due key, in key order, of those behind this one; of all where there is none. It takes no
    /// memory, and begins at the first slot that is due.
    pub fn next_due(&self, before: Option<TileKey>) -> Option<TileKey>
        ensures { result ≡ next_due before self.now }
    {
        next_due(self.slots.as_slice(), self.first, before)
    }

    /// Whether it asks for nothing and no key that it sees is due. It takes no memory.
    pub fn is_still(&self) -> bool
        ensures { result ≡ (not (list_any (is_due self.now) self.now.visible) && nat_eq (length self.now.asked) 0) }
    {
        if self.asked.len() > 0 {
            return false;
        }
        !sees_due(self.slots.as_slice())
    }

    /// The keys that it sees or asked for, each once, in key order.
    pub fn keys(&self) -> Result<Vec<TileKey>, Memory>
        ensures { IfOk result (λ list. list.items ≡ keys self.now) }
    {
        let keys = keys(*self.slots.allocator(), self.slots.as_slice())?;
        Ok(keys)
    }

    /// The due keys in key order.
    pub fn uncurrent(&self) -> Result<Vec<TileKey>, Memory>
        ensures { IfOk result (λ list. list.items ≡ uncurrent self.now) }
    {
        let keys = due_keys(*self.slots.allocator(), self.slots.as_slice())?;
        Ok(keys)
    }
}
