// What a script does to the host, its clock and its wires.
ghost use Rattle.std.specs.Prelude.{◌≡◌, max, IfOk, IsTrue, OnOk, OnErr, Some, None};
ghost use Rattle.wopi_host.specs.Hosts.{SamePages, SetsLock};
ghost use Rattle.wopi_host.specs.Keepers.{IsKept, Keeps, SameHoldings};
ghost use Rattle.wopi_host.specs.Marks.{lock_of};
ghost use Rattle.wopi_host.specs.Table.{is_lock_text};
ghost use Rattle.host_store.specs.Kept.{store_at, held_by, pages_in, StaysBeside};

use super::HostStore;
use bytes::Bytes;
use cool_base::{FileId, Memory};
use wopi_host::KeeperFault;

impl HostStore {
    /// The moment, in seconds.
    pub fn moment(&self) -> u64
        ensures { result ≡ self.now.moment }
    {
        self.moment
    }

    /// From now on it is this moment, in seconds.
    pub fn set_time(&mut self, now: u64)
        ensures moment { store_at self.new ≡ record (store_at self.old) { now = now } }
        ensures calls { self.new.calls ≡ self.old.calls }
    {
        self.moment = now;
    }

    /// So many of the next wires fail at their first send, or more where more were to fail.
    pub fn fail_next(&mut self, count: u64)
        ensures failing { store_at self.new
            ≡ record (store_at self.old) { failing = max self.old.failing count } }
        ensures calls { self.new.calls ≡ self.old.calls }
    {
        self.failing = self.failing.max(count);
    }

    /// The host keeps the file with this content, by one keep. A refused keep keeps nothing.
    pub fn add(&mut self, file: &FileId, content: &Bytes) -> Result<(), KeeperFault>
        ensures keeps { OnOk result
            (Keeps (held_by self.old) file.now content.now (held_by self.new)) }
        ensures refused { OnErr result (SameHoldings (held_by self.old) (held_by self.new)) }
        ensures pages { pages_in self.new ≡ pages_in self.old }
        ensures stays { StaysBeside self.old self.new }
    {
        self.host.add(file, content)
    }

    /// The file's content; None exactly where the host lacks the file.
    pub fn content(&mut self, file: &FileId) -> Result<Option<Bytes>, KeeperFault>
        ensures finds { IfOk result (IsKept (held_by self.old) file.now) }
        ensures held { SameHoldings (held_by self.old) (held_by self.new) }
        ensures pages { pages_in self.new ≡ pages_in self.old }
        ensures stays { StaysBeside self.old self.new }
    {
        self.host.content(file)
    }

    /// The file's lock becomes this id, and ends 1,800 seconds after the store's moment.
    pub fn set_lock(&mut self, file: &FileId, id: &str) -> Result<(), Memory>
        requires { IsTrue (is_lock_text id.now) }
        ensures locks { OnOk result
            (SetsLock (pages_in self.old) file.now (Some (lock_of id.now self.old.moment))
            (pages_in self.new)) }
        ensures refused { OnErr result (SamePages (pages_in self.old) (pages_in self.new)) }
        ensures held { held_by self.new ≡ held_by self.old }
        ensures stays { StaysBeside self.old self.new }
    {
        self.host.set_lock(file, id, self.moment)
    }

    /// The file has no lock. It takes no memory.
    pub fn clear_lock(&mut self, file: &FileId)
        ensures clears { SetsLock (pages_in self.old) file.now None (pages_in self.new) }
        ensures held { held_by self.new ≡ held_by self.old }
        ensures stays { StaysBeside self.old self.new }
    {
        self.host.clear_lock(file);
    }
}
