//! The host.
ghost use Rattle.std.specs.Prelude.{◌≡◌, ℕ, List, [], Option, Some, None, IfOk, OnOk, OnErr};
ghost use Rattle.std.specs.Prelude.{unwrap_or};
ghost use Rattle.std.specs.Option.{option_copied};
ghost use Rattle.wopi_host.specs.Targets.{named_at, path_of, target_right};
ghost use Rattle.wopi_host.specs.Table.{is_lock_text};
ghost use Rattle.wopi_host.specs.Keepers.{IsKept, Keeps, SameHoldings};
ghost use Rattle.wopi_host.specs.Marks.{marks_in, lock_end, lock_of, unmarked};
ghost use Rattle.wopi_host.specs.Hosts.{SamePages, SetsLock, action_at};
ghost use Rattle.wopi_host.specs.Kept.{asking};

use crate::answers::{bare_response, respond, text_or_empty};
use crate::keepers::{Keeper, KeeperFault};
use crate::marks::{Book, Lock, count_put, erase_lock, lock_at, make_entry, puts_of, write_lock};
use crate::table::{Action, action_by_operation, asked_operation};
use crate::targets::{Resource, resource_of, writer};
use bytes::Bytes;
use cool_base::{FileId, Memory, TextOf};
use http_message::{Request, Response};
use std::alloc::Global;
use std::collections::BTreeMap;

/// How long a lock counts, in seconds.
pub const LOCK_SECONDS: u64 = 1800;

/// A WOPI host over a keeper of files. It knows two tokens: `t-rw` of the user `rw`, who may write,
/// and `t-ro` of the user `ro`, who may not.
#[derive(Drop)]
pub struct Host<Q: Keeper> {
    keeper: Q,
    book: Book,
    alloc: Global,
}

// What is asked of a file, or of its contents, at a moment in seconds.
#[derive(Drop)]
struct Asked<'a> {
    file: &'a FileId,
    contents: bool,
    request: &'a Request,
    moment: u64,
}

fn text_in(text: &Option<TextOf>) -> Option<&str>
    ensures { option_copied result ≡ text.now }
{
    match text {
        None => None,
        Some(text) => Some(text.get()),
    }
}

fn bytes_in(text: Option<&str>) -> Option<&[u8]>
    ensures { option_copied result ≡ option_copied text.entry }
{
    match text {
        None => None,
        Some(text) => Some(text.as_bytes()),
    }
}

// What the host does at a file with this content, by the lock that counts.
fn action_for(asked: &Asked<'_>, writer: bool, content: &Bytes, current: Option<&str>) -> Action
    ensures { let asks = asking asked.now in
        result ≡ action_at asks.contents (Some writer) (Some content.now) asks.request
        (option_copied current.entry) }
{
    let request = asked.request;
    let over = bytes_in(text_in(&request.over));
    let operation = asked_operation(request.method, asked.contents, over);
    action_by_operation(
        operation,
        request.old_lock,
        writer,
        bytes_in(text_in(&request.lock)),
        bytes_in(current),
        content.is_empty(),
    )
}

fn end_of(now: u64) -> u64
    ensures { result ≡ lock_end now }
{
    now.saturating_add(LOCK_SECONDS)
}

// Sets the lock of this id.
fn put_lock(
    alloc: Global,
    book: &mut Book,
    file: &FileId,
    id: Option<&str>,
    now: u64,
) -> Result<(), Memory>
    ensures ok { OnOk result (let lock = lock_of (unwrap_or (option_copied id.entry) []) now in
        SetsLock (marks_in book.old) file.now (Some lock) (marks_in book.new)) }
    ensures err { OnErr result (SamePages (marks_in book.old) (marks_in book.new)) }
{
    let id = text_or_empty(alloc, id)?;
    make_entry(alloc, book, file)?;
    let lock = Lock {
        id,
        end: end_of(now),
    };
    write_lock(book, file, Some(lock));
    Ok(())
}

// Takes the lock away.
fn drop_lock(alloc: Global, book: &mut Book, file: &FileId) -> Result<(), Memory>
    ensures ok { OnOk result (SetsLock (marks_in book.old) file.now None (marks_in book.new)) }
    ensures err { OnErr result (SamePages (marks_in book.old) (marks_in book.new)) }
{
    make_entry(alloc, book, file)?;
    write_lock(book, file, None);
    Ok(())
}

impl<Q: Keeper + Drop> Host<Q> {
    ghost use Rattle.std.specs.Prelude.{◌≡◌, ℕ, List, [], Some, None, IfOk, OnOk, OnErr};
    ghost use Rattle.wopi_host.specs.Hosts.{CountsPut, ActsAt, AnswersAt, TableAnswers, IsOrdinary};
    ghost use Rattle.wopi_host.specs.Kept.{held_of, pages_of, host_at, StaysAt, FailsByKeeper};
    ghost use Rattle.wopi_host.specs.Kept.{asking};

    // Replaces the content and counts the put. There is an entry for the count before the keeper is
    // asked.
    #[tactic(auto, using(crate::proofs::Same::same_holdings))]
    fn replace(&mut self, file: &FileId, content: &Bytes) -> Result<(), KeeperFault>
        ensures keeps { let before = held_of Q.holds self.old in
            OnOk result (Keeps before file.now content.now (held_of Q.holds self.new)) }
        ensures counts { OnOk result (CountsPut (pages_of self.old) file.now (pages_of self.new)) }
        ensures err { OnErr result (StaysAt Q.holds self.old self.new) }
        ensures cause { FailsByKeeper Q.faults self.old self.new result }
    {
        if puts_of(&self.book, file) == u64::MAX {
            return Err(KeeperFault::Memory);
        }
        if make_entry(self.alloc, &mut self.book, file).is_err() {
            return Err(KeeperFault::Memory);
        }
        self.keeper.keep(self.alloc, file, content)?;
        count_put(&mut self.book, file);
        Ok(())
    }

    // Does the action.
    #[tactic(auto, using(crate::proofs::Same::same_holdings))]
    fn carry_out(&mut self, asked: &Asked<'_>, action: Action) -> Result<(), KeeperFault>
        ensures ok { let before = host_at Q.holds self.old in
            OnOk result (ActsAt (asking asked.now) before action (host_at Q.holds self.new)) }
        ensures err { OnErr result (StaysAt Q.holds self.old self.new) }
        ensures cause { FailsByKeeper Q.faults self.old self.new result }
    {
        match action {
            Action::Sets => {
                let id = text_in(&asked.request.lock);
                match put_lock(self.alloc, &mut self.book, asked.file, id, asked.moment) {
                    Ok(()) => Ok(()),
                    Err(Memory) => Err(KeeperFault::Memory),
                }
            }
            Action::Removes => match drop_lock(self.alloc, &mut self.book, asked.file) {
                Ok(()) => Ok(()),
                Err(Memory) => Err(KeeperFault::Memory),
            },
            Action::Replaces => self.replace(asked.file, &asked.request.body),
            Action::Refused(_) => Ok(()),
            Action::Info => Ok(()),
            Action::Content => Ok(()),
            Action::TellsLock => Ok(()),
            Action::Conflict => Ok(()),
        }
    }

    // The answer at a file that the keeper has.
    fn answer_found(
        &mut self,
        asked: &Asked<'_>,
        writer: bool,
        content: &Bytes,
    ) -> Result<Response, KeeperFault>
        ensures ok { let before = host_at Q.holds self.old in
            let after = host_at Q.holds self.new in
            IfOk result (λ r. IsKept before.held asked.now.file.now (Some content.now)
            → AnswersAt (Some writer) (asking asked.now) before r after) }
        ensures err { OnErr result (StaysAt Q.holds self.old self.new) }
        ensures cause { FailsByKeeper Q.faults self.old self.new result }
    {
        let current = lock_at(&self.book, asked.file, asked.moment);
        let action = action_for(asked, writer, content, current);
        let puts = puts_of(&self.book, asked.file);
        let Ok(response) = respond(
            self.alloc, action, asked.file, content, writer, current, puts,
        ) else {
            return Err(KeeperFault::Memory);
        };
        match self.carry_out(asked, action) {
            Ok(()) => Ok(response),
            Err(fault) => Err(fault),
        }
    }

    // The answer at a file, where the token is known.
    fn answer_file(&mut self, asked: &Asked<'_>, writer: bool) -> Result<Response, KeeperFault>
        ensures ok { let before = host_at Q.holds self.old in
            let after = host_at Q.holds self.new in
            IfOk result (λ r. AnswersAt (Some writer) (asking asked.now) before r after) }
        ensures err { OnErr result (StaysAt Q.holds self.old self.new) }
        ensures cause { FailsByKeeper Q.faults self.old self.new result }
    {
        match self.keeper.find(self.alloc, asked.file) {
            Ok(Some(content)) => self.answer_found(asked, writer, &content),
            Ok(None) => Ok(bare_response(404)),
            Err(fault) => Err(fault),
        }
    }

    // The answer at a file.
    #[tactic(auto, using(crate::proofs::Same::same_holdings))]
    fn answer_at(&mut self, asked: &Asked<'_>, right: Option<bool>) -> Result<Response, KeeperFault>
        ensures ok { let before = host_at Q.holds self.old in
            let after = host_at Q.holds self.new in
            IfOk result (λ r. AnswersAt right (asking asked.now) before r after) }
        ensures err { OnErr result (StaysAt Q.holds self.old self.new) }
        ensures cause { FailsByKeeper Q.faults self.old self.new result }
    {
        match right {
            None => Ok(bare_response(401)),
            Some(writer) => self.answer_file(asked, writer),
        }
    }

    // The answer to a request at this moment, but for the keeper's faults.
    fn answer_request(&mut self, request: &Request, moment: u64) -> Result<Response, KeeperFault>
        ensures ok { let before = host_at Q.holds self.old in
            let after = host_at Q.holds self.new in
            IfOk result (λ r. TableAnswers before request.now moment r after) }
        ensures err { OnErr result (StaysAt Q.holds self.old self.new) }
        ensures ordinary { IfOk result IsOrdinary }
        ensures cause { FailsByKeeper Q.faults self.old self.new result }
    {
        let target = request.target.get().as_bytes();
        let right = writer(target);
        let (file, contents) = match resource_of(target) {
            Resource::Nothing => return Ok(bare_response(404)),
            Resource::File(file) => (file, false),
            Resource::Contents(file) => (file, true),
        };
        let asked = Asked {
            file: &file,
            contents,
            request,
            moment,
        };
        self.answer_at(&asked, right)
    }
}

impl<Q: Keeper + Drop> Host<Q> {
    ghost use Rattle.std.specs.Prelude.{◌≡◌, ℕ, List, Some, None, IfOk, OnOk, OnErr, IsTrue, true};
    ghost use Rattle.outside.specs.Causes.{HasCause};
    ghost use Rattle.http_message.specs.Statuses.{HasDueBody};
    ghost use Rattle.wopi_host.specs.Hosts.{HostAnswers, host_failed};
    ghost use Rattle.wopi_host.specs.Kept.{keeper_of, held_of, pages_of, host_at, StaysAt};
    ghost use Rattle.wopi_host.specs.Kept.{FailsByKeeper};

    /// A host over the keeper: no file has a lock and each has 0 puts. Later calls take their
    /// memory from `alloc` too.
    pub fn new(alloc: Global, keeper: Q) -> Result<Host<Q>, Memory>
        ensures keeper { IfOk result (λ host. keeper_of host ≡ keeper) }
        ensures pages { IfOk result (λ host. (id : List ℕ) → pages_of host id ≡ unmarked) }
    {
        Ok(Host {
            keeper,
            book: BTreeMap::new(alloc),
            alloc,
        })
    }

    /// The response to a request at this moment, in seconds. Where the keeper fails it is a bare
    /// 500 and nothing changes; no other answer has that status. There is a body only where the
    /// status has one. A put that is answered with 200 is one keep that the keeper accepted, and no
    /// other answer keeps anything. Where no memory is left, no content, lock or count of puts
    /// changes.
    #[tactic(auto, using(crate::proofs::Statuses::ordinary_cause, crate::proofs::Statuses::ordinary_body))]
    pub fn answer(&mut self, request: &Request, now: u64) -> Result<Response, Memory>
        ensures ok { let before = host_at Q.holds self.old in
            let after = host_at Q.holds self.new in
            IfOk result (λ r. HostAnswers before request.now now r after) }
        ensures err { OnErr result (StaysAt Q.holds self.old self.new) }

        // The status is 500 exactly where the keeper failed.
        ensures cause { let before = Q.faults (keeper_of self.old) in
            HasCause before (Q.faults (keeper_of self.new)) (host_failed result ≡ true) }
        ensures body { IfOk result HasDueBody }
    {
        match self.answer_request(request, now) {
            Ok(response) => Ok(response),
            Err(KeeperFault::Failed) => Ok(bare_response(500)),
            Err(KeeperFault::Memory) => Err(Memory),
        }
    }

    /// Keeps the file with this content, by one keep. A refused keep keeps nothing.
    pub fn add(&mut self, file: &FileId, content: &Bytes) -> Result<(), KeeperFault>
        ensures keeps { let before = held_of Q.holds self.old in
            OnOk result (Keeps before file.now content.now (held_of Q.holds self.new)) }
        ensures stays { let before = held_of Q.holds self.old in
            OnErr result (SameHoldings before (held_of Q.holds self.new)) }
        ensures pages { pages_of self.new ≡ pages_of self.old }
        ensures cause { FailsByKeeper Q.faults self.old self.new result }
    {
        self.keeper.keep(self.alloc, file, content)
    }

    /// The file's content; None exactly where the keeper lacks the file.
    pub fn content(&mut self, file: &FileId) -> Result<Option<Bytes>, KeeperFault>
        ensures finds { IfOk result (IsKept (held_of Q.holds self.old) file.now) }
        ensures stays { SameHoldings (held_of Q.holds self.old) (held_of Q.holds self.new) }
        ensures pages { pages_of self.new ≡ pages_of self.old }
        ensures cause { FailsByKeeper Q.faults self.old self.new result }
    {
        self.keeper.find(self.alloc, file)
    }

    /// The file's lock becomes this id, and ends 1,800 seconds later.
    pub fn set_lock(&mut self, file: &FileId, id: &str, now: u64) -> Result<(), Memory>
        requires { IsTrue (is_lock_text id.now) }
        ensures ok { let lock = lock_of id.now now in
            OnOk result (SetsLock (pages_of self.old) file.now (Some lock) (pages_of self.new)) }
        ensures err { OnErr result (SamePages (pages_of self.old) (pages_of self.new)) }
        ensures keeper { keeper_of self.new ≡ keeper_of self.old }
    {
        put_lock(self.alloc, &mut self.book, file, Some(id), now)
    }

    /// The file has no lock. It takes no memory.
    pub fn clear_lock(&mut self, file: &FileId)
        ensures cleared { SetsLock (pages_of self.old) file.now None (pages_of self.new) }
        ensures keeper { keeper_of self.new ≡ keeper_of self.old }
    {
        erase_lock(&mut self.book, file);
    }

    /// The keeper, as it stands. It takes no memory.
    pub fn into_keeper(self) -> Q
        ensures { result ≡ keeper_of self }
    {
        let Host {
            keeper,
            book: _,
            alloc: _,
        } = self;
        keeper
    }
}
