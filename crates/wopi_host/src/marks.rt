//! The locks and counts of puts that a host keeps, by file.
ghost use Rattle.std.specs.Prelude.{◌≡◌, ◌<◌, ◌+◌, ◌^◌, Option, Some, None, IsSome, OnOk};
ghost use Rattle.std.specs.BTreeMap.{get_by_text};
ghost use Rattle.std.specs.Option.{option_copied};
ghost use Rattle.wopi_host.specs.Marks.{marks_in, counting, unmarked};
ghost use Rattle.wopi_host.specs.Hosts.{SamePages, SetsLock, CountsPut};

use cool_base::{FileId, Memory, TextOf};
use std::alloc::Global;
use std::collections::BTreeMap;

/// A lock: its id, and the moment at which it ends, in seconds. It counts before that moment.
#[derive(Drop)]
pub struct Lock {
    pub id: TextOf,
    pub end: u64,
}

/// What the host knows of a file beside its content.
#[derive(Drop)]
pub struct Marks {
    pub lock: Option<Lock>,
    /// How many puts were accepted.
    pub puts: u64,
}

/// The marks of each file that has some.
pub type Book = BTreeMap<String, Marks>;

fn counts(marks: &Marks, now: u64) -> Option<&str>
    ensures { option_copied result ≡ counting marks.now.lock now }
{
    match &marks.lock {
        None => None,
        Some(lock) => {
            if now < lock.end {
                Some(lock.id.get())
            } else {
                None
            }
        }
    }
}

/// The id of the lock that counts at this moment.
pub fn lock_at<'a>(book: &'a Book, file: &FileId, now: u64) -> Option<&'a str>
    ensures { option_copied result ≡ counting (marks_in book.now file.now).lock now }
{
    match book.get(file.text()) {
        None => None,
        Some(marks) => counts(marks, now),
    }
}

/// How many puts the file had.
pub fn puts_of(book: &Book, file: &FileId) -> u64
    ensures { result ≡ (marks_in book.now file.now).puts }
{
    match book.get(file.text()) {
        None => 0,
        Some(marks) => marks.puts,
    }
}

/// Makes an entry for the file's marks, so that they can be written without taking memory.
#[tactic(auto, using(std::proofs::lemmas::Map::Text::text_keys))]
pub fn make_entry(alloc: Global, book: &mut Book, file: &FileId) -> Result<(), Memory>
    ensures made { OnOk result (IsSome (get_by_text book.new file.now)) }
    ensures same { SamePages (marks_in book.old) (marks_in book.new) }
{
    if book.contains_key(file.text()) {
        return Ok(());
    }
    let key = String::from_str(alloc, file.text())?;
    let marks = Marks {
        lock: None,
        puts: 0,
    };
    match book.insert(key, marks) {
        Ok(_) => Ok(()),
        Err(_) => Err(Memory),
    }
}

/// Writes the file's lock.
#[tactic(auto, using(std::proofs::lemmas::Map::Text::text_keys))]
pub fn write_lock(book: &mut Book, file: &FileId, lock: Option<Lock>)
    requires { IsSome (get_by_text book.old file.now) }
    ensures { SetsLock (marks_in book.old) file.now lock (marks_in book.new) }
{
    if let Some(marks) = book.get_mut(file.text()) {
        marks.lock = lock;
    }
}

/// Counts one more put.
#[tactic(auto, using(std::proofs::lemmas::Map::Text::text_keys))]
pub fn count_put(book: &mut Book, file: &FileId)
    requires made { IsSome (get_by_text book.old file.now) }
    requires room { (marks_in book.old file.now).puts + 1 < 2 ^ 64 }
    ensures { CountsPut (marks_in book.old) file.now (marks_in book.new) }
{
    if let Some(marks) = book.get_mut(file.text()) {
        marks.puts += 1;
    }
}

/// Takes the file's lock away, where it has one.
#[tactic(auto, using(std::proofs::lemmas::Map::Text::text_keys))]
pub fn erase_lock(book: &mut Book, file: &FileId)
    ensures { SetsLock (marks_in book.old) file.now None (marks_in book.new) }
{
    if let Some(marks) = book.get_mut(file.text()) {
        marks.lock = None;
    }
}
