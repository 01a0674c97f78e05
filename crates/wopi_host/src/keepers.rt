//! What a host keeps its files in.
ghost use Rattle.std.specs.Prelude.{◌≡◌, ℕ, List, Option, Some, None, IfOk, OnOk, OnErr, true};
ghost use Rattle.std.specs.Prelude.{false};
ghost use Rattle.std.specs.BTreeMap.{get_by_text};
ghost use Rattle.std.specs.Option.{option_copied};
ghost use Rattle.outside.specs.Causes.{HasCause};
ghost use Rattle.wopi_host.specs.Keepers.{Holdings, IsKept, Keeps, Puts, SameFiles, SameHoldings, keeper_failed, one_more};

use bytes::Bytes;
use cool_base::FileId;
use std::alloc::Global;
use std::collections::BTreeMap;
use thiserror::Error;

/// Why a keeper did not do what it was asked.
#[derive(Clone, Copy, Debug, PartialEq, Eq, Error)]
pub enum KeeperFault {
    #[error("the keeper failed")]
    Failed,
    #[error("out of memory")]
    Memory,
}

/// Files with their contents.
pub trait Keeper {
    /// The files with their contents, where the keeper tells them, and how many keeps it accepted.
    /// The count stays at 2^64 - 1 once it is there.
    ghost holds: { Self → Holdings };

    /// How many faults there were. The count stays at 2^64 - 1 once it is there.
    ghost faults: { Self → ℕ };

    /// The file's content; None where there is no such file. No content changes, and nothing is kept.
    fn find(&mut self, alloc: Global, file: &FileId) -> Result<Option<Bytes>, KeeperFault>
        ensures finds { IfOk result (IsKept (holds self.old) file.now) }
        ensures stays { SameHoldings (holds self.old) (holds self.new) }
        ensures cause { HasCause (faults self.old) (faults self.new) (keeper_failed result ≡ true) };

    /// Gives the file this content, and counts the keep as accepted. A refused keep keeps nothing.
    fn keep(&mut self, alloc: Global, file: &FileId, content: &Bytes) -> Result<(), KeeperFault>
        ensures keeps { OnOk result (Keeps (holds self.old) file.now content.now (holds self.new)) }
        ensures stays { OnErr result (SameHoldings (holds self.old) (holds self.new)) }
        ensures cause { HasCause (faults self.old) (faults self.new) (keeper_failed result ≡ true) };
}

/// A keeper in memory. It never fails but for memory.
#[derive(Drop)]
pub struct MemoryKeeper {
    files: BTreeMap<String, Bytes>,
    accepted: u64,
}

impl MemoryKeeper {
    ghost use Rattle.std.specs.Prelude.{◌≡◌, ℕ, List, None};
    ghost use Rattle.std.specs.Option.{option_copied};
    ghost use Rattle.wopi_host.specs.Kept.{contents_in, held_in};

    /// A keeper without files.
    pub fn new(alloc: Global) -> MemoryKeeper
        ensures files { (id : List ℕ) → contents_in result id ≡ None }
        ensures accepted { result.accepted ≡ 0 }
    {
        MemoryKeeper {
            files: BTreeMap::new(alloc),
            accepted: 0,
        }
    }

    /// The content of the file; None where there is none.
    pub fn content(&self, file: &FileId) -> Option<&Bytes>
        ensures { option_copied result ≡ contents_in self.now file.now }
    {
        self.files.get(file.text())
    }

    /// How many keeps were accepted; at 2^64 - 1 it stands still.
    pub fn accepted(&self) -> u64
        ensures { result ≡ (held_in self.now).accepted }
    {
        self.accepted
    }
}

// The content gets a place of its own before anything is changed.
#[tactic(auto, using(std::proofs::lemmas::Map::Text::text_keys), unfolding(crate::specs::Keepers::Puts, crate::specs::Keepers::SameFiles))]
fn store(
    alloc: Global,
    files: &mut BTreeMap<String, Bytes>,
    file: &FileId,
    content: &Bytes,
) -> Result<(), KeeperFault>
    ensures keeps { let before = Some (get_by_text files.old) in
        OnOk result (Puts before file.now content.now (Some (get_by_text files.new))) }
    ensures stays { let before = Some (get_by_text files.old) in
        OnErr result (SameFiles before (Some (get_by_text files.new))) }
    ensures memory { keeper_failed result ≡ false }
{
    let Ok(key) = String::from_str(alloc, file.text()) else {
        return Err(KeeperFault::Memory);
    };
    let Ok(content) = content.clone() else {
        return Err(KeeperFault::Memory);
    };
    match files.insert(key, content) {
        Ok(_) => Ok(()),
        Err(_) => Err(KeeperFault::Memory),
    }
}

fn look<'a>(files: &'a BTreeMap<String, Bytes>, file: &FileId) -> Option<&'a Bytes>
    ensures { option_copied result ≡ get_by_text files.now file.now }
{
    files.get(file.text())
}

fn copied(found: Option<&Bytes>) -> Result<Option<Bytes>, KeeperFault>
    ensures ok { IfOk result (λ content. option_copied found.entry ≡ content) }
    ensures memory { keeper_failed result ≡ false }
{
    match found {
        None => Ok(None),
        Some(content) => match content.clone() {
            Ok(content) => Ok(Some(content)),
            Err(_) => Err(KeeperFault::Memory),
        },
    }
}

impl Keeper for MemoryKeeper {
    ghost use Rattle.wopi_host.specs.Kept.{held_in};

    ghost holds = { held_in };

    ghost faults = { λ _. 0 };

    #[tactic(auto, unfolding(crate::specs::Keepers::IsIn, crate::specs::Keepers::SameFiles))]
    fn find(&mut self, _alloc: Global, file: &FileId) -> Result<Option<Bytes>, KeeperFault> {
        copied(look(&self.files, file))
    }

    #[tactic(auto, unfolding(crate::specs::Keepers::Puts, crate::specs::Keepers::SameFiles))]
    fn keep(&mut self, alloc: Global, file: &FileId, content: &Bytes) -> Result<(), KeeperFault> {
        store(alloc, &mut self.files, file, content)?;
        self.accepted = self.accepted.saturating_add(1);
        Ok(())
    }
}
