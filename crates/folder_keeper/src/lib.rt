//! A keeper of files in a folder: one file for each document, under its file id.
//!
//! A content is written beside the old one, synced, and renamed onto it, so a crash at any byte leaves
//! the old content or the new one. A name that is no plain file, such as a link, and a file above
//! 67,108,864 bytes are refused. The keeper is trusted: it tells no contents, and counts the keeps that
//! it accepted.
#![tactic(auto)]

mod steps;

pub use crate::steps::FILE_LIMIT;
use crate::steps::{Trouble, read_file, replace_file};
use bytes::Bytes;
use cool_base::FileId;
use std::alloc::Global;
use std::fs;
use std::rt::Files;
use wopi_host::{Keeper, KeeperFault};

/// The files in a folder.
#[derive(Drop)]
pub struct FolderKeeper<'a, R> {
    rt: &'a R,
    folder: String,
    accepted: u64,
    faults: u64,
}

impl<'a, R: Files> FolderKeeper<'a, R> {
    ghost use Rattle.std.specs.Prelude.{◌≡◌, IfOk};

    /// A keeper of the files in the folder, which must be there.
    pub fn open(rt: &'a R, alloc: Global, folder: &str) -> Result<FolderKeeper<'a, R>, KeeperFault>
        ensures { IfOk result (λ keeper. (keeper.faults ≡ 0) × (keeper.accepted ≡ 0)) }
    {
        match fs::metadata(rt, folder) {
            Ok(found) if found.is_dir() => {}
            _ => return Err(KeeperFault::Failed),
        }
        let Ok(folder) = String::from_str(alloc, folder) else {
            return Err(KeeperFault::Memory);
        };
        Ok(FolderKeeper {
            rt,
            folder,
            accepted: 0,
            faults: 0,
        })
    }
}

impl<'a, R: Files> Keeper for FolderKeeper<'a, R> {
    ghost use Rattle.std.specs.Prelude.{None};

    ghost holds = { λ keeper. record { files = None; accepted = keeper.accepted } };

    ghost faults = { λ keeper. keeper.faults };

    #[tactic(auto, unfolding(wopi_host::specs::Keepers::IsIn, wopi_host::specs::Keepers::SameFiles))]
    fn find(&mut self, alloc: Global, file: &FileId) -> Result<Option<Bytes>, KeeperFault> {
        match read_file(self.rt, alloc, self.folder.as_str(), file.text()) {
            Ok(content) => Ok(content),
            Err(Trouble::Failed) => {
                self.faults = self.faults.saturating_add(1);
                Err(KeeperFault::Failed)
            }
            Err(Trouble::Memory) => Err(KeeperFault::Memory),
        }
    }

    #[tactic(auto, unfolding(wopi_host::specs::Keepers::Puts, wopi_host::specs::Keepers::SameFiles))]
    fn keep(&mut self, alloc: Global, file: &FileId, content: &Bytes) -> Result<(), KeeperFault> {
        match replace_file(
            self.rt,
            alloc,
            self.folder.as_str(),
            file.text(),
            content.as_slice(),
        ) {
            Ok(()) => {
                self.accepted = self.accepted.saturating_add(1);
                Ok(())
            }
            Err(Trouble::Failed) => {
                self.faults = self.faults.saturating_add(1);
                Err(KeeperFault::Failed)
            }
            Err(Trouble::Memory) => Err(KeeperFault::Memory),
        }
    }
}
