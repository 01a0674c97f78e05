//! A WOPI host: files with locks, by the operations CheckFileInfo, GetFile, PutFile, Lock,
//! RefreshLock, Unlock and GetLock.
//!
//! - `targets`: what a request's target names, and the right of its token.
//! - `table`: what each operation does to a file, by its lock.
//! - `keepers`: what the files are kept in.
//! - `marks`: the locks and counts of puts.
//! - `answers`: the response to an action.
//! - `hosts`: the host, which joins them.
//! - `laws`: there is one answer.
#![tactic(auto)]

mod answers;
mod hosts;
mod keepers;
mod laws;
mod marks;
mod table;
mod targets;

pub use hosts::{Host, LOCK_SECONDS};
pub use keepers::{Keeper, KeeperFault, MemoryKeeper};
pub use laws::answers_are_one;
pub use table::LOCK_LIMIT;
