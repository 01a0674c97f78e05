//! What a document knows of its saves: how many inputs the stored contents hold, which saves wait,
//! which of them are bound to the put under way, and what is kept for a final save. It knows no
//! document: a caller tells it how many inputs are applied and hands it the content.
//!
//! `Saves` is the type that matters. Contracts see it as a `Saving` (specs/Saving), in which each
//! call is a plain function of the same name in the past or present tense: `wait` makes `waits`,
//! `start` makes `served`, `answer` makes `answered`, `keep_final` makes `token_kept` and `wait_final`
//! makes `final_waits`.
//! What stands over any run of them (specs/Runs) is a law (`laws`).
#![tactic(auto)]

mod laws;
mod lists;
mod saves;
mod values;

pub use laws::{final_saves_have_room, stored_answers_hold};
pub use saves::Saves;
pub use values::{MOST_SAVES, Put, Save, SaveAnswer, SaveFault, Started};
