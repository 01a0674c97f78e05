//! Where a script stands, and whether a line may stand there.
ghost use Rattle.std.specs.Prelude.{◌≡◌};
ghost use Rattle.script_lines.specs.Grammar.{is_one_file};

use crate::saying::{ScriptLine, read_line};
use cool_base::{FileId, Memory};
use std::alloc::Global;
use std::collections::BTreeSet;
use std::marker::Model;

/// Where a script stands: the file that its links open, the links that were used, and those of them that
/// were dropped.
#[derive(Drop)]
pub struct Position {
    file: Option<FileId>,
    used: BTreeSet<u32>,
    dropped: BTreeSet<u32>,
}

impl Model for Position {
    ghost use Rattle.script_lines.specs.Positions.{Position as Standing};

    ghost Value = { Standing };

    ghost view = { λ p. record { file = p.file; used = p.used.keys; dropped = p.dropped.keys } };
}

/// What a line does in a script.
#[derive(Drop)]
pub enum LineRole {
    /// It acts.
    Acts(ScriptLine),
    /// It ends the script.
    Ends,
    /// No script has it there.
    Refused,
}

impl Position {
    ghost use Rattle.std.specs.Prelude.{◌≡◌, true, IfOk, OnErr, Some, if◌then◌else◌};
    ghost use Rattle.script_lines.specs.Grammar.{start, is_live, may_open, role_of, role, line_of, takes_memory};
    ghost use Rattle.script_lines.specs.Advances.{Advances};

    /// A script before its first line.
    pub fn start(alloc: Global) -> Position
        ensures { result ≡ start }
    {
        Position {
            file: None,
            used: BTreeSet::new(alloc),
            dropped: BTreeSet::new(alloc),
        }
    }

    /// What the line does here; where it acts, the script then stands after it. After `Memory` the position
    /// is unchanged. `Memory` may come only for a line that says or types something, that drops a live
    /// link or that opens one which may be opened: any other line is judged without memory.
    #[tactic(auto, using(crate::proofs::Lacks::copied_takes))]
    pub fn advance(&mut self, alloc: Global, line: &[u8]) -> Result<LineRole, Memory>
        ensures ok { IfOk result (λ j. Advances j (role self.old line.now) self.old self.new) }
        ensures err { OnErr result (self.new ≡ self.old) }
        ensures lacks { OnErr result (takes_memory self.old (line_of line.now) ≡ true) }
    {
        let Some(said) = read_line(alloc, line)? else {
            return Ok(LineRole::Refused);
        };
        self.advance_by(said)
    }

    // What a line that says this does here.
    fn advance_by(&mut self, said: ScriptLine) -> Result<LineRole, Memory>
        ensures ok { IfOk result (λ j. Advances j (role_of self.old (Some said)) self.old self.new) }
        ensures err { OnErr result (self.new ≡ self.old) }
        ensures lacks { OnErr result (takes_memory self.old (Some said) ≡ true) }
    {
        match said {
            ScriptLine::End => Ok(LineRole::Ends),
            ScriptLine::Settle => Ok(LineRole::Acts(ScriptLine::Settle)),
            ScriptLine::Blank => Ok(LineRole::Acts(ScriptLine::Blank)),
            ScriptLine::Turn(count) => Ok(LineRole::Acts(ScriptLine::Turn(count))),
            ScriptLine::Say(link, message) => Ok(self.if_live(
                link,
                ScriptLine::Say(link, message),
            )),
            ScriptLine::Keys(link, typed) => Ok(self.if_live(link, ScriptLine::Keys(link, typed))),
            ScriptLine::Leave(link) => self.leave(link),
            ScriptLine::Open(link, file, writes) => self.open(link, file, writes),
        }
    }

    // A line of a link acts while the link is live.
    fn if_live(&self, link: u32, said: ScriptLine) -> LineRole
        ensures { result ≡ (if is_live self.now link then LineRole.Acts said else LineRole.Refused) }
    {
        if self.is_live(link) {
            LineRole::Acts(said)
        } else {
            LineRole::Refused
        }
    }

    // Whether the link was used and not dropped.
    fn is_live(&self, link: u32) -> bool
        ensures { result ≡ is_live self.now link }
    {
        self.used.contains(&link) && !self.dropped.contains(&link)
    }

    // A live link is dropped.
    fn leave(&mut self, link: u32) -> Result<LineRole, Memory>
        ensures ok { IfOk result (λ j. Advances j (role_of self.old (Some (ScriptLine.Leave link))) self.old self.new) }
        ensures err { OnErr result (self.new ≡ self.old) }
        ensures lacks { OnErr result (takes_memory self.old (Some (ScriptLine.Leave link)) ≡ true) }
    {
        if !self.is_live(link) {
            return Ok(LineRole::Refused);
        }
        self.dropped.insert(link)?;
        Ok(LineRole::Acts(ScriptLine::Leave(link)))
    }

    // Whether a link may be opened on the file.
    fn may_open(&self, link: u32, file: &FileId) -> bool
        ensures { result ≡ may_open self.now link file.now }
    {
        !self.used.contains(&link) && is_one_file(&self.file, file)
    }

    // A link is opened on the script's one file.
    fn open(&mut self, link: u32, file: FileId, writes: bool) -> Result<LineRole, Memory>
        ensures ok { IfOk result (λ j. Advances j (role_of self.old (Some (ScriptLine.Open link file writes))) self.old self.new) }
        ensures err { OnErr result (self.new ≡ self.old) }
        ensures lacks { OnErr result (takes_memory self.old (Some (ScriptLine.Open link file writes)) ≡ true) }
    {
        if !self.may_open(link, &file) {
            return Ok(LineRole::Refused);
        }
        self.used.insert(link)?;
        self.file = Some(file.copy());
        Ok(LineRole::Acts(ScriptLine::Open(link, file, writes)))
    }
}

// Whether the file is the script's one, or its first.
fn is_one_file(first: &Option<FileId>, file: &FileId) -> bool
    ensures { result ≡ is_one_file first.now file.now }
{
    match first {
        None => true,
        Some(first) => first.text() == file.text(),
    }
}
