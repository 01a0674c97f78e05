//! The host's table.
ghost use Rattle.std.specs.Prelude.{◌≡◌, ◌&&◌, not, option_map};
ghost use Rattle.std.specs.Option.{option_copied};
ghost use Rattle.std.specs.List.{list_all};
ghost use Rattle.wopi_host.specs.Table.{file_operation, contents_operation, posted, gotten};
ghost use Rattle.wopi_host.specs.Table.{operation_of, wants_right, wants_id, is_printable};
ghost use Rattle.wopi_host.specs.Table.{is_lock_text, is_lock_id, held_for, table, by_id};
ghost use Rattle.wopi_host.specs.Table.{by_right, by_operation};

use http_message::Method;

/// What a request may ask.
#[derive(Clone, Copy, Debug, PartialEq, Eq)]
pub enum Operation {
    CheckFileInfo,
    GetFile,
    Lock,
    RefreshLock,
    Unlock,
    GetLock,
    PutFile,
}

/// How the request's lock stands to the one that counts.
#[derive(Clone, Copy, Debug, PartialEq, Eq)]
pub enum Held {
    NoLock,
    TheSame,
    Another,
}

/// What the host does.
#[derive(Clone, Copy, Debug, PartialEq, Eq)]
pub enum Action {
    /// Answers with this status and nothing else.
    Refused(u16),
    /// Tells what the token may do with the file.
    Info,
    /// Gives the bytes.
    Content,
    /// Sets the lock, or moves its end.
    Sets,
    /// Takes the lock away.
    Removes,
    /// Tells the lock's id.
    TellsLock,
    /// Puts the request's body in place of the content.
    Replaces,
    /// Refuses, and tells the lock's id.
    Conflict,
}

#[tactic(auto, unfolding(crate::specs::Table::file_operation))]
fn file_asked(over: &[u8]) -> Option<Operation>
    ensures { result ≡ file_operation over.now }
{
    if over == b"LOCK".as_slice() {
        Some(Operation::Lock)
    } else if over == b"UNLOCK".as_slice() {
        Some(Operation::Unlock)
    } else if over == b"REFRESH_LOCK".as_slice() {
        Some(Operation::RefreshLock)
    } else if over == b"GET_LOCK".as_slice() {
        Some(Operation::GetLock)
    } else {
        None
    }
}

#[tactic(auto, unfolding(crate::specs::Table::contents_operation))]
fn contents_asked(over: &[u8]) -> Option<Operation>
    ensures { result ≡ contents_operation over.now }
{
    if over == b"PUT".as_slice() {
        Some(Operation::PutFile)
    } else {
        None
    }
}

fn by_post(contents: bool, over: Option<&[u8]>) -> Option<Operation>
    ensures { result ≡ posted contents (option_copied over.entry) }
{
    match over {
        None => None,
        Some(over) => {
            if contents {
                contents_asked(over)
            } else {
                file_asked(over)
            }
        }
    }
}

fn by_get(contents: bool, over: Option<&[u8]>) -> Option<Operation>
    ensures { result ≡ gotten contents (option_copied over.entry) }
{
    match over {
        None => {
            if contents {
                Some(Operation::GetFile)
            } else {
                Some(Operation::CheckFileInfo)
            }
        }
        Some(_) => None,
    }
}

/// The operation that method and override name, at a file or at its contents.
pub fn asked_operation(method: Method, contents: bool, over: Option<&[u8]>) -> Option<Operation>
    ensures { result ≡ operation_of method contents (option_copied over.entry) }
{
    match method {
        Method::Get => by_get(contents, over),
        Method::Post => by_post(contents, over),
        Method::Other => None,
    }
}

fn needs_right(operation: Operation) -> bool
    ensures { result ≡ wants_right operation }
{
    match operation {
        Operation::CheckFileInfo | Operation::GetFile | Operation::GetLock => false,
        Operation::Lock | Operation::RefreshLock | Operation::Unlock | Operation::PutFile => true,
    }
}

fn needs_id(operation: Operation) -> bool
    ensures { result ≡ wants_id operation }
{
    match operation {
        Operation::Lock | Operation::RefreshLock | Operation::Unlock => true,
        Operation::CheckFileInfo | Operation::GetFile | Operation::GetLock | Operation::PutFile =>
            false,
    }
}

fn all_printable(id: &[u8]) -> bool
    ensures { result ≡ list_all is_printable id.now }
{
    id.iter().all(|byte| *byte >= 32 && *byte <= 126)
}

/// How many bytes the id of a lock has at most.
pub const LOCK_LIMIT: usize = 1_024;

/// Whether the text may be the id of a lock: 1 to `LOCK_LIMIT` printable ASCII characters.
#[tactic(auto, unfolding(crate::specs::Table::is_lock_text))]
pub fn may_be_lock(id: &[u8]) -> bool
    ensures { result ≡ is_lock_text id.now }
{
    !id.is_empty() && id.len() <= LOCK_LIMIT && all_printable(id)
}

fn has_id(asked: Option<&[u8]>) -> bool
    ensures { result ≡ is_lock_id (option_copied asked.entry) }
{
    match asked {
        None => false,
        Some(id) => may_be_lock(id),
    }
}

fn holding(current: Option<&[u8]>, asked: Option<&[u8]>) -> Held
    ensures { result ≡ held_for (option_copied current.entry) (option_copied asked.entry) }
{
    match (current, asked) {
        (None, _) => Held::NoLock,
        (Some(_), None) => Held::Another,
        (Some(id), Some(other)) => {
            if id == other {
                Held::TheSame
            } else {
                Held::Another
            }
        }
    }
}

fn look_up(operation: Operation, held: Held, empty: bool) -> Action
    ensures { result ≡ table operation held empty }
{
    match (operation, held) {
        (Operation::CheckFileInfo, _) => Action::Info,
        (Operation::GetFile, _) => Action::Content,
        (Operation::GetLock, _) => Action::TellsLock,
        (Operation::Lock, Held::NoLock | Held::TheSame) => Action::Sets,
        (Operation::RefreshLock, Held::TheSame) => Action::Sets,
        (Operation::Unlock, Held::TheSame) => Action::Removes,
        (Operation::PutFile, Held::TheSame) => Action::Replaces,
        (Operation::PutFile, Held::NoLock) => {
            if empty {
                Action::Replaces
            } else {
                Action::Conflict
            }
        }
        (Operation::Lock | Operation::PutFile, Held::Another) => Action::Conflict,
        (Operation::RefreshLock | Operation::Unlock, Held::NoLock | Held::Another) => {
            Action::Conflict
        }
    }
}

fn lacks_id(operation: Operation, asked: Option<&[u8]>) -> bool
    ensures { result ≡ (wants_id operation && not (is_lock_id (option_copied asked.entry))) }
{
    needs_id(operation) && !has_id(asked)
}

fn lacks_right(operation: Operation, writer: bool) -> bool
    ensures { result ≡ (wants_right operation && not writer) }
{
    needs_right(operation) && !writer
}

fn action_by_id(
    operation: Operation,
    asked: Option<&[u8]>,
    current: Option<&[u8]>,
    empty: bool,
) -> Action
    ensures { let asks = option_copied asked.entry in
        result ≡ by_id operation asks (option_copied current.entry) empty }
{
    if lacks_id(operation, asked) {
        Action::Refused(400)
    } else {
        look_up(operation, holding(current, asked), empty)
    }
}

fn action_by_right(
    operation: Operation,
    writer: bool,
    asked: Option<&[u8]>,
    current: Option<&[u8]>,
    empty: bool,
) -> Action
    ensures { let asks = option_copied asked.entry in
        result ≡ by_right operation writer asks (option_copied current.entry) empty }
{
    if lacks_right(operation, writer) {
        Action::Refused(401)
    } else {
        action_by_id(operation, asked, current, empty)
    }
}

/// What the host does for the operation at a file that it has.
pub fn action_by_operation(
    operation: Option<Operation>,
    old_lock: bool,
    writer: bool,
    asked: Option<&[u8]>,
    current: Option<&[u8]>,
    empty: bool,
) -> Action
    ensures { let asks = option_copied asked.entry in
        result ≡ by_operation operation old_lock writer asks (option_copied current.entry) empty }
{
    match operation {
        None => Action::Refused(501),
        Some(operation) => {
            if old_lock {
                Action::Refused(501)
            } else {
                action_by_right(operation, writer, asked, current, empty)
            }
        }
    }
}
