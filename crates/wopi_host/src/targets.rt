//! What a request's target names.
ghost use Rattle.std.specs.Prelude.{◌≡◌, ◌≤◌, ◌<◌, ◌==◌, IfSome, position, length, take, drop};
ghost use Rattle.std.specs.Prelude.{codes, nat_eq, true, ◌&&◌};
ghost use Rattle.std.specs.Option.{option_copied};
ghost use Rattle.std.specs.List.{starts_with};
ghost use Rattle.cool_base.specs.Words.{file_id};
ghost use Rattle.wopi_host.specs.Targets.{first_at, word_of, path_of, query_of, contents_by};
ghost use Rattle.wopi_host.specs.Targets.{named_by, named_at, named_view, token_from, right_of};
ghost use Rattle.wopi_host.specs.Targets.{target_right};

use cool_base::FileId;

/// What a path names.
#[derive(Drop)]
pub enum Resource {
    Nothing,
    File(FileId),
    Contents(FileId),
}

fn position_of(bytes: &[u8], wanted: u8) -> Option<usize>
    ensures value { result ≡ position (λ b. b == wanted) bytes.now }
    ensures within { IfSome result (λ index. index < length bytes.now) }
{
    bytes.iter().position(|byte| *byte == wanted)
}

// Where the byte stands first, or the length where it doesn't.
fn find_byte(bytes: &[u8], wanted: u8) -> usize
    ensures value { result ≡ first_at wanted bytes.now }
    ensures within { result ≤ length bytes.now }
{
    match position_of(bytes, wanted) {
        Some(index) => index,
        None => bytes.len(),
    }
}

fn path(target: &[u8]) -> &[u8]
    ensures { result.now ≡ path_of target.now }
{
    &target[..find_byte(target, b'?')]
}

fn query(target: &[u8]) -> &[u8]
    ensures { result.now ≡ query_of target.now }
{
    let end = find_byte(target, b'?');
    if end < target.len() {
        &target[end + 1..]
    } else {
        &[]
    }
}

fn file_in(bytes: &[u8]) -> Option<FileId>
    ensures { result ≡ file_id bytes.now }
{
    match std::str::from_utf8(bytes) {
        Ok(text) => FileId::read(text),
        Err(_) => None,
    }
}

#[tactic(auto, unfolding(crate::specs::Targets::contents_by))]
fn contents_in(rest: &[u8]) -> Resource
    ensures { named_view result ≡ contents_by rest.now }
{
    if !rest.ends_with(b"/contents") {
        return Resource::Nothing;
    }
    match file_in(&rest[..rest.len() - 9]) {
        Some(file) => Resource::Contents(file),
        None => Resource::Nothing,
    }
}

fn resource_in(rest: &[u8]) -> Resource
    ensures { named_view result ≡ named_by rest.now }
{
    match file_in(rest) {
        Some(file) => Resource::File(file),
        None => contents_in(rest),
    }
}

#[tactic(auto, unfolding(crate::specs::Targets::named_at))]
fn resource_at(path: &[u8]) -> Resource
    ensures { named_view result ≡ named_at path.now }
{
    if path.starts_with(b"/wopi/files/") {
        resource_in(&path[12..])
    } else {
        Resource::Nothing
    }
}

/// What the target's path names.
pub fn resource_of(target: &[u8]) -> Resource
    ensures { named_view result ≡ named_at (path_of target.now) }
{
    resource_at(path(target))
}

fn word(bytes: &[u8]) -> &[u8]
    ensures { result.now ≡ word_of bytes.now }
{
    &bytes[..find_byte(bytes, b'&')]
}

// The value of a word that begins with `access_token=`.
fn value_of(query: &[u8]) -> &[u8]
    requires { 13 ≤ length query.now }
    ensures { result.now ≡ word_of (drop 13 query.now) }
{
    word(&query[13..])
}

fn others(query: &[u8]) -> &[u8]
    requires { 0 < length query.now }
    ensures { result.now ≡ drop 1 query.now }
{
    &query[1..]
}

fn begins_token(begins: bool, query: &[u8]) -> bool
    ensures value { result ≡ (begins && starts_with nat_eq query.now (codes "access_token=")) }
    ensures long { result ≡ true → 13 ≤ length query.now }
{
    begins && query.starts_with(b"access_token=")
}

fn token(query: &[u8]) -> Option<&[u8]>
    ensures { option_copied result ≡ token_from true query.now }
{
    let mut begins = true;
    let mut rest = query;
    while !rest.is_empty() {
        if begins_token(begins, rest) {
            return Some(value_of(rest));
        }
        begins = rest[0] == b'&';
        rest = others(rest);
    }
    None
}

fn right(token: Option<&[u8]>) -> Option<bool>
    ensures { result ≡ right_of (option_copied token.entry) }
{
    let token = token?;
    if token == b"t-rw".as_slice() {
        Some(true)
    } else if token == b"t-ro".as_slice() {
        Some(false)
    } else {
        None
    }
}

/// Whether the target's token may write; None where there is none or the host doesn't know it.
pub fn writer(target: &[u8]) -> Option<bool>
    ensures { result ≡ target_right target.now }
{
    right(token(query(target)))
}
