// The lines of a head, by their spans.
ghost use Rattle.std.specs.Prelude.{◌≡◌, ◌≤◌, ◌<◌, ◌&&◌, nat_le, true, List, ℕ, All, map, length, IfOk, codes};
ghost use Rattle.std.specs.List.{list_all};
ghost use Rattle.std.specs.Option.{option_copied, option_map};
ghost use Rattle.std.specs.Str.{str_eq_ignore_ascii_case};
ghost use Rattle.httparse.specs.Spans.{IsHeaderWithin, header_bytes};
ghost use Rattle.http_head.specs.Lines.{is_named, value_of, has_line, is_shown, shown, text_named};
ghost use Rattle.http_head.specs.Framings.{lines_said};

use crate::framing::{Said, line_said, said_together};
use cool_base::{Memory, TextOf};
use httparse::spans::HeaderSpan;
use std::alloc::Global;

pub(crate) fn is_named(name: &[u8], wanted: &[u8]) -> bool
    ensures { result ≡ str_eq_ignore_ascii_case name.now wanted.now }
{
    name.eq_ignore_ascii_case(wanted)
}

// The value of the first line with the name.
pub(crate) fn value_of<'a>(bytes: &'a [u8], lines: &[HeaderSpan], name: &[u8]) -> Option<&'a [u8]>
    requires { All (IsHeaderWithin (length bytes.now)) lines.now }
    ensures { option_copied result ≡ value_of name.now (map (header_bytes bytes.now) lines.now) }
{
    let Some((first, rest)) = lines.split_first() else {
        return None;
    };
    if is_named(first.name.of(bytes), name) {
        return Some(first.value.of(bytes));
    }
    value_of(bytes, rest, name)
}

// Whether there is a line with the name.
pub(crate) fn has_line(bytes: &[u8], lines: &[HeaderSpan], name: &[u8]) -> bool
    requires { All (IsHeaderWithin (length bytes.now)) lines.now }
    ensures { result ≡ has_line name.now (map (header_bytes bytes.now) lines.now) }
{
    let Some((first, rest)) = lines.split_first() else {
        return false;
    };
    is_named(first.name.of(bytes), name) || has_line(bytes, rest, name)
}

fn is_shown(value: &[u8]) -> bool
    ensures { result ≡ list_all is_shown value.now }
{
    value.iter().all(|byte| *byte >= 32 && *byte <= 126)
}

#[tactic(auto, using(crate::proofs::Texts::texts))]
fn shown(alloc: Global, value: &[u8]) -> Result<TextOf, Memory>
    ensures { IfOk result (λ text. text ≡ shown value.now) }
{
    if !is_shown(value) {
        return Ok(TextOf::of(String::new(alloc)));
    }
    let text = String::from_utf8(value.to_vec(alloc)?);
    match text {
        Ok(text) => Ok(TextOf::of(text)),
        Err(_) => unreachable!(),
    }
}

// The text of the first line with the name.
pub(crate) fn text_named(
    alloc: Global,
    bytes: &[u8],
    lines: &[HeaderSpan],
    name: &[u8],
) -> Result<Option<TextOf>, Memory>
    requires { All (IsHeaderWithin (length bytes.now)) lines.now }
    ensures { IfOk result (λ text. text ≡ text_named name.now (map (header_bytes bytes.now) lines.now)) }
{
    match value_of(bytes, lines, name) {
        Some(value) => Ok(Some(shown(alloc, value)?)),
        None => Ok(None),
    }
}

// What the lines say of the body.
pub(crate) fn lines_said(bytes: &[u8], lines: &[HeaderSpan]) -> Said
    requires { All (IsHeaderWithin (length bytes.now)) lines.now }
    ensures { result ≡ lines_said (map (header_bytes bytes.now) lines.now) }
{
    let Some((first, rest)) = lines.split_first() else {
        return Said::Nothing;
    };
    said_together(
        line_said(first.name.of(bytes), first.value.of(bytes)),
        lines_said(bytes, rest),
    )
}
