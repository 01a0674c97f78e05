//! The bytes of a frame.
ghost use Rattle.std.specs.Prelude.{◌≡◌, ◌++◌, IfOk, OnOk, string_bytes};
ghost use Rattle.cool_frame.specs.Frames.{frame_bytes, server_bytes, status_document, status_view, invalidate_place, invalidate_size, saved_bytes, error_head, error_code, tile_pixels, tile_twips, look_text, tile_numbers, tile_line, kit_text, digit_of, word_of};

use crate::frame::Frame;
use crate::kind::ErrorKind;
use cool_base::{Memory, Rect, Size, ViewId, Wid};
use kit_trait::KitName;
use std::alloc::Global;
use tile_key::TileKey;

/// The bytes of the frame. A tile's line may say more or fewer pixels than it has; the frame is one
/// of the protocol where it has 4 bytes a pixel.
#[tactic(auto, unfolding(crate::specs::Frames::frame_bytes))]
pub fn write_frame(alloc: Global, frame: &Frame) -> Result<Vec<u8>, Memory>
    ensures { IfOk result (λ bytes. bytes.items ≡ frame_bytes frame.now) }
{
    match frame {
        Frame::Server => server(alloc),
        Frame::Status {
            kit,
            parts,
            size,
            view,
            readonly,
        } => status(alloc, *kit, *parts, size, *view, *readonly),
        Frame::Invalidate { part, rect } => invalidate(alloc, *part, rect),
        Frame::SaveDone { inputs, put } => saved(alloc, *inputs, *put),
        Frame::Error { cmd, kind, code } => error(alloc, cmd.get(), *kind, *code),
        Frame::Tile {
            key,
            ver,
            wid,
            pixels,
        } => tile(alloc, key, *ver, *wid, pixels),
    }
}

fn server(alloc: Global) -> Result<Vec<u8>, Memory>
    ensures { IfOk result (λ bytes. bytes.items ≡ server_bytes) }
{
    let bytes = Vec::from_slice(
        alloc,
        b"coolserver {\"Version\":\"profile-1\",\"Protocol\":\"0.1\"}",
    )?;
    Ok(bytes)
}

fn status(
    alloc: Global,
    kit: KitName,
    parts: u32,
    size: &Size,
    view: ViewId,
    readonly: bool,
) -> Result<Vec<u8>, Memory>
    ensures { IfOk result (λ bytes. bytes.items ≡ status_document kit parts size.now ++ status_view view readonly) }
{
    let mut text = document_of(alloc, kit, parts, size)?;
    text.push_str(view_of(alloc, view, readonly)?.as_str())?;
    Ok(text.into_bytes())
}

#[tactic(auto, unfolding(crate::specs::Frames::status_document))]
fn document_of(alloc: Global, kit: KitName, parts: u32, size: &Size) -> Result<String, Memory>
    ensures { IfOk result (λ text. string_bytes text ≡ status_document kit parts size.now) }
{
    let kit = kit_text(kit);
    let width = size.w;
    let height = size.h;
    let text = format!(in alloc;
        "status: type={kit} parts={parts} current=0 width={width} height={height}"
    )?;
    Ok(text)
}

#[tactic(auto, unfolding(crate::specs::Frames::status_view))]
fn view_of(alloc: Global, view: ViewId, readonly: bool) -> Result<String, Memory>
    ensures { IfOk result (λ text. string_bytes text ≡ status_view view readonly) }
{
    let number = view.0;
    let readonly = digit_of(readonly);
    let text = format!(in alloc; " viewid={number} readonly={readonly}")?;
    Ok(text)
}

fn invalidate(alloc: Global, part: u32, rect: &Rect) -> Result<Vec<u8>, Memory>
    ensures { IfOk result (λ bytes. bytes.items ≡ invalidate_place part rect.now ++ invalidate_size rect.now) }
{
    let mut text = place_of(alloc, part, rect)?;
    text.push_str(size_of(alloc, rect)?.as_str())?;
    Ok(text.into_bytes())
}

#[tactic(auto, unfolding(crate::specs::Frames::invalidate_place))]
fn place_of(alloc: Global, part: u32, rect: &Rect) -> Result<String, Memory>
    ensures { IfOk result (λ text. string_bytes text ≡ invalidate_place part rect.now) }
{
    let x = rect.x;
    let y = rect.y;
    let text = format!(in alloc; "invalidatetiles: part={part} x={x} y={y}")?;
    Ok(text)
}

#[tactic(auto, unfolding(crate::specs::Frames::invalidate_size))]
fn size_of(alloc: Global, rect: &Rect) -> Result<String, Memory>
    ensures { IfOk result (λ text. string_bytes text ≡ invalidate_size rect.now) }
{
    let width = rect.w;
    let height = rect.h;
    let text = format!(in alloc; " width={width} height={height}")?;
    Ok(text)
}

#[tactic(auto, unfolding(crate::specs::Frames::saved_bytes))]
fn saved(alloc: Global, inputs: u64, put: bool) -> Result<Vec<u8>, Memory>
    ensures { IfOk result (λ bytes. bytes.items ≡ saved_bytes inputs put) }
{
    let put = word_of(put);
    let text = format!(in alloc;
        "unocommandresult: {{\"commandName\":\".uno:Save\",\"success\":true,\"inputs\":{inputs},\"put\":{put}}}"
    )?;
    Ok(text.into_bytes())
}

fn error(alloc: Global, cmd: &str, kind: ErrorKind, code: Option<u16>) -> Result<Vec<u8>, Memory>
    ensures { IfOk result (λ bytes. bytes.items ≡ error_head cmd.now kind ++ error_code code) }
{
    let mut text = refusal(alloc, cmd, kind)?;
    text.push_str(code_of(alloc, code)?.as_str())?;
    Ok(text.into_bytes())
}

#[tactic(auto, unfolding(crate::specs::Frames::error_head))]
fn refusal(alloc: Global, cmd: &str, kind: ErrorKind) -> Result<String, Memory>
    ensures { IfOk result (λ text. string_bytes text ≡ error_head cmd.now kind) }
{
    let kind = kind.text();
    let text = format!(in alloc; "error: cmd={cmd} kind={kind}")?;
    Ok(text)
}

#[tactic(auto, unfolding(crate::specs::Frames::error_code))]
fn code_of(alloc: Global, code: Option<u16>) -> Result<String, Memory>
    ensures { IfOk result (λ text. string_bytes text ≡ error_code code) }
{
    match code {
        Some(code) => {
            let text = format!(in alloc; " code={code}")?;
            Ok(text)
        }
        None => Ok(String::new(alloc)),
    }
}

fn tile(alloc: Global, key: &TileKey, ver: u64, wid: Wid, pixels: &[u8]) -> Result<Vec<u8>, Memory>
    ensures { IfOk result (λ bytes. bytes.items ≡ tile_line key.now ver wid ++ pixels.now) }
{
    let mut bytes = line_of(alloc, key, ver, wid)?.into_bytes();
    bytes.extend_from_slice(pixels)?;
    Ok(bytes)
}

#[tactic(auto, unfolding(crate::specs::Frames::tile_line))]
pub fn line_of(alloc: Global, key: &TileKey, ver: u64, wid: Wid) -> Result<String, Memory>
    ensures { IfOk result (λ text. string_bytes text ≡ tile_line key.now ver wid) }
{
    let mut text = pixels_of(alloc, key)?;
    text.push_str(twips_of(alloc, key)?.as_str())?;
    text.push_str(look_text(key.nviewid()))?;
    text.push_str(numbers_of(alloc, ver, wid)?.as_str())?;
    Ok(text)
}

#[tactic(auto, unfolding(crate::specs::Frames::tile_pixels))]
fn pixels_of(alloc: Global, key: &TileKey) -> Result<String, Memory>
    ensures { IfOk result (λ text. string_bytes text ≡ tile_pixels key.now) }
{
    let part = key.part();
    let width = key.width();
    let height = key.height();
    let text = format!(in alloc; "tile: part={part} width={width} height={height}")?;
    Ok(text)
}

#[tactic(auto, unfolding(crate::specs::Frames::tile_twips))]
fn twips_of(alloc: Global, key: &TileKey) -> Result<String, Memory>
    ensures { IfOk result (λ text. string_bytes text ≡ tile_twips key.now) }
{
    let x = key.posx();
    let y = key.posy();
    let width = key.tilewidth();
    let height = key.tileheight();
    let text = format!(in alloc;
        " tileposx={x} tileposy={y} tilewidth={width} tileheight={height}"
    )?;
    Ok(text)
}

#[tactic(auto, unfolding(crate::specs::Frames::look_text))]
fn look_text(nviewid: u32) -> &'static str
    ensures { result.now ≡ look_text nviewid }
{
    if nviewid == 1 { " nviewid=1" } else { "" }
}

#[tactic(auto, unfolding(crate::specs::Frames::tile_numbers))]
fn numbers_of(alloc: Global, ver: u64, wid: Wid) -> Result<String, Memory>
    ensures { IfOk result (λ text. string_bytes text ≡ tile_numbers ver wid) }
{
    let number = wid.0;
    let text = format!(in alloc; " ver={ver} wid={number}\n")?;
    Ok(text)
}

fn kit_text(kit: KitName) -> &'static str
    ensures { result.now ≡ kit_text kit }
{
    match kit {
        KitName::Patch => "patch",
        KitName::Sheet => "sheet",
    }
}

fn digit_of(yes: bool) -> &'static str
    ensures { result.now ≡ digit_of yes }
{
    if yes { "1" } else { "0" }
}

fn word_of(yes: bool) -> &'static str
    ensures { result.now ≡ word_of yes }
{
    if yes { "true" } else { "false" }
}
