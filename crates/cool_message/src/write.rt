//! The text of a message.
ghost use Rattle.std.specs.Prelude.{◌≡◌, ◌++◌, IfOk, OnOk, codes};
ghost use Rattle.std.specs.List.{flat_map};
ghost use Rattle.cool_words.specs.Lists.{list_text};
ghost use Rattle.cool_message.specs.Names.{command_text};
ghost use Rattle.cool_message.specs.Writing.{written, word_text, number_word, key_text, mouse_text, flag_text};
ghost use Rattle.cool_message.specs.declared.message.ClientMessage.TheVariants as message;

use crate::fault::Word;
use crate::message::{ClientMessage, CombineWords, KeyKind, MouseKind};
use crate::table::Command;
use cool_base::{Memory, Rect};
use cool_words::{push_list_31, push_list_64, push_number};
use std::alloc::Global;
use tile_key::TileWords;

/// The text of the message: its command and all its words in the table's order, one blank between two
/// words, numbers without leading zeros.
pub fn write_message(alloc: Global, message: &ClientMessage) -> Result<Vec<u8>, Memory>
    ensures text { IfOk result (λ bytes. bytes.items ≡ written message.now) }
{
    match message {
        ClientMessage::CoolClient => started(alloc, Command::CoolClient),
        ClientMessage::Load { url } => load(alloc, url.get()),
        ClientMessage::Key { kind, chr, code } => key(alloc, *kind, *chr, *code),
        ClientMessage::Mouse {
            kind,
            x,
            y,
            count,
            buttons,
            modifier,
        } => mouse(alloc, *kind, *x, *y, *count, *buttons, *modifier),
        ClientMessage::Tile(words) => tile(alloc, words),
        ClientMessage::TileCombine(words) => combine(alloc, words),
        ClientMessage::CancelTiles => started(alloc, Command::CancelTiles),
        ClientMessage::VisibleArea(rect) => area(alloc, rect),
        ClientMessage::Zoom {
            pixel_w,
            pixel_h,
            twip_w,
            twip_h,
            nviewid,
        } => zoom(alloc, *pixel_w, *pixel_h, *twip_w, *twip_h, *nviewid),
        ClientMessage::SetPart { part } => set_part(alloc, *part),
        ClientMessage::TileProcessed { wids } => processed(alloc, wids.get()),
        ClientMessage::Save {
            keep_edit,
            skip_unmodified,
        } => save(alloc, *keep_edit, *skip_unmodified),
        ClientMessage::UnoSave => Ok(Vec::from_slice(alloc, b"uno .uno:Save")?),
    }
}

fn load(alloc: Global, url: &str) -> Result<Vec<u8>, Memory>
    ensures { IfOk result (λ bytes. bytes.items ≡ written (message.Load url.now)) }
{
    let mut bytes = started(alloc, Command::Load)?;
    push_word(&mut bytes, Word::Url, url)?;
    Ok(bytes)
}

fn key(alloc: Global, kind: KeyKind, chr: u32, code: u32) -> Result<Vec<u8>, Memory>
    ensures { IfOk result (λ bytes. bytes.items ≡ written (message.Key kind chr code)) }
{
    let mut bytes = started(alloc, Command::Key)?;
    push_word(&mut bytes, Word::Type, key_text(kind))?;
    push_numbers(&mut bytes, &[(Word::Char, chr), (Word::Key, code)])?;
    Ok(bytes)
}

fn key_text(kind: KeyKind) -> &'static str
    ensures { result.now ≡ key_text kind }
{
    match kind {
        KeyKind::Input => "input",
        KeyKind::Up => "up",
    }
}

fn mouse(
    alloc: Global,
    kind: MouseKind,
    x: u32,
    y: u32,
    count: u32,
    buttons: u32,
    modifier: u32,
) -> Result<Vec<u8>, Memory>
    ensures { IfOk result (λ bytes. bytes.items ≡ written (message.Mouse kind x y count buttons modifier)) }
{
    let mut bytes = started(alloc, Command::Mouse)?;
    push_word(&mut bytes, Word::Type, mouse_text(kind))?;
    let numbers = [
        (Word::X, x),
        (Word::Y, y),
        (Word::Count, count),
        (Word::Buttons, buttons),
        (Word::Modifier, modifier),
    ];
    push_numbers(&mut bytes, &numbers)?;
    Ok(bytes)
}

fn mouse_text(kind: MouseKind) -> &'static str
    ensures { result.now ≡ mouse_text kind }
{
    match kind {
        MouseKind::ButtonDown => "buttondown",
        MouseKind::ButtonUp => "buttonup",
        MouseKind::Move => "move",
    }
}

fn tile(alloc: Global, words: &TileWords) -> Result<Vec<u8>, Memory>
    ensures { IfOk result (λ bytes. bytes.items ≡ written (message.Tile words.now)) }
{
    let mut bytes = started(alloc, Command::Tile)?;
    let numbers = [
        (Word::Part, words.part),
        (Word::Width, words.width),
        (Word::Height, words.height),
        (Word::TilePosX, words.tileposx),
        (Word::TilePosY, words.tileposy),
        (Word::TileWidth, words.tilewidth),
        (Word::TileHeight, words.tileheight),
        (Word::NViewId, words.nviewid),
    ];
    push_numbers(&mut bytes, &numbers)?;
    Ok(bytes)
}

fn combine(alloc: Global, words: &CombineWords) -> Result<Vec<u8>, Memory>
    ensures { IfOk result (λ bytes. bytes.items ≡ written (message.TileCombine words.now)) }
{
    let mut bytes = started(alloc, Command::TileCombine)?;
    let shape = [
        (Word::Part, words.part),
        (Word::Width, words.width),
        (Word::Height, words.height),
    ];
    push_numbers(&mut bytes, &shape)?;
    push_list(&mut bytes, Word::TilePosX, words.tileposx.get())?;
    push_list(&mut bytes, Word::TilePosY, words.tileposy.get())?;
    let size = [
        (Word::TileWidth, words.tilewidth),
        (Word::TileHeight, words.tileheight),
        (Word::NViewId, words.nviewid),
    ];
    push_numbers(&mut bytes, &size)?;
    Ok(bytes)
}

fn area(alloc: Global, rect: &Rect) -> Result<Vec<u8>, Memory>
    ensures { IfOk result (λ bytes. bytes.items ≡ written (message.VisibleArea rect.now)) }
{
    let mut bytes = started(alloc, Command::VisibleArea)?;
    let numbers = [
        (Word::X, rect.x),
        (Word::Y, rect.y),
        (Word::Width, rect.w),
        (Word::Height, rect.h),
    ];
    push_numbers(&mut bytes, &numbers)?;
    Ok(bytes)
}

fn zoom(
    alloc: Global,
    pixel_w: u32,
    pixel_h: u32,
    twip_w: u32,
    twip_h: u32,
    nviewid: u32,
) -> Result<Vec<u8>, Memory>
    ensures { IfOk result (λ bytes. bytes.items ≡ written (message.Zoom pixel_w pixel_h twip_w twip_h nviewid)) }
{
    let mut bytes = started(alloc, Command::Zoom)?;
    let numbers = [
        (Word::TilePixelWidth, pixel_w),
        (Word::TilePixelHeight, pixel_h),
        (Word::TileTwipWidth, twip_w),
        (Word::TileTwipHeight, twip_h),
        (Word::NViewId, nviewid),
    ];
    push_numbers(&mut bytes, &numbers)?;
    Ok(bytes)
}

fn set_part(alloc: Global, part: u32) -> Result<Vec<u8>, Memory>
    ensures { IfOk result (λ bytes. bytes.items ≡ written (message.SetPart part)) }
{
    let mut bytes = started(alloc, Command::SetPart)?;
    push_numbers(&mut bytes, &[(Word::Part, part)])?;
    Ok(bytes)
}

fn processed(alloc: Global, wids: &[u64]) -> Result<Vec<u8>, Memory>
    ensures { IfOk result (λ bytes. bytes.items ≡ written (message.TileProcessed wids.now)) }
{
    let mut bytes = started(alloc, Command::TileProcessed)?;
    push_word(&mut bytes, Word::Wids, "")?;
    push_list_64(&mut bytes, wids)?;
    Ok(bytes)
}

fn save(alloc: Global, keep_edit: bool, skip_unmodified: bool) -> Result<Vec<u8>, Memory>
    ensures { IfOk result (λ bytes. bytes.items ≡ written (message.Save keep_edit skip_unmodified)) }
{
    let mut bytes = started(alloc, Command::Save)?;
    push_word(&mut bytes, Word::KeepEdit, flag_text(keep_edit))?;
    push_word(&mut bytes, Word::SkipUnmodified, flag_text(skip_unmodified))?;
    Ok(bytes)
}

fn flag_text(flag: bool) -> &'static str
    ensures { result.now ≡ flag_text flag }
{
    if flag { "1" } else { "0" }
}

/// The command alone.
fn started(alloc: Global, command: Command) -> Result<Vec<u8>, Memory>
    ensures { IfOk result (λ bytes. bytes.items ≡ command_text command) }
{
    Ok(Vec::from_slice(alloc, command.name().as_bytes())?)
}

/// Adds a blank, the word's name and its equals sign, and the value.
fn push_word(bytes: &mut Vec<u8>, word: Word, value: &str) -> Result<(), Memory>
    ensures { OnOk result (bytes.new.items ≡ bytes.old.items ++ word_text word value.now) }
{
    bytes.push(b' ')?;
    bytes.extend_from_slice(word.name().as_bytes())?;
    bytes.push(b'=')?;
    bytes.extend_from_slice(value.as_bytes())?;
    Ok(())
}

/// Adds the words and their numbers.
fn push_numbers(bytes: &mut Vec<u8>, words: &[(Word, u32)]) -> Result<(), Memory>
    ensures { OnOk result (bytes.new.items ≡ bytes.old.items ++ flat_map number_word words.now) }
{
    for (word, number) in words {
        push_number_word(bytes, *word, *number)?;
    }
    Ok(())
}

fn push_number_word(bytes: &mut Vec<u8>, word: Word, number: u32) -> Result<(), Memory>
    ensures { OnOk result (bytes.new.items ≡ bytes.old.items ++ number_word (word, number)) }
{
    push_word(bytes, word, "")?;
    push_number(bytes, u64::from(number))
}

/// Adds the word and its list of numbers.
fn push_list(bytes: &mut Vec<u8>, word: Word, numbers: &[u32]) -> Result<(), Memory>
    ensures { OnOk result (bytes.new.items ≡ bytes.old.items ++ word_text word (list_text numbers.now)) }
{
    push_word(bytes, word, "")?;
    push_list_31(bytes, numbers)
}
