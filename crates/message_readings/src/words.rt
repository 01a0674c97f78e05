//! Words, numbers, lists, file ids and tokens.
use anyhow::Result;
use cool_base::{FileId, Memory, Token, read_u31, read_u64};
use cool_words::{
    count_named, count_parts, first_value, is_command, is_list_31, is_list_64, list_31, list_64,
    name_and_value, percent_decoded, push_list_31, push_list_64, split_once, words,
};

/// Prints the number that the text is, in both sizes.
pub fn show_number(rt: &HostRuntime, text: &[u8]) -> Result<()> {
    let small = read_u31(text);
    let large = read_u64(text);
    println!(rt; "  {small:?} {large:?}")?;
    Ok(())
}

/// Prints how many parts the text has, the list that it is in both sizes, and how it is written.
pub fn show_list(rt: &HostRuntime, text: &str) -> Result<()> {
    let parts = count_parts(text);
    println!(rt; "  {parts} parts")?;
    if is_list_31(text) {
        let mut written = Vec::new(rt.alloc());
        push_list_31(&mut written, &list_31(rt.alloc(), text)?)?;
        show_bytes(rt, &written)?;
    }
    if is_list_64(text) {
        let mut written = Vec::new(rt.alloc());
        push_list_64(&mut written, &list_64(rt.alloc(), text)?)?;
        show_bytes(rt, &written)?;
    }
    Ok(())
}

/// Prints the words of the text, how many have the name `a`, and the value of the first of these.
pub fn show_words(rt: &HostRuntime, text: &str) -> Result<()> {
    let found = words(rt.alloc(), text)?;
    let named = count_named(&found, "a");
    let value = first_value(&found, "a");
    println!(rt; "  {found:?} {named} {value:?}")?;
    Ok(())
}

/// Prints the two sides of the text at its first equals sign, as bytes and as a name and a value.
pub fn show_parts(rt: &HostRuntime, text: &str) -> Result<()> {
    let sides = name_and_value(text);
    println!(rt; "  {sides:?}")?;
    let Some((front, behind)) = split_once(text.as_bytes(), b'=') else {
        return Ok(());
    };
    show_bytes(rt, front)?;
    show_bytes(rt, behind)
}

/// Prints what the text is as percent escapes, as a command or as a file id.
pub fn show_word(rt: &HostRuntime, form: &str, text: &str) -> Result<()> {
    match form {
        "percent" => show_bytes(rt, &percent_decoded(rt.alloc(), text.as_bytes())?),
        "command" => {
            let is = is_command(text.as_bytes());
            println!(rt; "  {is}")?;
            Ok(())
        }
        _ => show_file(rt, text),
    }
}

// Prints the file id that the text is.
fn show_file(rt: &HostRuntime, text: &str) -> Result<()> {
    let Some(file) = FileId::read(text) else {
        println!(rt; "  no file id")?;
        return Ok(());
    };
    let read = file.text();
    let same = file.is_same(&file.copy());
    println!(rt; "  {read} {same}")?;
    Ok(())
}

/// Prints the token that the text is.
pub fn show_token(rt: &HostRuntime, text: &str) -> Result<()> {
    let Some(token) = Token::read(rt.alloc(), text)? else {
        println!(rt; "  no token")?;
        return Ok(());
    };
    let copy = token.copy(rt.alloc())?;
    let (read, again) = (token.text(), copy.text());
    let same = read == again;
    println!(rt; "  {read} {same}")?;
    Ok(())
}

/// Prints the words for want of memory.
pub fn show_memory(rt: &HostRuntime) -> Result<()> {
    println!(rt; "  {Memory}")?;
    Ok(())
}

// Prints the bytes as a text, or their numbers where they are no UTF-8.
fn show_bytes(rt: &HostRuntime, bytes: &[u8]) -> Result<()> {
    match std::str::from_utf8(bytes) {
        Ok(text) => println!(rt; "  {text}")?,
        Err(_) => println!(rt; "  {bytes:?}")?,
    }
    Ok(())
}
