//! Numbers and lists of numbers written at the end of bytes, without leading zeros.
ghost use Rattle.std.specs.Prelude.{◌≡◌, ◌++◌, OnOk, decimal};
ghost use Rattle.std.specs.List.{flat_map};
ghost use Rattle.cool_words.specs.Lists.{list_text, comma_and};

use cool_base::Memory;
use itoa::Buffer;

/// Adds the number.
pub fn push_number(bytes: &mut Vec<u8>, number: u64) -> Result<(), Memory>
    ensures { OnOk result (bytes.new.items ≡ bytes.old.items ++ decimal number) }
{
    let mut buffer = Buffer::new();
    bytes.extend_from_slice(buffer.format(number).as_bytes())?;
    Ok(())
}

/// Adds the numbers with a comma between each two.
pub fn push_list_31(bytes: &mut Vec<u8>, numbers: &[u32]) -> Result<(), Memory>
    ensures { OnOk result (bytes.new.items ≡ bytes.old.items ++ list_text numbers.now) }
{
    match numbers {
        [] => Ok(()),
        [first, others @ ..] => {
            push_number(bytes, u64::from(*first))?;
            push_others_31(bytes, others)
        }
    }
}

fn push_others_31(bytes: &mut Vec<u8>, numbers: &[u32]) -> Result<(), Memory>
    ensures { OnOk result (bytes.new.items ≡ bytes.old.items ++ flat_map comma_and numbers.now) }
{
    for number in numbers {
        push_after_comma(bytes, u64::from(*number))?;
    }
    Ok(())
}

/// Adds the numbers with a comma between each two.
pub fn push_list_64(bytes: &mut Vec<u8>, numbers: &[u64]) -> Result<(), Memory>
    ensures { OnOk result (bytes.new.items ≡ bytes.old.items ++ list_text numbers.now) }
{
    match numbers {
        [] => Ok(()),
        [first, others @ ..] => {
            push_number(bytes, *first)?;
            push_others_64(bytes, others)
        }
    }
}

fn push_others_64(bytes: &mut Vec<u8>, numbers: &[u64]) -> Result<(), Memory>
    ensures { OnOk result (bytes.new.items ≡ bytes.old.items ++ flat_map comma_and numbers.now) }
{
    for number in numbers {
        push_after_comma(bytes, *number)?;
    }
    Ok(())
}

fn push_after_comma(bytes: &mut Vec<u8>, number: u64) -> Result<(), Memory>
    ensures { OnOk result (bytes.new.items ≡ bytes.old.items ++ comma_and number) }
{
    bytes.push(b',')?;
    push_number(bytes, number)
}
