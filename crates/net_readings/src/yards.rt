// A yard.
use anyhow::Result;
use cool_base::{DocId, TextOf};
use yard_traits::{HeldYard, Yard};

/// Makes the call of this form, where it is one of a yard, and prints what it answers.
pub fn play_yard(
    rt: &HostRuntime,
    yard: &mut HeldYard<TextOf>,
    form: &str,
    number: u64,
    text: &str,
) -> Result<()> {
    match form {
        "yard" => yard.set_room(number as usize % 1_000)?,
        "offer" => {
            let work = TextOf::of(String::from_str(rt.alloc(), text)?);
            let doc = DocId((number % 1_000) as u32);
            match yard.offer(doc, work) {
                Some(work) => println!(rt; "  given back {}", work.get())?,
                None => println!(rt; "  taken")?,
            }
        }
        "out" => match yard.take_out(number) {
            Some(held) => println!(rt; "  {} of {}: {}", held.number, held.doc.0, held.work.get())?,
            None => println!(rt; "  no such work")?,
        },
        "held" => {
            for held in yard.held() {
                println!(rt; "  {} of {}: {}", held.number, held.doc.0, held.work.get())?;
            }
        }
        "full" => println!(rt; "  {}", yard.full())?,
        _ => {}
    }
    Ok(())
}
