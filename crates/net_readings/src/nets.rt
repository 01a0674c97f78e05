// Two nets.
use anyhow::Result;
use cool_base::{LinkId, ListOf};
use net_traits::{Given, Net, Taken};
use script_net::{ScriptLink, ScriptNet};
use std::alloc::Global;

/// Two nets, the link that is on its way between them, and how many events came.
#[derive(Drop)]
pub struct Nets {
    nets: Vec<ScriptNet>,
    way: Option<ScriptLink>,
    places: u64,
}

impl Nets {
    /// Two nets without links.
    pub fn new(alloc: Global) -> Result<Nets> {
        let mut nets = Vec::new(alloc);
        nets.push(ScriptNet::new(alloc))?;
        nets.push(ScriptNet::new(alloc))?;
        Ok(Nets {
            nets,
            way: None,
            places: 0,
        })
    }

    /// Makes the call of this form, where it is one of a net, and prints what it answers.
    pub fn play(&mut self, rt: &HostRuntime, form: &str, net: u64, rest: &str) -> Result<()> {
        let at = net as usize % 2;
        if at >= self.nets.len() {
            return Ok(());
        }
        let (link, text) = rest.split_once(' ').unwrap_or((rest, ""));
        let link = LinkId(link.parse::<u64>().unwrap_or(0));
        let bytes = ListOf::of(Vec::from_slice(rt.alloc(), text.as_bytes())?);
        self.places = self.places.saturating_add(1);
        let place = self.places;
        let net = &mut self.nets[at];
        match form {
            "open" => println!(rt; "  {}", net.open(link, place)?)?,
            "say" => println!(rt; "  {}", net.say(link, bytes, place)?)?,
            "drop" => println!(rt; "  {}", net.drop_link(link, place)?)?,
            "failnet" => println!(rt; "  {}", net.fail_next(link))?,
            "live" => println!(rt; "  {}", net.is_live(link))?,
            "take" => show_taken(rt, net)?,
            "give" => show_given(rt, net, link, text)?,
            "drain" => show_frames(rt, net)?,
            "release" => {
                self.way = net.release(link);
                println!(rt; "  {}", self.way.is_some())?;
            }
            "adopt" => {
                if let Some(way) = self.way.take() {
                    println!(rt; "  {}", net.adopt(rt.alloc(), way)?.0)?;
                }
            }
            _ => {}
        }
        Ok(())
    }
}

fn show_taken(rt: &HostRuntime, net: &mut ScriptNet) -> Result<()> {
    match net.take(rt.alloc())? {
        Taken::Opened(link) => println!(rt; "  {} opened", link.0)?,
        Taken::Said(link, bytes) => {
            println!(rt;
                "  {} said {}",
                link.0,
                str::from_utf8(bytes.get()).unwrap_or("?")
            )?;
        }
        Taken::Left(link) => println!(rt; "  {} left", link.0)?,
        Taken::Nothing => println!(rt; "  nothing")?,
        Taken::Failed => println!(rt; "  failed")?,
    }
    Ok(())
}

fn show_given(rt: &HostRuntime, net: &mut ScriptNet, link: LinkId, text: &str) -> Result<()> {
    match net.give(rt.alloc(), link, text.as_bytes())? {
        Given::Sent => println!(rt; "  sent")?,
        Given::Failed => println!(rt; "  failed")?,
    }
    Ok(())
}

fn show_frames(rt: &HostRuntime, net: &mut ScriptNet) -> Result<()> {
    for frame in net.drain() {
        println!(rt;
            "  {} {}",
            frame.link.0,
            str::from_utf8(frame.bytes.get()).unwrap_or("?")
        )?;
    }
    Ok(())
}
