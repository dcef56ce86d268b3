//! A program that calls the library with a source, a sink and a store of its own, and prints the replies, what was put, and the number that
//! the run ends with.
#![tactic(auto)]

mod sink;
mod source;
mod store;

use crate::sink::ReplySink;
use crate::source::TextSource;
use crate::store::Shop;
use anyhow::Result;
use xf_cli::xforms;
use xf_disk::MemoryDisk;

fn main(rt: HostRuntime) -> Result<()> {
    let alloc = rt.alloc();
    let words = [String::from_str(alloc, "try")?];
    let mut form = TextSource::new(FORM);
    let mut events = TextSource::new(EVENTS);
    let mut out = ReplySink::new(alloc);
    let mut shop = Shop::new(alloc, PRICES);
    // With the word `try` no call of the disk is made.
    let mut disk = MemoryDisk::new(alloc, &[], &[], 0, 0)?;
    let status = xforms(
        alloc,
        &words,
        &mut form,
        &mut events,
        &mut out,
        &mut disk,
        &mut shop,
    );
    for (at, reply) in out.replies().iter().enumerate() {
        print!(rt; "reply {}\n{reply}", at + 1)?;
    }
    for order in shop.orders() {
        println!(rt; "put {order}")?;
    }
    println!(rt; "status {status}")?;
    Ok(())
}

/// An order, whose prices come from the store and which goes there.
const FORM: &str =
    r#"["f",{"xmlns:xf":"http://www.w3.org/2002/xforms","xmlns:ev":"http://www.w3.org/2001/xml-events"},
 ["xf:model",
  ["xf:instance",["order",["tea","0"],["cake","0"],["total"]]],
  ["xf:instance",{"id":"prices"},["prices"]],
  ["xf:bind",{"nodeset":"total","constraint":". > 0",
   "calculate":"../tea * instance('prices')/@tea + ../cake * instance('prices')/@cake"}],
  ["xf:submission",{"id":"read","resource":"prices.json","method":"get","serialization":"none",
   "replace":"instance","instance":"prices"}],
  ["xf:submission",{"id":"order","resource":"order.json","method":"post"}],
  ["xf:message",{"ev:event":"xforms-submit-error"},["xf:output",{"value":"event('error-type')"}]]],
 ["xf:input",{"id":"tea","ref":"tea"}],
 ["xf:input",{"id":"cake","ref":"cake"}],
 ["xf:output",{"id":"total","ref":"total"}]]"#;

/// What a person does with it.
const EVENTS: &str = r#"["send","order"]
["send","read"]
["set","tea",[],"3"]
["set","cake",[],"1"]
["set","total",[],"1"]
["send","order"]
"#;

/// What the store has under `prices.json`.
const PRICES: &str = r#"["prices",{"cake":"4","tea":"2.5"}]"#;
