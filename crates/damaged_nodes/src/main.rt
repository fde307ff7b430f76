// Damages a node in every small way and prints what the reader makes of the bytes; the gate compares the lines with `stdout`, which a
// model of its own computed.
//
//   nodes      the nodes to damage
//   damage     bytes with a part replaced
//   verdict    what the reader makes of a block
//   families   the verdicts on many blocks that are damaged in one way
#![tactic(auto)]

mod damage;
mod families;
mod nodes;
mod verdict;

use anyhow::Context;
use damage::replaced;
use digest::{DigestKind, Fold};
use node_reader::NodeReader;
use nodes::{counted_keys, long_keys, sample};
use sha256::Sha256;
use verdict::{Verdict, judge, times};

fn main(rt: HostRuntime) -> anyhow::Result<()> {
    run(&rt)
}

fn run(rt: &HostRuntime) -> anyhow::Result<()> {
    let heap = rt.alloc();
    let whole = sample::<Sha256>(heap)?;
    let whole = whole.as_slice();
    undamaged(rt, whole)?;
    family_line(rt, "changed byte", &families::changed(heap, whole)?)?;
    family_line(rt, "truncated", &families::truncated(heap, whole)?)?;
    family_line(rt, "appended", &families::appended(heap, whole)?)?;
    other_forms(rt, whole)?;
    null_record_link(rt, whole)?;
    block_line(rt, "another code", sample::<Fold>(heap)?.as_slice())?;
    limits(rt)
}

// The node as it was written.
fn undamaged(rt: &HostRuntime, whole: &[u8]) -> anyhow::Result<()> {
    block_line(rt, "whole", whole)?;
    let len = whole.len();
    println!(rt; "length: {len}")?;
    let reader = NodeReader::read::<Sha256>(whole).context("the sample is no node")?;
    for key in ["rm/3", "rm/4"] {
        match reader.find(key.as_bytes()) {
            Some(place) => println!(rt; "find {key}: {place}")?,
            None => println!(rt; "find {key}: none")?,
        }
    }
    Ok(())
}

// Heads that are longer than needed, numbers and maps that say another thing, and a key of no bytes.
fn other_forms(rt: &HostRuntime, whole: &[u8]) -> anyhow::Result<()> {
    replaced_line(
        rt,
        "longer head of the array",
        whole,
        b"\x61e\x83",
        b"\x61e\x98\x03",
    )?;
    replaced_line(
        rt,
        "longer head of p",
        whole,
        b"\x61p\x00",
        b"\x61p\x18\x00",
    )?;
    replaced_line(
        rt,
        "smaller p",
        whole,
        b"\x61k\x413\x61p\x03",
        b"\x61k\x42/3\x61p\x02",
    )?;
    replaced_line(
        rt,
        "larger p",
        whole,
        b"\x61k\x413\x61p\x03",
        b"\x61k\x413\x61p\x06",
    )?;
    replaced_line(rt, "fifth map entry", whole, b"\xA4\x61k", b"\xA5\x61k")?;
    replaced_line(rt, "empty key", whole, b"\x45rm/12", b"\x40")
}

// Null where the record's link of the first entry stood.
fn null_record_link(rt: &HostRuntime, whole: &[u8]) -> anyhow::Result<()> {
    let record = Sha256::digest(b"rm/12");
    let mut link = Vec::from_slice(rt.alloc(), b"\x61v\xD8\x2A\x58\x25\x00\x01\x71\x12\x20")?;
    link.extend_from_slice(&record.bytes)?;
    replaced_line(rt, "null record link", whole, link.as_slice(), b"\x61v\xF6")
}

// The longest keys and the most keys, and one more.
fn limits(rt: &HostRuntime) -> anyhow::Result<()> {
    let heap = rt.alloc();
    let long = long_keys(heap)?;
    let long = long.as_slice();
    block_line(rt, "keys of 64 bytes", long)?;
    replaced_line(rt, "key of 65 bytes", long, b"\x58\x40", b"\x58\x41a")?;
    replaced_line(
        rt,
        "key of 65 bytes, most shared",
        long,
        b"\x61k\x41b",
        b"\x61k\x42bb",
    )?;
    block_line(rt, "64 keys", counted_keys(heap, 64)?.as_slice())?;
    block_line(rt, "65 keys", counted_keys(heap, 65)?.as_slice())
}

// One line for the block with `new` in the place of `old`.
fn replaced_line(
    rt: &HostRuntime,
    name: &str,
    block: &[u8],
    old: &[u8],
    new: &[u8],
) -> anyhow::Result<()> {
    let damaged = replaced(rt.alloc(), block, old, new)?.context("nothing to replace")?;
    block_line(rt, name, damaged.as_slice())
}

// One line for a block.
fn block_line(rt: &HostRuntime, name: &str, block: &[u8]) -> anyhow::Result<()> {
    let verdict = judge::<Sha256>(rt.alloc(), block)?;
    println!(rt; "{name}: {verdict}")?;
    Ok(())
}

// One line for a family: how many blocks got each verdict.
fn family_line(rt: &HostRuntime, name: &str, verdicts: &[Verdict]) -> anyhow::Result<()> {
    let cases = verdicts.len();
    let refused = times(verdicts, Verdict::Refused);
    let same = times(verdicts, Verdict::Same);
    let differs = times(verdicts, Verdict::Differs);
    println!(rt; "{name}: {cases} cases, {refused} refused, {same} same, {differs} differs")?;
    Ok(())
}
