// Prints digests and layers of known messages, and roots of known trees; the gate compares them with the values in `stdout`, which come from
// elsewhere.
#![tactic(auto)]

mod messages;
mod trees;

use digest::{Digest, DigestKind, Fold, layer_of};
use messages::counted;
use sha256::Sha256;
use trees::{empty_root, five_root, lone_root};

// Lengths on both sides of each place where the padding of SHA-256 changes its shape.
const LENGTHS: [usize; 16] = [
    1, 55, 56, 57, 63, 64, 65, 111, 112, 119, 120, 121, 127, 128, 129, 10752,
];

fn main(rt: HostRuntime) -> anyhow::Result<()> {
    run(&rt)
}

fn run(rt: &HostRuntime) -> anyhow::Result<()> {
    published(rt)?;
    for len in LENGTHS {
        digest_line::<Sha256>(
            rt,
            "sha256",
            "counted",
            counted(rt.alloc(), len)?.as_slice(),
        )?;
    }
    for len in [0, 1, 31, 32, 33, 64, 65, 1000] {
        digest_line::<Fold>(rt, "fold", "counted", counted(rt.alloc(), len)?.as_slice())?;
    }
    layers(rt)?;
    roots(rt)
}

// The examples that were published with the standard.
fn published(rt: &HostRuntime) -> anyhow::Result<()> {
    for text in messages::PUBLISHED {
        digest_line::<Sha256>(rt, "sha256", text, text.as_bytes())?;
    }
    let million = vec![in rt.alloc(); b'a'; 1_000_000]?;
    digest_line::<Sha256>(rt, "sha256", "a...", million.as_slice())
}

// The layers of some keys.
fn layers(rt: &HostRuntime) -> anyhow::Result<()> {
    for key in messages::KEYS {
        let layer = layer_of::<Sha256>(key.as_bytes());
        println!(rt; "layer sha256 {key} {layer}")?;
    }
    for zeros in 0..33 {
        let mut key = vec![in rt.alloc(); 0; zeros]?;
        key.push(0x3f)?;
        let layer = layer_of::<Fold>(key.as_slice());
        println!(rt; "layer fold 3f after {zeros} {layer}")?;
    }
    Ok(())
}

// The roots of some trees.
fn roots(rt: &HostRuntime) -> anyhow::Result<()> {
    root_line(rt, "empty", empty_root())?;
    for key in messages::LONE_KEYS {
        root_line(rt, key, lone_root(key))?;
    }
    for key in messages::FIVE_KEYS {
        let layer = layer_of::<Sha256>(key.as_bytes());
        println!(rt; "layer sha256 {key} {layer}")?;
    }
    root_line(rt, "of five", five_root(messages::FIVE_KEYS))
}

// One line: which tree, and its root.
fn root_line(rt: &HostRuntime, tree: &str, root: Option<Digest>) -> anyhow::Result<()> {
    match root {
        Some(root) => println!(rt; "root {tree} {root}")?,
        None => println!(rt; "root {tree} none")?,
    }
    Ok(())
}

// One line: the kind, what the message is, its length and its digest.
fn digest_line<K: DigestKind>(
    rt: &HostRuntime,
    kind: &str,
    message_name: &str,
    message: &[u8],
) -> anyhow::Result<()> {
    let digest = K::digest(message);
    let len = message.len();
    println!(rt; "{kind} {message_name:?} {len} {digest}")?;
    Ok(())
}
