// The verdicts on many blocks, each of which is damaged in the same way at another place or by another byte.
ghost use Rattle.std.specs.Iterator.{IsFinite};

use crate::damage::spliced;
use crate::verdict::{Verdict, judge};
use sha256::Sha256;
use std::alloc::{AllocError, Global};

// Each byte changed to each other value.
pub(crate) fn changed(heap: Global, whole: &[u8]) -> anyhow::Result<Vec<Verdict>> {
    let mut all = Vec::new(heap);
    for (at, byte) in whole.iter().enumerate() {
        let blocks = (1..=255).map(|step| spliced(
            heap,
            whole,
            at,
            at + 1,
            &[byte.wrapping_add(step)],
        ));
        all.append(&mut verdicts(heap, blocks)?)?;
    }
    Ok(all)
}

// Each shorter beginning.
pub(crate) fn truncated(heap: Global, whole: &[u8]) -> anyhow::Result<Vec<Verdict>> {
    verdicts(
        heap,
        (0..whole.len()).map(|len| Vec::from_slice(heap, &whole[..len])),
    )
}

// Each byte behind the end.
pub(crate) fn appended(heap: Global, whole: &[u8]) -> anyhow::Result<Vec<Verdict>> {
    let len = whole.len();
    verdicts(
        heap,
        (0..=255).map(|byte| spliced(heap, whole, len, len, &[byte])),
    )
}

// Those on some blocks, one after the other.
fn verdicts<I: Iterator<Item = Result<Vec<u8>, AllocError>> + Drop>(
    heap: Global,
    blocks: I,
) -> anyhow::Result<Vec<Verdict>>
    requires can { I.can_next blocks }
    requires ends { IsFinite (I.remaining blocks) }
{
    let mut verdicts = Vec::new(heap);
    for block in blocks {
        verdicts.push(judge::<Sha256>(heap, block?.as_slice())?)?;
    }
    Ok(verdicts)
}
