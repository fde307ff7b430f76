// Blocks from one store to another.
ghost use Rattle.std.specs.Prelude.{◌≡◌, length};
ghost use Rattle.store.specs.Answer.{told};
ghost use Rattle.store.specs.Calls.{find_buffer};
ghost use Rattle.store.specs.Copies.{copy_answer, copy_after};

use crate::fault::Fault;
use crate::store::Store;
use digest::Digest;

// Puts the block that one store holds under a name to the other, and answers whether it was there. The block passes through `work`, a buffer
// of the caller, since no store takes memory.
pub fn copy_block<S: Store, T: Store>(
    from: &S,
    to: &mut T,
    name: &Digest,
    work: &mut [u8],
) -> Result<bool, Fault>
    ensures answer { told result ≡ copy_answer (S.Store.meaning from.now) (T.Store.meaning to.old) name.now.bytes (length work.old) }
    ensures after { T.Store.meaning to.new ≡ copy_after (S.Store.meaning from.now) (T.Store.meaning to.old) name.now.bytes (length work.old) }
    ensures buffer { work.new ≡ find_buffer (S.Store.meaning from.now) name.now.bytes work.old }
{
    let Some(len) = from.find(name, work)? else {
        return Ok(false);
    };
    to.put(name, &work[..len])?;
    Ok(true)
}
