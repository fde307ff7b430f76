// Memory with a pack, and what was found out about it.
ghost use Rattle.std.specs.Prelude.{◌≡◌};
ghost use Rattle.pack.specs.Memory.{free_in, used_in};

mod add;
mod calls;
mod lookup;
mod make;

// Memory of 512-byte sectors, tested when the store is made. Where it is no good pack, no sector is used and none is free. It is not printed,
// compared or copied: its calls tell what it means.
#[derive(Drop)]
pub struct Pack<'a> {
    memory: &'a mut [u8],
    // The sectors of the blocks, which stand at the start of the memory.
    used: usize,
    // The unused sectors behind them.
    free: usize,
    ghost filled: { used ≡ used_in memory.now },
    ghost vacant: { free ≡ free_in memory.now },
}
