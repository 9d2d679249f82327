//! Words that are cleared.

ghost use Rattle.std.specs.Prelude.{◌≡◌, ◌+◌, ◌≤◌, length};
ghost use Rattle.graph.specs.Clearing.{cleared};

/// Clears `n` words from an address on.
pub fn clear(memory: &mut [u32], at: u32, n: u32)
    requires { at + n ≤ length memory.old }
    ensures { memory.new ≡ cleared memory.old at n }
{
    let first = at as usize;
    memory[first..first + n as usize].fill(0);
}
