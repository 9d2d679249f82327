//! A count that stops.

ghost use Rattle.std.specs.Prelude.{◌≡◌, ◌+◌, min};

/// A count with more, which stops at the cap.
pub fn counted(old: u32, more: u64, cap: u32) -> u32
    ensures { result ≡ min (old + more) cap }
{
    u64::from(old).saturating_add(more).min(u64::from(cap)) as u32
}
