// Bytes copied to the front of a slice, as many as fit.
#![tactic(auto)]

ghost use Rattle.std.specs.Prelude.{◌≡◌, ◌≤◌, ◌++◌, min, length, take, drop};

// Copies `from`, or as much of it as fits, to the front of `to`, and gives how many bytes these are.
pub fn copy(from: &[u8], to: &mut [u8]) -> usize
    ensures copied { (result ≡ min (length from.now) (length to.old)) × (to.new ≡ take (length to.old) from.now ++ drop (length from.now) to.old) }
    ensures fits { length from.now ≤ length to.old → (result ≡ length from.now) × (to.new ≡ take (length from.now) from.now ++ drop (length from.now) to.old) }
{
    let n = from.len().min(to.len());
    to[..n].copy_from_slice(&from[..n]);
    n
}
