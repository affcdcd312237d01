//! The padding of SHA-256 (FIPS 180-4, section 5.1.1).
ghost use Rattle.std.specs.Prelude.{◌≡◌, ℕ, ◌+◌, ◌≤◌, List, ◌++◌, length};
ghost use Rattle.lanes.specs.Padding.{IsEndLen, filled, padded_to};

// The octets of the one or two blocks that end a message with so many octets after its last whole block.
pub(crate) fn end_len(used: usize) -> usize
    ensures { IsEndLen used result }
{
    if used < 56 { 64 } else { 128 }
}

// Puts octets behind those that were put before.
fn put(end: &mut [u8; 128], at: usize, octets: &[u8])
    requires { at + length octets.now ≤ 128 }
    ensures { (before : List ℕ) → length before ≡ at → end.old ≡ filled before
        → end.new ≡ filled (before ++ octets.now) }
{
    end[at..at + octets.len()].copy_from_slice(octets);
}

// The octets after the last whole block, padded to `size` octets (FIPS 180-4, section 5.1.1).
pub(crate) fn ending(rest: &[u8], more: &[u8], size: usize, bits: u64) -> [u8; 128]
    requires room { length rest.now + length more.now + 9 ≤ size }
    requires most { size ≤ 128 }
    ensures { result ≡ filled (padded_to size bits (rest.now ++ more.now)) }
{
    let mut end = [0; 128];
    put(&mut end, 0, rest);
    put(&mut end, rest.len(), more);
    put(&mut end, rest.len() + more.len(), &[0x80]);
    put(&mut end, size - 8, &bits.to_be_bytes());
    end
}
