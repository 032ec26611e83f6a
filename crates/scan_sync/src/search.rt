// What a search for a sync end takes at a step.
ghost use Rattle.std.specs.Prelude.{◌≡◌, ◌*◌, ◌<◌, length};
ghost use Rattle.ring.specs.Bit.{IsRing, bit_at};
ghost use Rattle.scan_sync.specs.Inside.{one_bit, chunk_at};

use crate::Chunk;

// One bit of a ring, as a chunk.
fn one_bit(ring: &[u8], at: usize) -> Chunk
    requires ring { IsRing ring.now }
    requires at_bound { at < 8 * length ring.now }
    ensures { result ≡ one_bit (bit_at ring.now at) }
{
    let byte = ring[at / 8];
    let bit = (byte >> (7 - at % 8)) & 1;
    Chunk {
        width: 1,
        bits: 255 * bit,
    }
}

// The chunk at `at`, where a search has `left` places to go.
pub fn chunk_at(ring: &[u8], at: usize, left: usize) -> Chunk
    requires ring { IsRing ring.now }
    requires at_bound { at < 8 * length ring.now }
    ensures { result ≡ chunk_at (bit_at ring.now) at left }
{
    if at % 8 != 0 {
        return one_bit(ring, at);
    }
    if left < 8 {
        return one_bit(ring, at);
    }
    Chunk {
        width: 8,
        bits: ring[at / 8],
    }
}
