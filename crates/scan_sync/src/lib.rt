// The search for a sync end on a ring.
ghost use Rattle.std.specs.Prelude.{◌≡◌, ◌+◌, ◌^◌, ◌<◌};
ghost use Rattle.ring.specs.Bit.{IsRing, bit_at};
ghost use Rattle.scan_sync.specs.Sync.{sync_end};

mod search;

// The next bits of a search, one or eight. Where it is one bit, the byte is eight like it.
#[derive(Drop)]
pub struct Chunk {
    pub width: usize,
    pub bits: u8,
}

// The first zero after at least ten ones, counted from `start`, among `limit` bits. A byte that has a zero before its last ones
// can end a sync only at its first zero.
pub fn find_sync_end(ring: &[u8], start: usize, limit: usize) -> Option<usize>
    requires ring { IsRing ring.now }
    requires limit_bound { start + limit < 2 ^ 64 }
    ensures { result ≡ sync_end (bit_at ring.now) start limit }
{
    let size = 8 * ring.len();
    let mut at = start % size;
    let mut ones: usize = 0;
    let mut offset: usize = 0;
    loop {
        if offset == limit {
            break None;
        }
        let chunk = search::chunk_at(ring, at, limit - offset);
        let width = chunk.width;
        let bits = chunk.bits;
        if bits == 0xFF {
            ones += width;
        } else {
            let front = u8::leading_zeros(!bits) as usize;
            if ones + front >= 10 {
                break Some(start + offset + front);
            }
            ones = u8::trailing_zeros(!bits) as usize;
        }
        offset += width;
        at = ring::wrap(at + width, size);
    }
}
