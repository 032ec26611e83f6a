// NIB files written: one made of rings.
#![tactic(auto)]

ghost use Rattle.std.specs.Prelude.{◌≡◌, ◌+◌, ◌*◌, ◌%◌, ◌<◌, ◌≤◌, eqb, length, get_or};
ghost use Rattle.std.proofs.lemmas.List.Edits.{sets};
ghost use Rattle.base.specs.Lists.{joined};
ghost use Rattle.nib_write.specs.Encoding.{
  sum_to,
  any_long,
  rings_to,
  pair_of,
  repeated,
  slot_window,
  size_of,
  filled,
  encoded_of,
  out_after,
};

use base::Refusal;

// The length of a slot's ring; a missing one is 0.
fn length_at(lengths: &[u64], slot: usize) -> usize
    ensures { result ≡ get_or lengths.now slot 0 }
{
    lengths.get(slot).copied().unwrap_or(0) as usize
}

// The zone of a slot; a missing one is 0.
fn zone_at(zones: &[u8], slot: usize) -> u8
    ensures { result ≡ get_or zones.now slot 0 % 4 }
{
    zones.get(slot).copied().unwrap_or(0) % 4
}

// Is the sum of the first 84 lengths the total? It is taken off the total, so that no sum can wrap.
fn sum_is(lengths: &[u64], total: usize) -> bool
    ensures { result ≡ eqb (sum_to lengths.now 84) total }
{
    let mut left = total;
    for slot in 0..84 {
        let n = length_at(lengths, slot);
        if left < n {
            return false;
        }
        left -= n;
    }
    left == 0
}

// Is one of the first 84 lengths above 65,535?
fn any_long(lengths: &[u64]) -> bool
    ensures { result ≡ any_long lengths.now 84 }
{
    for slot in (0..84).rev() {
        if base::MAX_RING < length_at(lengths, slot) {
            return true;
        }
    }
    false
}

// How many of the first 84 slots have a ring.
fn count_rings(lengths: &[u64]) -> usize
    ensures { (result ≡ rings_to lengths.now 84) × (result ≤ 84) }
{
    (0..84)
        .filter(|&slot| length_at(lengths, slot) != 0)
        .count()
}

// The pair of a slot stored, where it has a ring; the place behind it.
fn put_pair(out: &mut [u8], at: usize, lengths: &[u64], zones: &[u8], slot: usize) -> usize
    requires { (at + 2 ≤ length out.old) × (slot < 84) × (at ≤ 1000) }
    ensures out_after { out.new ≡ sets out.old at (pair_of lengths.now zones.now slot) }
    ensures value { result ≡ at + length (pair_of lengths.now zones.now slot) }
{
    if length_at(lengths, slot) == 0 {
        return at;
    }
    let zone = zone_at(zones, slot);
    out[at] = (slot + 2) as u8;
    out[at + 1] = zone;
    at + 2
}

// All pairs stored from byte 16 on; the place behind them.
fn put_pairs(out: &mut [u8], lengths: &[u64], zones: &[u8]) -> usize
    requires { 256 ≤ length out.old }
    ensures out_after { out.new ≡ sets out.old 16 (joined 84 (pair_of lengths.now zones.now)) }
    ensures value { result ≡ 16 + 2 * rings_to lengths.now 84 }
{
    let mut at: usize = 16;
    for slot in 0..84 {
        at = put_pair(out, at, lengths, zones, slot);
    }
    at
}

// A ring, or the front of one, stored from `at` on. Byte by byte: a store of the whole part would ask C programs for memmove, since the
// compiler does not see that the two lie apart.
fn put_ring(out: &mut [u8], at: usize, ring: &[u8])
    requires { at + length ring.now ≤ length out.old }
    ensures { out.new ≡ sets out.old at ring.now }
{
    for (i, byte) in ring.iter().enumerate() {
        out[at + i] = *byte;
    }
}

// A ring repeated over a window: whole as often as it fits, and then its beginning.
fn put_window(out: &mut [u8], at: usize, ring: &[u8])
    requires { (0 < length ring.now) × (at + 8192 ≤ length out.old) }
    ensures { out.new ≡ sets out.old at (repeated ring.now) }
{
    let n = ring.len();
    let times = 8192 / n;
    for k in 0..times {
        put_ring(out, at + k * n, ring);
    }
    put_ring(out, at + times * n, &ring[0..8192 % n]);
}

// The windows of all slots, one after the other from byte 256 on.
fn put_windows(out: &mut [u8], lengths: &[u64], rings: &[u8])
    requires { (sum_to lengths.now 84 ≡ length rings.now) × (size_of lengths.now ≤ length out.old) }
    ensures { out.new ≡ sets out.old 256 (joined 84 (slot_window lengths.now rings.now)) }
{
    let mut at: usize = 256;
    let mut from: usize = 0;
    for slot in 0..84 {
        let n = length_at(lengths, slot);
        if n != 0 {
            let end = from + n;
            put_window(out, at, &rings[from..end]);
            from = end;
            at += 8192;
        }
    }
}

// The whole file, where there is room for it.
fn put_file(out: &mut [u8], lengths: &[u64], zones: &[u8], rings: &[u8])
    requires { (sum_to lengths.now 84 ≡ length rings.now) × (size_of lengths.now ≤ length out.old) }
    ensures { out.new ≡ filled lengths.now zones.now rings.now out.old }
{
    base::store(out, 0, b"MNIB-1541-RAW\x01\x00\x00");
    let at = put_pairs(out, lengths, zones);
    base::fill(out, at, 256 - at, 0);
    put_windows(out, lengths, rings);
}

// A NIB file of rings: lent the length and the zone of each slot's ring, and the bytes of all rings joined. The number of bytes written.
pub fn encode_nib(
    lengths: &[u64],
    zones: &[u8],
    rings: &[u8],
    out: &mut [u8],
) -> Result<usize, Refusal>
    ensures value { result ≡ encoded_of lengths.now rings.now out.old }
    ensures out_after { out.new ≡ out_after lengths.now zones.now rings.now out.old }
{
    if !sum_is(lengths, rings.len()) {
        return Err(Refusal::WrongSum);
    }
    if any_long(lengths) {
        return Err(Refusal::RingTooLong);
    }
    let n = count_rings(lengths);
    if n == 0 {
        return Err(Refusal::NoRing);
    }
    let size = 256 + 8192 * n;
    if out.len() < size {
        return Err(Refusal::NoRoom);
    }
    put_file(out, lengths, zones, rings);
    Ok(size)
}
