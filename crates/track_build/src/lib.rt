// Building a track: one slot for each sector, with what an error code changes in it.
ghost use Rattle.std.specs.Prelude.{◌≡◌, ◌+◌, ◌*◌, ◌<◌, ◌≤◌, length, eqb};
ghost use Rattle.std.proofs.lemmas.List.Edits.{sets};
ghost use Rattle.base.specs.Choice.{pick};
ghost use Rattle.geometry.specs.Zones.{zone_of, slot_size, capacity_of};
ghost use Rattle.gcr.specs.Groups.{encode};
ghost use Rattle.track_build.specs.Blocks.{inverted, header_bytes, data_bytes, spoils};
ghost use Rattle.track_build.specs.Slots.{gap, block, slot, payload_of, slot_of, built_track};
ghost use Rattle.track_build.specs.Answers.{built, out_after};

use base::Refusal;

// Does a code spoil its sector?
pub fn spoils(code: u8) -> bool
    ensures { result ≡ spoils code }
{
    matches!(code, 0x02 | 0x03 | 0x04 | 0x05 | 0x09)
}

// The bytes of a sector; what is not supplied is zeros.
fn payload_of(payloads: &[u8], sector: usize) -> [u8; 256]
    requires { sector < 256 }
    ensures { result ≡ payload_of payloads.now sector }
{
    let mut payload = [0u8; 256];
    for (i, byte) in payload.iter_mut().enumerate() {
        *byte = base::byte_or(payloads, 256 * sector + i, 0);
    }
    payload
}

// A byte with all its bits inverted, where that is asked.
fn inverted_if(asked: bool, x: u8) -> u8
    ensures { result ≡ inverted asked x }
{
    if asked { x ^ 0xFF } else { x }
}

// The bytes of a header. Code 9 inverts its checksum, code 0B both ids before that.
fn header_bytes(code: u8, sector: u8, track: u8, id1: u8, id2: u8) -> [u8; 8]
    ensures { result ≡ header_bytes code sector track id1 id2 }
{
    let first = inverted_if(code == 0x0B, id1);
    let second = inverted_if(code == 0x0B, id2);
    let sum = inverted_if(code == 0x09, sector ^ track ^ second ^ first);
    [0x08, sum, sector, track, second, first, 0x0F, 0x0F]
}

// A data block's marker: code 4 writes another than a reader looks for.
fn marker(code: u8) -> u8
    ensures { result ≡ pick (eqb code 4) 0x00 0x07 }
{
    if code == 0x04 { 0x00 } else { 0x07 }
}

// The bytes of a data block: marker, payload, checksum (code 5 inverts it), two zeros.
fn data_bytes(code: u8, payload: &[u8]) -> [u8; 260]
    requires { length payload.now ≡ 256 }
    ensures { result ≡ data_bytes code payload.now }
{
    let sum = inverted_if(code == 0x05, base::xor_of(payload));
    let mut block = [0u8; 260];
    block[0] = marker(code);
    base::store(&mut block, 1, payload);
    block[257] = sum;
    block
}

// The data block of a payload, stored from `at` on: marker, payload, checksum, two zeros, in 65 groups. The groups in the middle are coded
// off the payload, so that no copy of the block's bytes takes room on the stack.
pub fn put_data_block(out: &mut [u8], at: usize, code: u8, payload: &[u8])
    requires at_in_bounds { at + 325 ≤ length out.old }
    requires payload_len { length payload.now ≡ 256 }
    ensures { out.new ≡ sets out.old at (encode 65 (data_bytes code payload.now)) }
{
    let sum = inverted_if(code == 0x05, base::xor_of(payload));
    let first = [marker(code), payload[0], payload[1], payload[2]];
    let last = [payload[255], sum, 0, 0];
    gcr_blocks::encode_groups(out, at, &first, 1);
    gcr_blocks::encode_groups(out, at + 5, &payload[3..255], 63);
    gcr_blocks::encode_groups(out, at + 320, &last, 1);
}

// The bytes of a block of n groups, with sync before and a gap after it, stored from `at` on.
fn put_block(out: &mut [u8], at: usize, bytes: &[u8], n: usize, after: usize)
    requires after_in_bounds { at + (5 + 5 * n + after) ≤ length out.old }
    requires n_in_bounds { 4 * n ≤ length bytes.now }
    ensures { out.new ≡ sets out.old at (block n bytes.now after) }
{
    base::fill(out, at, 5, 0xFF);
    gcr_blocks::encode_groups(out, at + 5, bytes, n);
    base::fill(out, at + 5 + 5 * n, after, 0x55);
}

// The first 24 bytes of a slot: its header's block; with code 2 gap.
fn put_front(out: &mut [u8], at: usize, code: u8, header: &[u8])
    requires at_in_bounds { at + 24 ≤ length out.old }
    requires header_len { length header.now ≡ 8 }
    ensures { out.new ≡ sets out.old at (pick (eqb code 2) (gap 24) (block 2 header.now 9)) }
{
    if code == 0x02 {
        base::fill(out, at, 24, 0x55);
        return;
    }
    put_block(out, at, header, 2, 9);
}

// A slot, stored from `at` on; with code 3 all of it is gap.
fn put_slot(out: &mut [u8], at: usize, code: u8, header: &[u8], body: &[u8], after: usize)
    requires after_in_bounds { at + (354 + after) ≤ length out.old }
    requires header_len { length header.now ≡ 8 }
    requires body_len { length body.now ≡ 260 }
    ensures { out.new ≡ sets out.old at (slot code header.now body.now after) }
{
    if code == 0x03 {
        base::fill(out, at, 354 + after, 0x55);
        return;
    }
    put_front(out, at, code, header);
    put_block(out, at + 24, body, 65, after);
}

// The bytes of a sector's data block.
fn sector_bytes(code: u8, payloads: &[u8], sector: usize) -> [u8; 260]
    requires { sector < 256 }
    ensures { result ≡ data_bytes code (payload_of payloads.now sector) }
{
    let payload = payload_of(payloads, sector);
    data_bytes(code, &payload)
}

// The slot of a sector, stored from `at` on; its length.
fn put_sector(
    out: &mut [u8],
    at: usize,
    track: u8,
    sector: u8,
    payloads: &[u8],
    codes: &[u8],
    id1: u8,
    id2: u8,
) -> usize
    requires { at + slot_size (zone_of track) sector ≤ length out.old }
    ensures { (result ≡ slot_size (zone_of track) sector)
        × (out.new ≡ sets out.old at (slot_of track payloads.now codes.now id1 id2 sector)) }
{
    let code = base::byte_or(codes, sector as usize, 1);
    let header = header_bytes(code, sector, track, id1, id2);
    let body = sector_bytes(code, payloads, sector as usize);
    let after = geometry::gap_after(track, sector as usize);
    put_slot(out, at, code, &header, &body, after);
    354 + after
}

// All slots of a track, one after the other.
fn put_sectors(out: &mut [u8], track: u8, payloads: &[u8], codes: &[u8], id1: u8, id2: u8)
    requires { capacity_of track ≤ length out.old }
    ensures { out.new
        ≡ sets out.old 0 (built_track track payloads.now codes.now id1 id2) }
{
    let mut at: usize = 0;
    for sector in 0..geometry::sectors_per_track(track) {
        at += put_sector(out, at, track, sector, payloads, codes, id1, id2);
    }
}

// A track of these payloads, 256 bytes a sector, with what the codes change. What is not supplied is zeros, and code 1.
pub fn build_track_with_errors(
    track: u8,
    payloads: &[u8],
    codes: &[u8],
    id1: u8,
    id2: u8,
    out: &mut [u8],
) -> Result<usize, Refusal>
    ensures { (result ≡ built track payloads.now out.old)
        × (out.new ≡ out_after track payloads.now codes.now id1 id2 out.old) }
{
    if payloads.len() % 256 != 0 {
        return Err(Refusal::WrongSum);
    }
    let capacity = geometry::track_capacity(track);
    if out.len() < capacity {
        return Err(Refusal::NoRoom);
    }
    put_sectors(out, track, payloads, codes, id1, id2);
    Ok(capacity)
}
