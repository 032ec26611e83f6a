// Blocks where they stand on a ring: a header, a data block, and both as a visit of the scan meets them.
ghost use Rattle.std.specs.Prelude.{◌≡◌, false, ◌++◌, ◌+◌, ◌*◌, ◌%◌, ◌^◌, ◌<◌, ◌≤◌, length, MatchOption};
ghost use Rattle.std.specs.Int.Bits.{bit_xor};
ghost use Rattle.std.proofs.lemmas.List.Edits.{sets};
ghost use Rattle.base.specs.Limits.{longest_ring};
ghost use Rattle.base.specs.Lists.{xor_of};
ghost use Rattle.geometry.specs.Blocks.{header_bits, block_bits};
ghost use Rattle.gcr.specs.Symbols.{Bytes, IllegalAt};
ghost use Rattle.gcr.specs.Places.{decode_at};
ghost use Rattle.gcr.specs.Answers.{answer4};
ghost use Rattle.gcr_blocks.specs.Answers.{is_readable};
ghost use Rattle.ring.specs.Bit.{IsRing, bit_at};
ghost use Rattle.scan_visit.specs.declared.DataAt.TheVariants.{Nowhere};
ghost use Rattle.scan_visit.specs.Visit.{visit, data_at, by_data, data_for};
ghost use Rattle.scan_visit.specs.Answers.{header_answer, a_block, data_answer, a_visit, visit_answer};
ghost use Rattle.scan_visit.specs.Inside.{header_by, without_payload, groups_at, GroupsRead, BlockRead};

use gcr::Illegal;

// What stands at a sync end: a symbol outside the table, by the index of the first, no header of this track, one with a false checksum, by
// its sector, or a true one, by its sector and both ids.
#[derive(Clone, Copy, Debug, PartialEq, Eq)]
pub enum HeaderAt {
    Illegal(u8),
    No,
    FalseSum(u8),
    Sector(u8, u8, u8),
}

// What the data search of a header comes to: no sync end; and at a place a symbol outside the table, by the index of the first, a marker
// that is none, a false checksum, another header, or a good block.
#[derive(Clone, Copy, Debug, PartialEq, Eq)]
pub enum DataAt {
    Nowhere,
    IllegalIn(usize, usize),
    OtherMark(usize),
    WrongSum(usize),
    Another(usize),
    Good(usize),
}

// A visit: the header, and what the data search comes to where that is a true one.
#[derive(Clone, Copy, Debug, PartialEq, Eq)]
pub struct Visited {
    pub header: HeaderAt,
    pub data: DataAt,
}

// The group that begins at bit s of byte i.
fn group_at(ring: &[u8], i: usize, s: usize) -> Result<[u8; 4], Illegal>
    requires ring { IsRing ring.now }
    requires i_in_bounds { (i < length ring.now) × (s < 8) }
    ensures { result ≡ answer4 (decode_at (bit_at ring.now) (8 * i + s) 4) }
{
    gcr::decode_bits(ring::forty_bits(ring, i, s))
}

// The byte five bytes after byte i of n, counted round. A ring may be shorter than a group.
fn five_on(i: usize, n: usize) -> usize
    requires { (i < n) × (n ≤ longest_ring) }
    ensures { (result ≡ (i + 5) % n) × (result < n) }
{
    if i + 5 < n {
        return i + 5;
    }
    (i + 5) % n
}

// A header by the bytes of its two groups.
fn checked_header(a: [u8; 4], b: [u8; 4], track: u8) -> HeaderAt
    ensures { result ≡ header_by track (a ++ b) }
{
    if a[0] != 0x08 {
        return HeaderAt::No;
    }
    if a[3] != track {
        return HeaderAt::No;
    }
    let sector = a[2];
    if a[1] != sector ^ a[3] ^ b[0] ^ b[1] {
        return HeaderAt::FalseSum(sector);
    }
    if geometry::sectors_per_track(track) <= sector {
        return HeaderAt::No;
    }
    HeaderAt::Sector(sector, b[1], b[0])
}

// The header at `place`.
fn header_at(ring: &[u8], track: u8, place: usize) -> HeaderAt
    requires ring { IsRing ring.now }
    requires header_bits_bound { place + header_bits < 2 ^ 64 }
    ensures { result ≡ header_answer (visit (bit_at ring.now) track place).found }
{
    let n = ring.len();
    let start = place % (8 * n);
    let i = start / 8;
    let s = start % 8;
    match group_at(ring, i, s) {
        Err(illegal) => HeaderAt::Illegal(illegal.index),
        Ok(first) => match group_at(ring, five_on(i, n), s) {
            Err(illegal) => HeaderAt::Illegal(8 + illegal.index),
            Ok(second) => checked_header(first, second, track),
        },
    }
}

// A verdict, and no payload.
fn wiped(payload: &mut [u8; 256], verdict: DataAt) -> DataAt
    ensures { a_block result payload.new ≡ without_payload verdict }
{
    *payload = [0u8; 256];
    verdict
}

// Four bytes of a payload stored from `at` on, and their xor with `sum`.
fn take_four(payload: &mut [u8], at: usize, g: [u8; 4], sum: u8) -> u8
    requires { at + 4 ≤ length payload.old }
    ensures { (payload.new ≡ sets payload.old at g) × (result ≡ bit_xor sum (xor_of g)) }
{
    payload[at] = g[0];
    payload[at + 1] = g[1];
    payload[at + 2] = g[2];
    payload[at + 3] = g[3];
    sum ^ g[0] ^ g[1] ^ g[2] ^ g[3]
}

// Groups read in a row: the xor with their bytes, and the byte of the ring that follows.
#[derive(Clone, Copy)]
struct GroupRun {
    pub sum: u8,
    pub next: usize,
}

// The 63 groups of a data block that are payload whole, from bit s of byte i on; nothing where a symbol is outside the table.
fn read_groups(ring: &[u8], i: usize, s: usize, sum: u8, payload: &mut [u8]) -> Option<GroupRun>
    requires ring { IsRing ring.now }
    requires i_in_bounds { (i < length ring.now) × (s < 8) }
    requires payload_len { length payload.old ≡ 256 }
    ensures { MatchOption result (is_readable (groups_at ring.now i s) ≡ false)
        (GroupsRead ring.now i s sum payload.old payload.new) }
{
    let n = ring.len();
    let mut xor = sum;
    let mut at = i;
    for k in 0..63usize {
        let four = group_at(ring, at, s).ok()?;
        xor = take_four(payload, 3 + 4 * k, four, xor);
        at = five_on(at, n);
    }
    Some(GroupRun { sum: xor, next: at })
}

// A data block read: the xor of its payload, and what its checksum says.
#[derive(Clone, Copy)]
struct BlockSums {
    pub sum: u8,
    pub told: u8,
}

// The data block at bit s of byte i, whose first group is `first`; nothing where a symbol is outside the table.
fn read_block(
    ring: &[u8],
    i: usize,
    s: usize,
    first: [u8; 4],
    payload: &mut [u8],
) -> Option<BlockSums>
    requires ring { IsRing ring.now }
    requires i_in_bounds { (i < length ring.now) × (s < 8) }
    requires payload_len { length payload.old ≡ 256 }
    requires s_value { decode_at (bit_at ring.now) (8 * i + s) 4 ≡ Bytes first }
    ensures { MatchOption result (is_readable (decode_at (bit_at ring.now) (8 * i + s) 260) ≡ false)
        (BlockRead (decode_at (bit_at ring.now) (8 * i + s) 260) payload.new) }
{
    payload[0] = first[1];
    payload[1] = first[2];
    payload[2] = first[3];
    let second = five_on(i, ring.len());
    let xor = first[1] ^ first[2] ^ first[3];
    let run = read_groups(ring, second, s, xor, payload)?;
    let last = group_at(ring, run.next, s).ok()?;
    payload[255] = last[0];
    Some(BlockSums {
        sum: run.sum ^ last[0],
        told: last[1],
    })
}

// The index of the first symbol outside the table in the data block at bit s of byte i, which has one. It is looked for once a block is
// refused: to count symbols while a good one is read would take time.
fn first_bad(ring: &[u8], i: usize, s: usize) -> usize
    requires ring { IsRing ring.now }
    requires i_in_bounds { (i < length ring.now) × (s < 8) }
    requires s_value { is_readable (decode_at (bit_at ring.now) (8 * i + s) 260) ≡ false }
    ensures { decode_at (bit_at ring.now) (8 * i + s) 260 ≡ IllegalAt result }
{
    let n = ring.len();
    let mut at = i;
    for k in 0..65usize {
        match group_at(ring, at, s) {
            Err(illegal) => return 8 * k + usize::from(illegal.index),
            Ok(_) => at = five_on(at, n),
        }
    }
    0
}

// The data block of `place`, which is bit s of byte i, whose first group is `first` and has no header's marker. All its symbols are looked
// at first.
fn block_at(
    ring: &[u8],
    place: usize,
    i: usize,
    s: usize,
    first: [u8; 4],
    payload: &mut [u8; 256],
) -> DataAt
    requires ring { IsRing ring.now }
    requires i_in_bounds { (i < length ring.now) × (s < 8) }
    requires s_value { decode_at (bit_at ring.now) (8 * i + s) 4 ≡ Bytes first }
    ensures { a_block result payload.new
        ≡ data_answer (by_data place (decode_at (bit_at ring.now) (8 * i + s) 260)) }
{
    let Some(read) = read_block(ring, i, s, first, payload) else {
        return wiped(payload, DataAt::IllegalIn(place, first_bad(ring, i, s)));
    };
    if first[0] != 0x07 {
        return wiped(payload, DataAt::OtherMark(place));
    }
    if read.sum != read.told {
        return wiped(payload, DataAt::WrongSum(place));
    }
    DataAt::Good(place)
}

// What stands at the data place `place`; the marker is looked at first, in the first group alone. The payload is stored where the block
// is good, else zeros.
fn data_at(ring: &[u8], place: usize, payload: &mut [u8; 256]) -> DataAt
    requires ring { IsRing ring.now }
    requires block_bits_bound { place + block_bits < 2 ^ 64 }
    ensures { a_block result payload.new ≡ data_answer (data_at (bit_at ring.now) place) }
{
    let start = place % (8 * ring.len());
    let i = start / 8;
    let s = start % 8;
    match group_at(ring, i, s) {
        Err(illegal) => wiped(
            payload,
            DataAt::IllegalIn(place, usize::from(illegal.index)),
        ),
        Ok(first) => {
            if first[0] == 0x08 {
                return wiped(payload, DataAt::Another(place));
            }
            block_at(ring, place, i, s, first, payload)
        }
    }
}

// What the data search of the header at `place` comes to.
fn data_for(ring: &[u8], place: usize, payload: &mut [u8; 256]) -> DataAt
    requires ring { IsRing ring.now }
    requires place_bound { place < 2 ^ 62 }
    ensures { a_block result payload.new ≡ data_answer (data_for (bit_at ring.now) place) }
{
    let sync = scan_sync::find_sync_end(ring, place + geometry::HEADER_BITS, geometry::DATA_SEARCH);
    match sync {
        Some(d) => data_at(ring, d, payload),
        None => wiped(payload, DataAt::Nowhere),
    }
}

// The visit to the sync end at `place`; the payload is stored where there is a good block, else zeros. A header that is no true one has no
// data.
pub fn visit_at(ring: &[u8], track: u8, place: usize, payload: &mut [u8; 256]) -> Visited
    requires ring { IsRing ring.now }
    requires place_bound { place < 2 ^ 62 }
    ensures { a_visit result payload.new ≡ visit_answer (visit (bit_at ring.now) track place).found }
{
    let header = header_at(ring, track, place);
    match header {
        HeaderAt::Sector(_, _, _) => {
            let data = data_for(ring, place, payload);
            Visited { header, data }
        }
        _ => {
            let data = wiped(payload, DataAt::Nowhere);
            Visited { header, data }
        }
    }
}
