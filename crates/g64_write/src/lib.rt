// A master: the G64 image of a D64, each track built into its place in the output.
ghost use Rattle.std.specs.Prelude.{◌≡◌, ◌&&◌, ◌+◌, ◌*◌, ◌/◌, ◌%◌, ◌<◌, ◌≤◌, eqb, ltb, length, get_or};
ghost use Rattle.std.proofs.lemmas.List.Edits.{sets};
ghost use Rattle.base.specs.Lists.{joined};
ghost use Rattle.geometry.specs.Zones.{zone_of, sectors_of, capacity_of};
ghost use Rattle.geometry.specs.D64.{sectors_to, d64_place};
ghost use Rattle.track_build.specs.Slots.{built_track};
ghost use Rattle.g64_write.specs.Master.{
  low_first,
  payloads_on,
  codes_on,
  disk_id1,
  disk_id2,
  track_on,
  entry_size,
  head_size,
  entry_start,
  of_half,
  in_table,
  table_with,
  master_head,
  entry_of,
  master_of,
  master_size,
};
ghost use Rattle.g64_write.specs.Answers.{mastered, out_after};

use base::Refusal;

// How many half-tracks the tables have.
const HALF_TRACKS: usize = 84;

// Where the tables end.
const HEAD_SIZE: usize = 684;

// The most bytes of a ring.
const LARGEST_RING: usize = 7928;

// What a track takes, with the two bytes of its length.
const ENTRY_SIZE: usize = 7930;

// The tables of the head: where the track of a half-track begins, and its speed.
#[derive(Clone, Copy)]
enum Table {
    Offsets,
    Speeds,
}

// A track of a D64, whose sectors the image holds; by the highest track of the disk its error bytes are found.
#[derive(Clone, Copy)]
struct Source<'a> {
    d64: &'a [u8],
    highest: u8,
    track: u8,
    ghost known: { highest ≤ 42 },
    ghost whole: { d64_place track 0 + 256 * sectors_of track ≤ length d64.now },
}

// Does a half-track of a disk of n tracks hold one?
fn is_track(n: u8, half: usize) -> bool
    ensures { result ≡ (eqb (half % 2) 0 && ltb (half / 2) n) }
{
    half % 2 == 0 && half / 2 < usize::from(n)
}

// What a table has for a half-track; 0 where it holds no track.
fn table_number(table: Table, n: u8, half: usize) -> u32
    requires { half < 84 }
    ensures { result ≡ of_half (in_table table) n half }
{
    if !is_track(n, half) {
        return 0;
    }
    match table {
        Table::Offsets => (HEAD_SIZE + ENTRY_SIZE * (half / 2)) as u32,
        Table::Speeds => u32::from(geometry::zone_of((half / 2 + 1) as u8)),
    }
}

// A table, four bytes for each half-track.
fn put_table(part: &mut [u8], table: Table, n: u8)
    requires { length part.old ≡ 336 }
    ensures { part.new ≡ table_with (in_table table) n }
{
    for half in 0..HALF_TRACKS {
        let number = table_number(table, n, half);
        base::store(part, 4 * half, &number.to_le_bytes());
    }
}

// The head: signature, version 0, 84 half-tracks, the largest ring of 7,928 bytes, the two tables.
fn put_head(out: &mut [u8], n: u8)
    requires { head_size ≤ length out.old }
    ensures { out.new ≡ sets out.old 0 (master_head n) }
{
    base::store(out, 0, b"GCR-1541\x00\x54\xF8\x1E");
    put_table(&mut out[12..348], Table::Offsets, n);
    put_table(&mut out[348..HEAD_SIZE], Table::Speeds, n);
}

impl<'a> Source<'a> {
    // The bytes of the track's sectors.
    fn payloads(&self) -> &'a [u8]
        ensures { result.now ≡ payloads_on self.now.d64.now self.now.track }
    {
        let start = geometry::d64_place(self.track, 0);
        let end = start + 256 * usize::from(geometry::sectors_per_track(self.track));
        &self.d64[start..end]
    }

    // A byte of 18/0: at A2 and A3 are the disk's ids.
    fn byte_of_bam(&self, place: u8) -> u8
        ensures { result ≡ get_or self.now.d64.now (d64_place 18 0 + place) 0 }
    {
        base::byte_or(self.d64, geometry::d64_place(18, 0) + usize::from(place), 0)
    }

    // The error bytes of the track's sectors.
    fn put_codes(&self, part: &mut [u8])
        requires { length part.old ≡ sectors_of self.now.track }
        ensures { part.new ≡ codes_on self.now.d64.now self.now.highest self.now.track }
    {
        for (sector, byte) in part.iter_mut().enumerate() {
            *byte = image_d64::error_byte(self.d64, self.highest, self.track, sector as u8);
        }
    }

    // The track with these codes, built into room of its length.
    fn put_built(&self, room: &mut [u8], codes: &[u8])
        requires { length room.old ≡ capacity_of self.now.track }
        ensures { room.new ≡
            built_track self.now.track (payloads_on self.now.d64.now self.now.track) codes.now
            (disk_id1 self.now.d64.now) (disk_id2 self.now.d64.now) }
    {
        let id1 = self.byte_of_bam(0xA2);
        let id2 = self.byte_of_bam(0xA3);
        let payloads = self.payloads();
        let track = self.track;
        // Nothing is refused: the payloads are whole, and the room is the track's.
        let _ = track_build::build_track_with_errors(track, payloads, codes, id1, id2, room);
    }

    // The track with the codes that the image has for it; `codes` has room for them.
    fn put_coded(&self, room: &mut [u8], codes: &mut [u8])
        requires { (length room.old ≡ capacity_of self.now.track) × (length codes.old ≡ sectors_of self.now.track) }
        ensures { room.new ≡ track_on self.now.d64.now self.now.highest self.now.track }
    {
        self.put_codes(codes);
        self.put_built(room, codes);
    }

    // The same, with room for at most 21 codes.
    fn put_track(&self, room: &mut [u8])
        requires { length room.old ≡ capacity_of self.now.track }
        ensures { room.new ≡ track_on self.now.d64.now self.now.highest self.now.track }
    {
        let mut codes = [0u8; 21];
        let count = usize::from(geometry::sectors_per_track(self.track));
        self.put_coded(room, &mut codes[0..count]);
    }

    // The entry of the track: its length, its bytes, zeros.
    fn put_entry(&self, entry: &mut [u8])
        requires { length entry.old ≡ entry_size }
        ensures { entry.new ≡ entry_of (track_on self.now.d64.now self.now.highest self.now.track) }
    {
        let size = geometry::track_capacity(self.track);
        base::store(entry, 0, &(size as u16).to_le_bytes());
        self.put_track(&mut entry[2..2 + size]);
        base::fill(entry, 2 + size, LARGEST_RING - size, 0);
    }
}

// The entries of all tracks, behind the head.
fn put_entries(out: &mut [u8], d64: &[u8], n: u8)
    requires { (master_size n ≤ length out.old) × (n ≤ 42) × (sectors_to n * 256 ≤ length d64.now) }
    ensures { out.new ≡ sets out.old head_size (joined n (λ k. entry_of (track_on d64.now n (k + 1)))) }
{
    for done in 0..n {
        let source = Source {
            d64,
            highest: n,
            track: done + 1,
        };
        let at = HEAD_SIZE + ENTRY_SIZE * usize::from(done);
        source.put_entry(&mut out[at..at + ENTRY_SIZE]);
    }
}

// The whole image, where there is room for it.
fn put_master(out: &mut [u8], d64: &[u8], n: u8)
    requires { (master_size n ≤ length out.old) × (n ≤ 42) × (sectors_to n * 256 ≤ length d64.now) }
    ensures { out.new ≡ sets out.old 0 (master_of d64.now n) }
{
    put_head(out, n);
    put_entries(out, d64, n);
}

// The master of a D64, written to the front of the output, and how many bytes it has; what is behind it stays as lent.
pub fn d64_to_g64(d64: &[u8], out: &mut [u8]) -> Result<usize, Refusal>
    ensures { (result ≡ mastered d64.now out.old)
        × (out.new ≡ out_after d64.now out.old) }
{
    let Some(n) = geometry::tracks_of(d64.len()) else {
        return Err(Refusal::WrongImage);
    };
    let size = HEAD_SIZE + ENTRY_SIZE * usize::from(n);
    if out.len() < size {
        return Err(Refusal::NoRoom);
    }
    put_master(out, d64, n);
    Ok(size)
}
