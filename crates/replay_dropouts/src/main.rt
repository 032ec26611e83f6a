// Built tracks with one stretch forced to zero, read from many bits: what became of each sector, counted. What it must
// write was written by the original, the statuses by the model over it (compare/README.md).
#![tactic(auto)]

ghost use Rattle.std.specs.Prelude.{◌≡◌, ◌*◌, ◌<◌, ◌≤◌};
ghost use Rattle.geometry.specs.Zones.{zone_of, sectors_of, capacity_of, slot_start};
ghost use Rattle.ring.specs.Stretch.{distance};

use page::Page;
use replay_shared::{draw, sum};
use std::io;
use std::io::Write;

// The error codes of a track's sectors.
const CODES: [u8; 21] = [
    1, 0, 2, 1, 3, 11, 4, 1, 5, 0, 9, 1, 0, 2, 1, 11, 1, 4, 1, 9, 0,
];

// The reads of a track: the generator's state, from which start bits are taken; how many there were; the sectors in
// them that the stretch left alone and that came with their own payload; those it hit, with their own payload and
// missing; those whose code spoils them, missing; all others; and the checksum of the status lists.
#[derive(Clone, Copy)]
struct Counts {
    state: u32,
    reads: u64,
    escaped: u64,
    own: u64,
    missing: u64,
    spoiled: u64,
    other: u64,
    total: u32,
}

fn no_counts(seed: u32) -> Counts {
    Counts {
        state: seed,
        reads: 0,
        escaped: 0,
        own: 0,
        missing: 0,
        spoiled: 0,
        other: 0,
        total: sum::START,
    }
}

fn more(n: u64, counts: bool) -> u64 {
    if counts {
        std::num::wrapping_add_u64(n, 1)
    } else {
        n
    }
}

// What a sector came to.
#[derive(Clone, Copy)]
enum Fate {
    Escaped,
    HitOwn,
    HitMissing,
    Spoiled,
    Other,
}

fn counted(c: Counts, fate: Fate) -> Counts {
    let mut next = c;
    match fate {
        Fate::Escaped => next.escaped = more(c.escaped, true),
        Fate::HitOwn => next.own = more(c.own, true),
        Fate::HitMissing => next.missing = more(c.missing, true),
        Fate::Spoiled => next.spoiled = more(c.spoiled, true),
        Fate::Other => next.other = more(c.other, true),
    }
    next
}

// Is it the status of a missing sector?
fn is_missing(status: u8) -> bool {
    match status {
        2 | 3 | 4 | 5 | 9 => true,
        _ => false,
    }
}

// Has a sector of this code, where the stretch left it alone, its code for its status? Of codes 2 and 3 this is not so.
fn keeps_status(code: u8) -> bool {
    match code {
        4 | 5 | 9 => true,
        _ => false,
    }
}

fn is_spoiled(code: u8) -> bool {
    match code {
        2 | 3 | 4 | 5 | 9 => true,
        _ => false,
    }
}

// A stretch of a track's ring, and the bit from which the ring is read.
#[derive(Clone, Copy)]
struct Cut {
    track: u8,
    place: usize,
    long: usize,
    start: usize,
}

// The bits of a sector from its sync to the end of its data block.
const SECTOR_BITS: usize = 2832;

// The bits of a track's ring.
fn ring_bits(track: u8) -> usize
    ensures { (result ≡ 8 * capacity_of track) × (2832 ≤ result) × (result < 100000) }
{
    8 * geometry::track_capacity(track)
}

// The sectors of a track.
fn sectors(track: u8) -> usize
    ensures { (result ≡ sectors_of track) × (0 < result) × (result ≤ 21) }
{
    geometry::sectors_per_track(track) as usize
}

// The byte at which a sector's slot starts.
fn slot_start(track: u8, sector: usize) -> usize
    requires { sector ≤ 21 }
    ensures { (result ≡ slot_start (zone_of track) sector) × (result ≤ 376 * 21) }
{
    let mut at: usize = 0;
    for j in 0..sector {
        at += 354 + geometry::gap_after(track, j);
    }
    at
}

// How far bit b lies after bit a on a ring.
fn steps(bits: usize, a: usize, b: usize) -> usize
    requires { (0 < bits) × (bits < 100000) × (b < 200000) }
    ensures { result ≡ distance bits a b }
{
    (b + (bits - a % bits)) % bits
}

// Does the stretch have one of the sector's bits?
fn is_hit(cut: Cut, sector: usize) -> bool
    requires { (sector ≤ 21) × (cut.place < 200000) }
{
    let bits = ring_bits(cut.track);
    let first = 8 * slot_start(cut.track, sector);
    steps(bits, cut.place, first) < cut.long || steps(bits, first, cut.place) < SECTOR_BITS
}

fn fate_of(spoiled: bool, hit: bool, own: bool, missing: bool) -> Fate {
    if spoiled {
        if missing {
            return Fate::Spoiled;
        }
        return Fate::Other;
    }
    if hit && missing {
        return Fate::HitMissing;
    }
    if !own {
        return Fate::Other;
    }
    if hit {
        return Fate::HitOwn;
    }
    Fate::Escaped
}

// The 256 bytes of a sector, none where there are not so many.
fn bytes_of(all: &[u8], sector: usize) -> &[u8]
    requires { sector ≤ 21 }
{
    let at = 256 * sector;
    let end = at + 256;
    if all.len() < end {
        return &all[0..0];
    }
    &all[at..end]
}

// What stands for a sector after a read: its status, and whether its bytes are its own and whether they are zeros.
fn sector_fate(cut: Cut, sector: usize, payloads: &[u8], out: &[u8], status: u8) -> Fate
    requires { (sector < 21) × (cut.place < 200000) }
{
    let read = bytes_of(out, sector);
    let own = status == 1 && base::same_bytes(read, bytes_of(payloads, sector));
    let missing = is_missing(status) && !base::any_nonzero(read);
    let code = CODES[sector];
    let hit = is_hit(cut, sector);
    if !hit && keeps_status(code) && status != code {
        return Fate::Other;
    }
    fate_of(is_spoiled(code), hit, own, missing)
}

fn tally(c: Counts, cut: Cut, payloads: &[u8], out: &[u8], statuses: &[u8]) -> Counts
    requires { cut.place < 200000 }
{
    let count = sectors(cut.track);
    let told = page::so_far(statuses, count);
    let mut next = c;
    for (j, status) in told.iter().enumerate() {
        next = counted(next, sector_fate(cut, j, payloads, out, *status));
    }
    next.total = sum::mix_all(next.total, told);
    next.reads = more(next.reads, true);
    next
}

fn one_read(c: Counts, cut: Cut, payloads: &[u8]) -> Counts
    requires { cut.place < 200000 }
{
    let codes = CODES;
    let mut ring = [0u8; 7692];
    let mut out = [0u8; 5376];
    let mut statuses = [0u8; 21];
    let answer = theorem_dropout::read_after_dropout(
        cut.track,
        payloads,
        &codes,
        0x41,
        0x30,
        cut.place,
        cut.long,
        cut.start,
        &mut ring,
        &mut out,
        &mut statuses,
    );
    match answer {
        Ok(_) => tally(c, cut, payloads, &out, &statuses),
        Err(_) => counted(c, Fate::Other),
    }
}

// Where a part of a sector begins, in bits from its slot's start: first sync, header, gap, second sync, data, gap.
fn edge_of(choice: usize) -> usize
    ensures { result ≤ 2832 }
{
    match choice {
        0 => 0,
        1 => 40,
        2 => 120,
        3 => 192,
        4 => 232,
        _ => SECTOR_BITS,
    }
}

// The bit at which a sector's slot starts, sectors counted round.
fn slot_bit(track: u8, n: usize) -> usize
    ensures { result ≤ 63168 }
{
    8 * slot_start(track, n % sectors(track))
}

// Where the stretch of case k starts, counted on past the ring's end: one bit before, at or after an edge of a sector.
fn place_of(track: u8, k: usize) -> usize
    requires { k < 864 }
    ensures { result < 200000 }
{
    let bits = ring_bits(track);
    let first = slot_bit(track, track as usize + 5 * (k / 108));
    let edge = edge_of(k / 3 % 6);
    first + edge + bits - 1 + k % 3
}

// The length of a stretch: a few bits, a sector, all but a sector, and the whole ring.
fn length_of(bits: usize, choice: usize) -> usize
    requires { 2832 ≤ bits }
{
    match choice {
        0 => 1,
        1 => 5,
        2 => 10,
        3 => SECTOR_BITS,
        4 => bits - SECTOR_BITS,
        _ => bits,
    }
}

// Where the read of case k starts: anywhere, or among the first bits of a slot, where the scan begins within a sync.
fn start_of(track: u8, k: usize, state: u32) -> usize {
    if k % 2 == 0 {
        return state as usize;
    }
    slot_bit(track, k) + (state / 65536 % 64) as usize
}

// Case k of a track.
fn one_case(c: Counts, track: u8, payloads: &[u8], k: usize) -> Counts
    requires { k < 864 }
{
    let mut next = c;
    let state = draw::step(c.state);
    next.state = state;
    let cut = Cut {
        track,
        place: place_of(track, k),
        long: length_of(ring_bits(track), k / 18 % 6),
        start: start_of(track, k, state),
    };
    one_read(next, cut, payloads)
}

fn run(track: u8) -> Counts {
    let mut payloads = [0u8; 5376];
    let seed = draw::fill(&mut payloads, track as u32);
    let mut c = no_counts(seed);
    for k in 0..864usize {
        c = one_case(c, track, &payloads, k);
    }
    c
}

fn show<W: Write>(out: &mut W, track: u8) -> io::Result<()> {
    let c = run(track);
    let mut line = [0u8; 256];
    let mut page = Page::new(&mut line);
    page.counted(b"track", u64::from(track));
    page.counted(b" reads", c.reads);
    page.counted(b" escaped", c.escaped);
    page.counted(b" hit own", c.own);
    page.counted(b" hit missing", c.missing);
    page.counted(b" spoiled missing", c.spoiled);
    page.counted(b" other", c.other);
    page.sum(c.total);
    page.words(b"\n");
    out.write_all(page.written())
}

fn main(rt: HostRuntime) -> io::Result<()> {
    let mut out = rt.stdout();
    show(&mut out, 1)?;
    show(&mut out, 18)?;
    show(&mut out, 25)?;
    show(&mut out, 31)?;
    show(&mut out, 36)?;
    show(&mut out, 42)
}
