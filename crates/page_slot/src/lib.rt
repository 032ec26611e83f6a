// The line of a slot of a NIB file, put on a page: the span that is taken for one turn and what speaks for it, the sectors that are found
// in the ring so cut and in the whole window, and of those that the ring has not where they are, or why they do not read.
ghost use Rattle.std.specs.Prelude.{◌≡◌, ◌<◌, ◌≤◌, length, [], ◌∷◌};
ghost use Rattle.page.specs.Page.{writes};
ghost use Rattle.page_slot.specs.Span.{span_text};
ghost use Rattle.geometry.specs.Zones.{sectors_of};
ghost use Rattle.ring.specs.Bit.{IsRing};
ghost use Rattle.page_slot.specs.Turn.{turn_statuses};
ghost use Rattle.page_slot.specs.Sectors.{whereabouts, why_of, like_next, like_before, lead_text, reason_text, why_text};
ghost use Rattle.page_slot.specs.Sectors.{lost_at, lost_text, found_text, sectors_text};
ghost use Rattle.base.specs.Choice.{pick};
ghost use Rattle.page_slot.specs.Slots.{is_whole, track_of, name_text, slot_line, slot_text};
ghost use Rattle.nib_catalogue.specs.Catalogue.{catalogue_of};

use nib_orbit::Estimate;
use page::Page;
use page_lines::Detail;
use track_read::{HANDED_OUT, NO_HEADER};

// Zone, span and agreements.
fn put_span(page: &mut Page, zone: u8, chosen: Estimate)
    ensures { page.new ≡ writes page.old (span_text zone chosen) }
{
    page.counted(b" zone", u64::from(zone));
    page.counted(b" span", chosen.span as u64);
    page.counted(b" agreements", chosen.agreements as u64);
    page.counted(b" of", chosen.observations as u64);
}

// The statuses of a track's sectors in the turn that the first `span` bytes of a window begin.
fn turn_statuses(window: &[u8], span: usize, track: u8, part: &mut [u8])
    requires { (IsRing window.now) × (span ≤ length window.now) × (length part.old ≡ sectors_of track) }
    ensures { part.new ≡ turn_statuses window.now span track }
{
    let count = part.len();
    base::fill(part, 0, count, NO_HEADER);
    let end = 8 * span;
    let mut bit: usize = 0;
    while let Some(record) = scan::next_record(window, track, end, bit) {
        part[record.sector] = HANDED_OUT;
        bit = record.place + geometry::BLOCK_BITS;
    }
}

// The statuses in the ring, in its turn and in the window are lent one by one, and no struct holds them: clauses name those they need.
// Why neither ring nor window has a sector, by its status in the ring; 1 where one of them has it.
fn why_of(ring: &[u8], window: &[u8], j: usize) -> u8
    ensures { result ≡ why_of ring.now window.now j }
{
    if base::byte_or(window, j, 0) == HANDED_OUT {
        return HANDED_OUT;
    }
    base::byte_or(ring, j, 0)
}

// Is the reason that of the sector behind it?
fn like_next(ring: &[u8], window: &[u8], j: usize) -> bool
    requires { j < length ring.now }
    ensures { result ≡ like_next ring.now window.now j }
{
    let why = why_of(ring, window, j);
    why == why_of(ring, window, j + 1)
}

// Is it that of the sector before?
fn like_before(ring: &[u8], window: &[u8], j: usize) -> bool
    requires { j < length ring.now }
    ensures { result ≡ like_before ring.now window.now j }
{
    if j == 0 {
        return false;
    }
    like_next(ring, window, j - 1)
}

// What stands before a sector's number: the word for one or for several, unless it stands behind others.
fn lead_of(before: bool, next: bool) -> &'static [u8]
    ensures { result.now ≡ lead_text before next }
{
    match (before, next) {
        (true, _) => b"",
        (false, true) => b"; sectors",
        (false, false) => b"; sector",
    }
}

// The reason, behind the last that has it.
fn put_reason(page: &mut Page, next: bool, why: u8)
    ensures { page.new ≡ writes page.old (reason_text next why) }
{
    if !next {
        page.words(b": ");
        page_status::put_name(page, why);
    }
}

// A sector that neither has, and why.
fn put_why(page: &mut Page, ring: &[u8], window: &[u8], j: usize)
    requires { j < length ring.now }
    ensures { page.new ≡ writes page.old (why_text ring.now window.now j) }
{
    let before = like_before(ring, window, j);
    let next = like_next(ring, window, j);
    let why = why_of(ring, window, j);
    page.counted(lead_of(before, next), j as u64);
    put_reason(page, next, why);
}

// Where the window has a sector that the ring has not.
fn whereabouts(turn: &[u8], j: usize) -> &'static [u8]
    requires { j < length turn.now }
    ensures { result.now ≡ whereabouts turn.now j }
{
    if turn[j] == HANDED_OUT {
        b" lost across the join"
    } else {
        b" only behind the span"
    }
}

// A sector that the ring has not: where the window has it, or why it does not read.
fn put_lost_at(page: &mut Page, ring: &[u8], turn: &[u8], window: &[u8], j: usize)
    requires { (j < length ring.now) × (j < length turn.now) × (j < length window.now) }
    ensures { page.new ≡ writes page.old (lost_at ring.now turn.now window.now j) }
{
    if ring[j] == HANDED_OUT {
        return;
    }
    if window[j] == HANDED_OUT {
        page.counted(b"; sector", j as u64);
        page.words(whereabouts(turn, j));
    } else {
        put_why(page, ring, window, j);
    }
}

fn put_lost(page: &mut Page, ring: &[u8], turn: &[u8], window: &[u8])
    requires { (length ring.now ≤ length turn.now) × (length ring.now ≤ length window.now) }
    ensures { page.new ≡ writes page.old (lost_text ring.now turn.now window.now) }
{
    for j in 0..ring.len() {
        put_lost_at(page, ring, turn, window, j);
    }
}

// What was found, by the statuses in the ring, in its turn, and in the window.
fn put_found(page: &mut Page, ring: &[u8], turn: &[u8], window: &[u8])
    requires { (length ring.now ≤ length turn.now) × (length ring.now ≤ length window.now) }
    ensures { page.new ≡ writes page.old (found_text ring.now turn.now window.now) }
{
    page_lines::tally(page, b" ring", ring, Detail::Number);
    page_lines::tally(page, b" window", window, Detail::Number);
    put_lost(page, ring, turn, window);
}

// What was found on a whole track.
fn put_sectors(page: &mut Page, window: &[u8], span: usize, track: u8)
    requires { (IsRing window.now) × (span ≤ length window.now) }
    ensures { page.new ≡ writes page.old (sectors_text window.now span track) }
{
    let mut ring = [0u8; 21];
    let mut turn = [0u8; 21];
    let mut whole = [0u8; 21];
    let count = usize::from(geometry::sectors_per_track(track));
    let of_ring = &mut ring[..count];
    let of_turn = &mut turn[..count];
    let of_window = &mut whole[..count];
    track_read::ring_statuses(&window[..span], track, of_ring);
    turn_statuses(window, span, track, of_turn);
    track_read::ring_statuses(window, track, of_window);
    put_found(page, of_ring, of_turn, of_window);
}

fn put_name(page: &mut Page, slot: usize)
    ensures { page.new ≡ writes page.old (name_text slot) }
{
    page.counted(b"track", (slot / 2 + 1) as u64);
    if slot % 2 != 0 {
        page.words(b".5");
    }
}

// A half-track between two tracks has no sectors.
fn put_if_whole(page: &mut Page, window: &[u8], slot: usize, span: usize)
    requires { (IsRing window.now) × (span ≤ length window.now) × (slot ≤ 83) }
    ensures { page.new ≡ writes page.old (pick (is_whole slot) (sectors_text window.now span (track_of slot)) []) }
{
    if slot % 2 == 0 {
        put_sectors(page, window, span, (slot / 2 + 1) as u8);
    }
}

// The line of a slot, by its window and zone.
fn put_window(page: &mut Page, window: &[u8], slot: usize, zone: u8)
    requires { (length window.now ≡ 8192) × (slot ≤ 83) }
    ensures { page.new ≡ writes page.old (slot_line window.now slot zone) }
{
    let chosen = nib_orbit::estimate_orbit(window, zone);
    put_name(page, slot);
    put_span(page, zone, chosen);
    put_if_whole(page, window, slot, chosen.span);
    page.words(b"\n");
}

// The line of a slot of a NIB file with so many pairs; nothing where the file has no such slot.
pub fn put_slot(page: &mut Page, file: &[u8], pairs: usize, slot: usize)
    requires { (catalogue_of file.now ≡ Ok pairs) × (slot ≤ 83) }
    ensures { page.new ≡ writes page.old (slot_text file.now slot) }
{
    let entry = nib_catalogue::find_code(file, (slot + 2) as u8, pairs);
    match entry {
        Some(k) => {
            let zone = nib_catalogue::zone_at(file, k);
            put_window(page, nib_catalogue::window_at(file, k), slot, zone);
        }
        None => (),
    }
}
