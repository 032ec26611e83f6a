// The ring lister: a ring behind a small header in, a line for each sector found on it out. And the first bad symbol of such a ring, which
// the listing does not tell.
ghost use Rattle.std.specs.Prelude.{◌≡◌, ◌++◌, ◌+◌, ◌*◌, ◌<◌, ◌≤◌, length, Err, MatchResult};
ghost use Rattle.base.specs.Answers.{number_of, answer, refusal_number};
ghost use Rattle.geometry.specs.Zones.{sectors_of};
ghost use Rattle.page_text.specs.Numerals.{decimal};
ghost use Rattle.page_text.specs.Put.{Put};
ghost use Rattle.lister.specs.Envelope.{is_envelope, track_in, start_in, ring_in, longest_listed, input_refusal, symbol_in};
ghost use Rattle.lister.specs.Listing.{head_line, sector_line, refusal_line, ring_lines, listing};
ghost use Rattle.lister.specs.Listing.{longest_listing, out_refusal, listed, out_after};
ghost use Rattle.lister.specs.Inside.{line_at, lines};

use base::Refusal;
use scan::BadSymbol;

// The longest listing: a first line of 25 bytes, and 17 for each of 21 sectors.
pub const LONGEST_LISTING: usize = 382;

// The longest ring that is listed.
const MAX_LISTED: usize = 8192;

// Does the input begin as it should?
fn is_envelope(input: &[u8]) -> bool
    ensures { result ≡ is_envelope input.now }
{
    if input.len() < 10 {
        return false;
    }
    base::same_bytes(&input[..3], b"TRK") && base::read_word(input, 3) == 1
}

// Is this an input that is listed, or why not?
pub fn check_input(input: &[u8]) -> Result<(), Refusal>
    ensures { result ≡ answer (input_refusal input.now) tt }
{
    if !is_envelope(input) {
        return Err(Refusal::WrongImage);
    }
    let bytes = input.len() - 10;
    if bytes == 0 {
        return Err(Refusal::RingEmpty);
    }
    if MAX_LISTED < bytes {
        return Err(Refusal::RingTooLong);
    }
    Ok(())
}

// What an input holds: a ring, the track that it is read as, and the bit to start at.
#[derive(Clone, Copy)]
struct Envelope<'a> {
    ring: &'a [u8],
    track: u8,
    start: usize,
}

fn open_envelope(input: &[u8]) -> Result<Envelope<'_>, Refusal>
    ensures { MatchResult result
        (λ e. (input_refusal input.now ≡ 0) × (e.ring.now ≡ ring_in input.now)
        × (e.track ≡ track_in input.now) × (e.start ≡ start_in input.now))
        (λ why. answer (input_refusal input.now) (tt {0}) ≡ Err why) }
{
    check_input(input)?;
    Ok(Envelope {
        ring: &input[10..],
        track: input[5],
        start: base::read_long(input, 6),
    })
}

// The first bad symbol of the ring in an input; none where the input is refused.
pub fn ring_symbol(input: &[u8]) -> Option<BadSymbol>
    ensures { result ≡ symbol_in input.now }
{
    match open_envelope(input) {
        Ok(e) => scan_symbols::first_bad(e.ring, e.track, e.start),
        Err(_) => None,
    }
}

// A word and a number in decimal.
fn put_number(out: &mut [u8], at: usize, word: &[u8], n: u64) -> usize
    requires { at + length word.now + length (decimal n) ≤ length out.old }
    ensures { Put out.old at (word.now ++ decimal n) out.new result }
{
    let behind = page_text::put_bytes(out, at, word);
    page_text::put_decimal(out, behind, n)
}

// The first line.
fn put_head(out: &mut [u8], track: u8, found: usize, count: u8) -> usize
    requires in_bounds { 25 ≤ length out.old }
    requires found_bound { (found ≤ 21) × (count ≤ 21) }
    ensures { Put out.old 0 (head_line track found count) out.new result }
{
    let a = put_number(out, 0, b"track ", u64::from(track));
    let b = put_number(out, a, b" found ", found as u64);
    let c = put_number(out, b, b" of ", u64::from(count));
    page_text::put_bytes(out, c, b"\n")
}

// The line of a refused input.
fn put_refused(out: &mut [u8], why: Refusal) -> usize
    requires { 25 ≤ length out.old }
    ensures { Put out.old 0 (refusal_line (number_of why)) out.new result }
{
    let a = put_number(out, 0, b"refused ", u64::from(why.number()));
    page_text::put_bytes(out, a, b"\n")
}

// The line of a sector that was found.
fn put_line(out: &mut [u8], at: usize, sector: u8, sum: u8) -> usize
    requires at_in_bounds { at + 17 ≤ length out.old }
    requires sector_bound { sector < 100 }
    ensures { Put out.old at (sector_line sector sum) out.new result }
{
    let a = page_text::put_bytes(out, at, b"sector ");
    let b = page_text::put_two_digits(out, a, sector);
    let c = page_text::put_bytes(out, b, b" sum ");
    let d = page_text::put_hex(out, c, sum);
    page_text::put_bytes(out, d, b"\n")
}

// The line of a sector, where its status says that it was handed out.
fn put_sector(out: &mut [u8], at: usize, sector: u8, statuses: &[u8], payloads: &[u8]) -> usize
    requires at_in_bounds { at + 17 ≤ length out.old }
    requires sector_bound { sector < 100 }
    requires sector_in_bounds { (sector < length statuses.now) × (256 * sector + 256 ≤ length payloads.now) }
    ensures { Put out.old at (line_at statuses.now payloads.now sector) out.new result }
{
    let j = usize::from(sector);
    if statuses[j] != track_read::HANDED_OUT {
        return at;
    }
    let from = 256 * j;
    let end = from + 256;
    put_line(out, at, sector, base::xor_of(&payloads[from..end]))
}

// The lines of the first `count` sectors.
fn put_sectors(out: &mut [u8], at: usize, count: u8, statuses: &[u8], payloads: &[u8]) -> usize
    requires count_in_bounds { at + 17 * count ≤ length out.old }
    requires count_bound { (count ≤ 21) × (count ≤ length statuses.now) × (256 * count ≤ length payloads.now) }
    ensures { Put out.old at (lines count statuses.now payloads.now) out.new result }
{
    let mut behind = at;
    for sector in 0..count {
        behind = put_sector(out, behind, sector, statuses, payloads);
    }
    behind
}

// The lines of a track that was read: how many sectors were found, their statuses and payloads.
fn put_track(out: &mut [u8], track: u8, found: usize, statuses: &[u8], payloads: &[u8]) -> usize
    requires longest_listing_in_bounds { longest_listing ≤ length out.old }
    requires found_bound { (found ≤ 21) × (21 ≤ length statuses.now) × (5376 ≤ length payloads.now) }
    ensures { Put out.old 0
        (head_line track found (sectors_of track) ++ lines (sectors_of track) statuses.now payloads.now)
        out.new result }
{
    let count = geometry::sectors_per_track(track);
    let at = put_head(out, track, found, count);
    put_sectors(out, at, count, statuses, payloads)
}

// The lines of a ring.
fn put_ring(out: &mut [u8], ring: &[u8], track: u8, start: usize) -> usize
    requires longest_listing_in_bounds { longest_listing ≤ length out.old }
    requires ring_nonzero { (0 < length ring.now) × (length ring.now ≤ longest_listed) }
    ensures { Put out.old 0 (ring_lines ring.now track start) out.new result }
{
    let mut payloads = [0u8; 5376];
    let mut statuses = [0u8; 21];
    let answer = track_read::decode_track_from(ring, track, start, &mut payloads, &mut statuses);
    match answer {
        Ok(read) => put_track(out, track, read.found, &statuses, &payloads),
        // The input has a ring of a length that is read.
        Err(_) => unreachable!(),
    }
}

// The listing of an input.
fn put_listing(out: &mut [u8], input: &[u8]) -> usize
    requires { longest_listing ≤ length out.old }
    ensures { Put out.old 0 (listing input.now) out.new result }
{
    match open_envelope(input) {
        Ok(e) => put_ring(out, e.ring, e.track, e.start),
        Err(why) => put_refused(out, why),
    }
}

// What is printed for an input, and how many bytes it has: the sectors found on its ring, or the refusal. Room for the longest listing
// is needed, whatever it lists.
pub fn list_ring(input: &[u8], out: &mut [u8]) -> Result<usize, Refusal>
    ensures { (result ≡ listed input.now out.old)
        × (out.new ≡ out_after input.now out.old)
        × (refusal_number result ≡ out_refusal out.old) }
{
    if out.len() < LONGEST_LISTING {
        return Err(Refusal::NoRoom);
    }
    Ok(put_listing(out, input))
}
