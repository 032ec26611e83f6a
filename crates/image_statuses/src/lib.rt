// Which sectors of a track read, why the others do not, and its first bad symbol, in an image of any kind.
ghost use Rattle.std.specs.Prelude.{◌≡◌, ◌+◌, ◌<◌, ◌≤◌, length};
ghost use Rattle.base.specs.Answers.{answer};
ghost use Rattle.base.specs.Lists.{tab};
ghost use Rattle.geometry.specs.Zones.{sectors_of};
ghost use Rattle.image_rings.specs.Rings.{start_of, length_of};
ghost use Rattle.image_kind.specs.Kinds.{kind_of};
ghost use Rattle.image_statuses.specs.Statuses.{d64_status, d64_statuses, half_of, bytes_of, g64_ring};
ghost use Rattle.image_statuses.specs.Statuses.{statuses_by, statuses_of, statuses_number, statuses_after, is_shown};
ghost use Rattle.image_statuses.specs.Symbols.{symbol_by, symbol_of};

use base::Refusal;
use image_kind::Kind;
use image_rings::Span;
use scan::BadSymbol;

// The highest track that an image can have.
pub const HIGHEST_TRACK: u8 = 42;

// An error byte that spoils its sector is the sector's status.
fn d64_status(image: &[u8], highest: u8, track: u8, sector: u8) -> u8
    requires { highest ≤ 42 }
    ensures { result ≡ d64_status image.now highest track sector }
{
    let code = image_d64::error_byte(image, highest, track, sector);
    if track_build::spoils(code) {
        return code;
    }
    track_read::HANDED_OUT
}

// The statuses of a track that the image has.
fn put_d64_statuses(image: &[u8], highest: u8, track: u8, part: &mut [u8])
    requires { (highest ≤ 42) × (length part.old ≤ 21) }
    ensures { part.new ≡ tab (length part.old) (d64_status image.now highest track) }
{
    for (sector, status) in part.iter_mut().enumerate() {
        *status = d64_status(image, highest, track, sector as u8);
    }
}

// The statuses of a track of a D64 whose highest track is this, whatever its sectors begin with.
pub fn d64_statuses(image: &[u8], highest: u8, track: u8, part: &mut [u8])
    requires { (highest ≤ 42) × (length part.old ≡ sectors_of track) }
    ensures { part.new ≡ d64_statuses image.now highest track }
{
    if track <= highest {
        put_d64_statuses(image, highest, track, part);
        return;
    }
    part.fill(0);
}

fn half_of(track: u8) -> usize
    requires { (0 < track) × (track ≤ 42) }
    ensures { (result ≡ half_of track) × (result < 84) }
{
    2 * (usize::from(track) - 1)
}

// The bytes of a ring, none where it is absent.
fn bytes_of(image: &[u8], ring: Option<Span>) -> &[u8]
    requires { start_of ring + length_of ring ≤ length image.now }
    ensures { result.now ≡ bytes_of image.now ring }
{
    match ring {
        Some(span) => {
            let end = span.start + span.length;
            &image[span.start..end]
        }
        None => &image[0..0],
    }
}

// The ring of a half-track of a G64 image, empty where there is none.
fn g64_ring(image: &[u8], half: usize) -> &[u8]
    requires { half < 84 }
    ensures { result.now ≡ g64_ring image.now half }
{
    match image_g64::g64_table(image) {
        Ok(rings) => bytes_of(image, rings.half_track(half)),
        Err(_) => &image[0..0],
    }
}

fn statuses_by_kind(image: &[u8], track: u8, part: &mut [u8])
    requires { (0 < track) × (track ≤ 42) × (length part.old ≡ sectors_of track) }
    ensures { part.new ≡ statuses_by image.now track (kind_of image.now) }
{
    match image_kind::image_kind(image) {
        Kind::D64(highest) => d64_statuses(image, highest, track, part),
        Kind::G64 => track_read::ring_statuses(g64_ring(image, half_of(track)), track, part),
        Kind::Nib => track_read::ring_statuses(
            nib_slots::nib_ring(image, half_of(track)),
            track,
            part,
        ),
        Kind::Unknown => part.fill(0),
    }
}

fn put_statuses(image: &[u8], track: u8, part: &mut [u8])
    requires { length part.old ≡ sectors_of track }
    ensures { part.new ≡ statuses_of image.now track }
{
    if track == 0 || HIGHEST_TRACK < track {
        part.fill(0);
        return;
    }
    statuses_by_kind(image, track, part);
}

// The statuses of a track's sectors: 1 reads; 2 no header, 3 no sync, 4 no data block, 5 false data checksum, 9 false header checksum;
// 0 where the image has no such track. Refused where they do not fit.
pub fn track_statuses(image: &[u8], track: u8, statuses: &mut [u8]) -> Result<(), Refusal>
    ensures value { result ≡ answer (statuses_number track statuses.old) tt }
    ensures statuses_after { statuses.new ≡ statuses_after image.now track statuses.old }
{
    let count = usize::from(geometry::sectors_per_track(track));
    if statuses.len() < count {
        return Err(Refusal::NoRoom);
    }
    put_statuses(image, track, &mut statuses[0..count]);
    Ok(())
}

// Is a track with these statuses one to speak of? A disk has 35; one above only where the image has it.
pub fn is_shown(track: u8, statuses: &[u8]) -> bool
    ensures { result ≡ is_shown track statuses.now }
{
    track <= 35 || base::any_nonzero(statuses)
}

fn symbol_by_kind(image: &[u8], track: u8) -> Option<BadSymbol>
    requires { (0 < track) × (track ≤ 42) }
    ensures { result ≡ symbol_by image.now track (kind_of image.now) }
{
    match image_kind::image_kind(image) {
        Kind::D64(_) => None,
        Kind::G64 => scan_symbols::first_bad(g64_ring(image, half_of(track)), track, 0),
        Kind::Nib => scan_symbols::first_bad(nib_slots::nib_ring(image, half_of(track)), track, 0),
        Kind::Unknown => None,
    }
}

// The first bad symbol of a track's ring, read from bit 0 on; none where the image has no such ring.
pub fn track_symbol(image: &[u8], track: u8) -> Option<BadSymbol>
    ensures { result ≡ symbol_of image.now track }
{
    if track == 0 || HIGHEST_TRACK < track {
        return None;
    }
    symbol_by_kind(image, track)
}
