// Reading a track: each sector by its first record.
#![tactic(auto)]

ghost use Rattle.std.specs.Prelude.{◌≡◌, ◌*◌, ◌≤◌, map, length};
ghost use Rattle.std.proofs.lemmas.List.Edits.{sets};
ghost use Rattle.geometry.specs.Zones.{sectors_of};
ghost use Rattle.ring.specs.Bit.{IsRing};
ghost use Rattle.track_read.specs.Answers.{track_read, track_payloads, track_statuses, ring_statuses};
ghost use Rattle.track_read.specs.Inside.{byte_of, weight_of, status_by, said_met, weigh, Heard, ReadInto};

use base::Refusal;
use scan::BadSymbol;
use scan_visit::{DataAt, HeaderAt, Visited};

// What reading a track answers: how many sectors were found, and the first bad symbol that was met.
#[derive(Clone, Copy, Debug, PartialEq, Eq)]
pub struct TrackRead {
    pub found: usize,
    pub bad: Option<BadSymbol>,
}

// A sector's status: handed out, or why it is missing.
pub const HANDED_OUT: u8 = 1;

pub const NO_HEADER: u8 = 2;

pub const NO_SYNC: u8 = 3;

pub const NO_DATA: u8 = 4;

pub const FALSE_DATA: u8 = 5;

pub const FALSE_HEADER: u8 = 9;

// The most sectors of a track.
const MOST_SECTORS: usize = 21;

// A sector's status by what visits say of it. Where no visit is made, it is `NO_SYNC` for all sectors.
#[derive(Clone, Copy, Debug, PartialEq, Eq)]
enum Status {
    HandedOut,
    NoHeader,
    NoData,
    FalseData,
    FalseHeader,
}

impl Status {
    // As a status list has it.
    fn byte(self) -> u8
        ensures { result ≡ byte_of self }
    {
        match self {
            Status::HandedOut => HANDED_OUT,
            Status::NoHeader => NO_HEADER,
            Status::NoData => NO_DATA,
            Status::FalseData => FALSE_DATA,
            Status::FalseHeader => FALSE_HEADER,
        }
    }

    // What it weighs against what else is said of the sector.
    fn weight(self) -> u8
        ensures { result ≡ weight_of self }
    {
        match self {
            Status::HandedOut => 3,
            Status::NoData | Status::FalseData => 2,
            Status::FalseHeader => 1,
            Status::NoHeader => 0,
        }
    }

    // The status after one saying more: the weightier, and of two that weigh the same the first.
    fn weighed(self, new: Status) -> Status
        ensures { byte_of result ≡ weigh (byte_of self) (byte_of new) }
    {
        if self.weight() < new.weight() {
            new
        } else {
            self
        }
    }
}

// What a visit says of a sector: of which, and what.
#[derive(Clone, Copy, Debug, PartialEq, Eq)]
struct Saying {
    sector: usize,
    status: Status,
}

// What the data search of a true header says of its sector.
fn status_by(verdict: DataAt) -> Status
    ensures { result ≡ status_by verdict }
{
    match verdict {
        DataAt::WrongSum(_) => Status::FalseData,
        DataAt::Good(_) => Status::HandedOut,
        _ => Status::NoData,
    }
}

// What a visit says of a sector, if it says something.
fn said_by(met: Visited) -> Option<Saying>
    ensures { result ≡ said_met met.header met.«data» }
{
    let (sector, status) = match met.header {
        HeaderAt::FalseSum(sector) => (sector, Status::FalseHeader),
        HeaderAt::Sector(sector, _, _) => (sector, status_by(met.data)),
        _ => return None,
    };
    Some(Saying {
        sector: usize::from(sector),
        status,
    })
}

// A saying heard, where the track has its sector: the status weighed, and the payload handed out unless the sector has been. Is it
// handed out now?
fn hear(payloads: &mut [u8], statuses: &mut [Status], said: Saying, payload: &[u8; 256]) -> bool
    requires { 256 * length statuses.old ≤ length payloads.old }
    ensures { Heard (length statuses.old) said payload.now payloads.old (map byte_of statuses.old) payloads.new
        (map byte_of statuses.new) result }
{
    let sector = said.sector;
    if statuses.len() <= sector {
        return false;
    }
    let stood = statuses[sector];
    statuses[sector] = stood.weighed(said.status);
    if said.status != Status::HandedOut {
        return false;
    }
    if stood == Status::HandedOut {
        return false;
    }
    base::store(payloads, 256 * sector, payload);
    true
}

// Statuses in front of a status list.
fn put_statuses(list: &mut [u8], statuses: &[Status])
    requires { length statuses.now ≤ length list.old }
    ensures { list.new ≡ sets list.old 0 (map byte_of statuses.now) }
{
    for (i, status) in statuses.iter().enumerate() {
        list[i] = status.byte();
    }
}

// The first record of each sector handed out, and of the others why they are missing; the answer is how many sectors have one, and the
// first bad symbol.
fn read_visits(
    ring: &[u8],
    track: u8,
    start_bit: usize,
    payloads: &mut [u8],
    statuses: &mut [u8],
) -> TrackRead
    requires ring { IsRing ring.now }
    requires track_in_bounds { (256 * sectors_of track ≤ length payloads.old) × (sectors_of track ≤ length statuses.old) }
    ensures { ReadInto ring.now track start_bit payloads.old statuses.old
        payloads.new statuses.new result }
{
    let count = usize::from(geometry::sectors_per_track(track));
    base::fill(payloads, 0, 256 * count, 0);
    let mut room = [Status::NoHeader; MOST_SECTORS];
    let standing = &mut room[0..count];
    let bits = 8 * ring.len();
    let start = start_bit % bits;
    let end = start + bits;
    let mut payload = [0u8; 256];
    let mut bit = start;
    let mut found: usize = 0;
    let mut bad = None;
    while let Some(visit) = scan::next_visit(ring, track, end, bit, &mut payload) {
        bad = bad.or(scan::bad_in(visit.met, visit.place, bits));
        bit = scan::next_bit(visit.place, visit.met.data);
        if let Some(said) = said_by(visit.met) {
            found += usize::from(hear(payloads, standing, said, &payload));
        }
    }
    if bit == start {
        // No visit was made.
        base::fill(statuses, 0, count, NO_SYNC);
    } else {
        put_statuses(statuses, standing);
    }
    TrackRead { found, bad }
}

// The payloads of a track's sectors, each by its first record, and the status list beside them: 1 for a sector handed
// out, and for one that is missing zeros and why.
pub fn decode_track_from(
    ring: &[u8],
    track: u8,
    start_bit: usize,
    payloads: &mut [u8],
    statuses: &mut [u8],
) -> Result<TrackRead, Refusal>
    ensures { (result ≡ track_read ring.now track start_bit payloads.old statuses.old)
        × (payloads.new ≡ track_payloads ring.now track start_bit payloads.old statuses.old)
        × (statuses.new ≡ track_statuses ring.now track start_bit payloads.old statuses.old) }
{
    let count = usize::from(geometry::sectors_per_track(track));
    if payloads.len() < 256 * count {
        return Err(Refusal::NoRoom);
    }
    if statuses.len() < count {
        return Err(Refusal::NoRoom);
    }
    ring::check(ring.len())?;
    Ok(read_visits(ring, track, start_bit, payloads, statuses))
}

// The statuses of a ring's sectors. A ring that cannot be read is refused, which leaves the zeros.
pub fn ring_statuses(ring: &[u8], track: u8, part: &mut [u8])
    requires { length part.old ≡ sectors_of track }
    ensures { part.new ≡ ring_statuses ring.now track }
{
    let mut payloads = [0u8; 5376];
    let count = part.len();
    base::fill(part, 0, count, 0);
    let _ = decode_track_from(ring, track, 0, &mut payloads, part);
}
