// Demand 3: its statement (specs/Demand3) and its proof (proofs/); and demand 3 of the code, a track built, a stretch of it
// forced to zero, and read from a bit (specs/Survival).
ghost use Rattle.theorem_dropout.specs.Survival.{dropout_of, ReadAfterDropout};

use base::Refusal;
use track_read::TrackRead;

// The track is built in front of `ring`, `length` bits of it from bit `place` on are forced to zero, and it is read from
// bit `start` on into `out` and `statuses`.
pub fn read_after_dropout(
    track: u8,
    payloads: &[u8],
    codes: &[u8],
    id1: u8,
    id2: u8,
    place: usize,
    length: usize,
    start: usize,
    ring: &mut [u8],
    out: &mut [u8],
    statuses: &mut [u8],
) -> Result<TrackRead, Refusal>
    ensures { ReadAfterDropout
        (dropout_of track payloads.now codes.now id1 id2 place «length» start)
        ring.old out.old statuses.old
        ring.new out.new statuses.new result }
{
    if payloads.len() % 256 != 0 {
        return Err(Refusal::WrongSum);
    }
    let capacity = geometry::track_capacity(track);
    if ring.len() < capacity {
        return Err(Refusal::NoRoom);
    }
    let count = geometry::sectors_per_track(track) as usize;
    if out.len() < 256 * count {
        return Err(Refusal::NoRoom);
    }
    if statuses.len() < count {
        return Err(Refusal::NoRoom);
    }
    let part = &mut ring[0..capacity];
    track_build::build_track_with_errors(track, payloads, codes, id1, id2, part)?;
    ring::force_zero(part, place, length)?;
    track_read::decode_track_from(part, track, start, out, statuses)
}
