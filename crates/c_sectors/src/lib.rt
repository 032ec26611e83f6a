// The sectors of the library that C and Rust programs link, one at a time: each function answers 0 when it is done, or the refusal's
// number, and then nothing lent has changed. The names begin with the library's, since a name is the whole program's, as in C.
#![tactic(auto)]

ghost use Rattle.std.specs.Prelude.{◌≡◌};
ghost use Rattle.base.specs.Answers.{refusal_number};
ghost use Rattle.sector.specs.Rules.{read_unique, read_consistent};
ghost use Rattle.sector.specs.Replacing.{answer_of, replaced_unique, replaced_consistent};
ghost use Rattle.c_sectors.specs.Numbers.{sector_number, bytes_after};

use base::{Refusal, Sector};

// A sector that reads handed out, and 0; or the refusal's number.
fn hand_out(found: Sector, out: &mut [u8; 256]) -> u64
    ensures { (result ≡ sector_number found) × (out.new ≡ bytes_after out.old found) }
{
    if !found.ok {
        return u64::from(found.number);
    }
    // By a variable: a field that is an array is not stored straight.
    let bytes = found.bytes;
    *out = bytes;
    0
}

// A sector by the unique rule.
#[unsafe(no_mangle)]
pub extern "C" fn fielbmaru_read_unique(
    ring: &[u8],
    track: u8,
    sector: u8,
    out: &mut [u8; 256],
) -> u64
    ensures { (result ≡ sector_number (read_unique ring.now track sector).sector)
        × (out.new ≡ bytes_after out.old (read_unique ring.now track sector).sector) }
{
    let read = sector::decode_sector_unique(ring, track, sector);
    hand_out(read.sector, out)
}

// A sector by the consistent rule.
#[unsafe(no_mangle)]
pub extern "C" fn fielbmaru_read_consistent(
    ring: &[u8],
    track: u8,
    sector: u8,
    out: &mut [u8; 256],
) -> u64
    ensures { (result ≡ sector_number (read_consistent ring.now track sector).sector)
        × (out.new ≡ bytes_after out.old (read_consistent ring.now track sector).sector) }
{
    let read = sector::decode_sector_consistent(ring, track, sector);
    hand_out(read.sector, out)
}

// 0 where a sector is replaced; or the refusal's number.
fn number_of<T: Drop>(answer: Result<T, Refusal>) -> u64
    ensures { result ≡ refusal_number answer }
{
    u64::from(base::refusal_number(&answer))
}

// Replaces a sector by the unique rule.
#[unsafe(no_mangle)]
pub extern "C" fn fielbmaru_replace_unique(
    ring: &mut [u8],
    track: u8,
    sector: u8,
    data: &[u8; 256],
) -> u64
    ensures { (result ≡ refusal_number (answer_of (read_unique ring.old track sector)))
        × (ring.new ≡ replaced_unique track sector «data».now ring.old) }
{
    number_of(sector::replace_sector_data_unique(ring, track, sector, data))
}

// Replaces a sector by the consistent rule, each of its copies.
#[unsafe(no_mangle)]
pub extern "C" fn fielbmaru_replace_consistent(
    ring: &mut [u8],
    track: u8,
    sector: u8,
    data: &[u8; 256],
) -> u64
    ensures { (result ≡ refusal_number (answer_of (read_consistent ring.old track sector)))
        × (ring.new ≡ replaced_consistent track sector «data».now ring.old) }
{
    number_of(sector::replace_sector_data_consistent(ring, track, sector, data))
}
