// The tracks of the library that C and Rust programs link: each function answers 0 when it is done, or the refusal's number, and then
// nothing lent has changed. The names begin with the library's, since a name is the whole program's, as in C.
#![tactic(auto)]

ghost use Rattle.std.specs.Prelude.{◌≡◌};
ghost use Rattle.base.specs.Answers.{refusal_number};
ghost use Rattle.track_build.specs.Answers.{built, out_after as track_after};
ghost use Rattle.scan.specs.Answers.{scanned, rows_after, payloads_after};
ghost use Rattle.track_read.specs.Answers.{track_read, track_payloads, track_statuses};
ghost use Rattle.scan_rows.specs.Answers.{scanned_into, rows_after as records_after};
ghost use Rattle.c_tracks.specs.Numbers.{count_after, bad_after, found_after, bad_found};
ghost use Rattle.c_tracks.specs.Numbers.{bad_block as block_of_bad, bad_index, bad_bit as bit_of_bad};

use base::Refusal;
use scan::{BadSymbol, SectorRecord};

// 0 where a function is done; or the refusal's number.
fn number_of<T: Drop>(answer: &Result<T, Refusal>) -> u64
    ensures { result ≡ refusal_number answer.now }
{
    u64::from(base::refusal_number(answer))
}

// A track of these payloads, 256 bytes a sector, with what the codes change.
#[unsafe(no_mangle)]
pub extern "C" fn fielbmaru_build_track(
    track: u8,
    payloads: &[u8],
    codes: &[u8],
    id1: u8,
    id2: u8,
    out: &mut [u8],
) -> u64
    ensures { (result ≡ refusal_number (built track payloads.now out.old))
        × (out.new ≡ track_after track payloads.now codes.now id1 id2 out.old) }
{
    number_of(&track_build::build_track_with_errors(track, payloads, codes, id1, id2, out))
}

// How many were found, and the first bad symbol as three numbers.
fn tell(
    found: usize,
    bad: Option<BadSymbol>,
    count: &mut u64,
    block: &mut u64,
    symbol: &mut u64,
    bit: &mut u64,
)
    ensures { (count.new ≡ found) × (block.new ≡ block_of_bad bad) × (symbol.new ≡ bad_index bad) × (bit.new ≡ bit_of_bad bad) }
{
    *count = found as u64;
    match bad {
        None => {
            *block = 0;
            *symbol = 0;
            *bit = 0;
        }
        Some(BadSymbol::InHeader(k, at)) => {
            *block = 1;
            *symbol = k as u64;
            *bit = at as u64;
        }
        Some(BadSymbol::InData(k, at)) => {
            *block = 2;
            *symbol = k as u64;
            *bit = at as u64;
        }
    }
}

// The sector records of a ring, one revolution from a start bit on: two numbers a row, sector and data place, and 256 payload bytes.
#[unsafe(no_mangle)]
pub extern "C" fn fielbmaru_scan(
    ring: &[u8],
    track: u8,
    start_bit: u64,
    rows: &mut [u64],
    payloads: &mut [u8],
    count: &mut u64,
    bad_block: &mut u64,
    bad_symbol: &mut u64,
    bad_bit: &mut u64,
) -> u64
    ensures value { (result ≡ refusal_number (scanned ring.now track start_bit rows.old payloads.old))
        × (count.new ≡ count_after count.old
        (scanned ring.now track start_bit rows.old payloads.old)) }
    ensures rows_after { (rows.new ≡ rows_after ring.now track start_bit rows.old payloads.old)
        × (payloads.new ≡ payloads_after ring.now track start_bit rows.old payloads.old) }
    ensures bad_block_after { (bad_block.new ≡ bad_after block_of_bad bad_block.old
        (scanned ring.now track start_bit rows.old payloads.old))
        × (bad_symbol.new ≡ bad_after bad_index bad_symbol.old
        (scanned ring.now track start_bit rows.old payloads.old))
        × (bad_bit.new ≡ bad_after bit_of_bad bad_bit.old
        (scanned ring.now track start_bit rows.old payloads.old)) }
{
    let answer = scan::scan_sector_records(ring, track, start_bit as usize, rows, payloads);
    if let Ok(found) = answer {
        tell(
            found.records,
            found.bad,
            count,
            bad_block,
            bad_symbol,
            bad_bit,
        );
    }
    number_of(&answer)
}

// The same in a lent list of records: `struct fielbmaru_record` in C.
#[unsafe(no_mangle)]
pub extern "C" fn fielbmaru_scan_records(
    ring: &[u8],
    track: u8,
    start_bit: u64,
    records: &mut [SectorRecord],
    count: &mut u64,
    bad_block: &mut u64,
    bad_symbol: &mut u64,
    bad_bit: &mut u64,
) -> u64
    ensures { (result ≡ refusal_number (scanned_into ring.now track start_bit records.old))
        × (count.new ≡ count_after count.old
        (scanned_into ring.now track start_bit records.old))
        × (records.new ≡ records_after ring.now track start_bit records.old)
        × (bad_block.new ≡ bad_after block_of_bad bad_block.old
        (scanned_into ring.now track start_bit records.old))
        × (bad_symbol.new ≡ bad_after bad_index bad_symbol.old
        (scanned_into ring.now track start_bit records.old))
        × (bad_bit.new ≡ bad_after bit_of_bad bad_bit.old
        (scanned_into ring.now track start_bit records.old)) }
{
    let answer = scan_rows::scan_into_rows(ring, track, start_bit as usize, records);
    if let Ok(found) = answer {
        tell(
            found.records,
            found.bad,
            count,
            bad_block,
            bad_symbol,
            bad_bit,
        );
    }
    number_of(&answer)
}

// The payloads of a track's sectors, each by its first record, and their statuses.
#[unsafe(no_mangle)]
pub extern "C" fn fielbmaru_decode_track(
    ring: &[u8],
    track: u8,
    start_bit: u64,
    payloads: &mut [u8],
    statuses: &mut [u8],
    found: &mut u64,
    bad_block: &mut u64,
    bad_symbol: &mut u64,
    bad_bit: &mut u64,
) -> u64
    ensures value { (result ≡ refusal_number (track_read ring.now track start_bit payloads.old statuses.old))
        × (found.new ≡ found_after found.old
        (track_read ring.now track start_bit payloads.old statuses.old)) }
    ensures payloads_after { (payloads.new
        ≡ track_payloads ring.now track start_bit payloads.old statuses.old)
        × (statuses.new ≡ track_statuses ring.now track start_bit payloads.old statuses.old) }
    ensures bad_block_after { (bad_block.new ≡ bad_found block_of_bad bad_block.old
        (track_read ring.now track start_bit payloads.old statuses.old))
        × (bad_symbol.new ≡ bad_found bad_index bad_symbol.old
        (track_read ring.now track start_bit payloads.old statuses.old))
        × (bad_bit.new ≡ bad_found bit_of_bad bad_bit.old
        (track_read ring.now track start_bit payloads.old statuses.old)) }
{
    let answer = track_read::decode_track_from(ring, track, start_bit as usize, payloads, statuses);
    if let Ok(read) = answer {
        tell(read.found, read.bad, found, bad_block, bad_symbol, bad_bit);
    }
    number_of(&answer)
}
