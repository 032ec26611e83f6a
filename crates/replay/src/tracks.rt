// Tracks built, and rings scanned and read.
ghost use Rattle.std.specs.Prelude.{◌<◌, ◌≤◌};

use crate::rows::Row;
use crate::{rows, says};
use base::Refusal;
use replay_shared::sum;
use scan::Scanned;
use std::io;
use std::io::Write;
use track_read::TrackRead;

// Where the codes stand in the source.
const CODES: usize = 0x33000;

// The most records that a ring has.
const MOST_RECORDS: usize = 195;

// Row T.
pub fn build(room: &mut [u8], source: &[u8], row: Row) -> Result<usize, Refusal> {
    let payloads = rows::part(source, row.d as usize, row.e as usize);
    let codes = rows::part(source, CODES, row.f as usize);
    let number = (row.c / 65536 % 256) as u8;
    let id1 = (row.c / 256 % 256) as u8;
    let id2 = (row.c % 256) as u8;
    track_build::build_track_with_errors(number, payloads, codes, id1, id2, room)
}

// Row B.
pub fn build_and_tell<W: Write>(
    out: &mut W,
    room: &mut [u8],
    source: &[u8],
    row: Row,
) -> io::Result<()> {
    says::answered(out, b"built", build(room, source, row))?;
    says::sum_of(out, room)?;
    says::end(out)
}

fn start_of(row: Row) -> usize {
    row.d as usize * 4294967296 + row.e as usize
}

fn number_at(numbers: &[u64], at: usize) -> u64 {
    numbers.get(at).copied().unwrap_or(0)
}

// The checksum with record i more: its sector, its place, its payload.
fn mix_record(s: u32, numbers: &[u64], payloads: &[u8], i: usize) -> u32
    requires { i < 195 }
{
    let sector = sum::mix(s, (number_at(numbers, 2 * i) % 256) as u8);
    let place = sum::mix_number(sector, number_at(numbers, 2 * i + 1));
    sum::mix_all(place, rows::part(payloads, 256 * i, 256))
}

fn records_sum(numbers: &[u64], payloads: &[u8], n: usize) -> u32
    requires { n ≤ 195 }
{
    let mut s = sum::START;
    for i in 0..n {
        s = mix_record(s, numbers, payloads, i);
    }
    s
}

fn tell_records<W: Write>(
    out: &mut W,
    answer: Result<Scanned, Refusal>,
    numbers: &[u64],
    payloads: &[u8],
) -> io::Result<()> {
    match answer {
        Ok(scanned) => {
            says::number(out, b"records", scanned.records as u64)?;
            says::bad(out, scanned.bad)?;
            let rows = scanned.records.min(MOST_RECORDS);
            says::checksum(out, records_sum(numbers, payloads, rows))
        }
        Err(why) => says::refused(out, why),
    }
}

// As many rows are lent as the row says, with their payloads.
fn scan_into(
    ring: &[u8],
    row: Row,
    numbers: &mut [u64; 390],
    payloads: &mut [u8; 49920],
) -> Result<Scanned, Refusal> {
    let lent = (row.f as usize).min(MOST_RECORDS);
    let n = 2 * lent;
    let bytes = 256 * lent;
    scan::scan_sector_records(
        ring,
        (row.c % 256) as u8,
        start_of(row),
        &mut numbers[0..n],
        &mut payloads[0..bytes],
    )
}

// Row s.
pub fn scan<W: Write>(out: &mut W, ring: &[u8], row: Row) -> io::Result<()> {
    let mut numbers = [0u64; 390];
    let mut payloads = [0u8; 49920];
    let answer = scan_into(ring, row, &mut numbers, &mut payloads);
    tell_records(out, answer, &numbers, &payloads)?;
    says::end(out)
}

// A digit for each status.
fn tell_statuses<W: Write>(out: &mut W, statuses: &[u8]) -> io::Result<()> {
    for status in statuses {
        says::words(out, &[48 + *status % 10])?;
    }
    Ok(())
}

fn tell_track<W: Write>(
    out: &mut W,
    answer: Result<TrackRead, Refusal>,
    payloads: &[u8],
    statuses: &[u8],
) -> io::Result<()> {
    match answer {
        Ok(read) => {
            says::number(out, b"found", read.found as u64)?;
            says::words(out, b" status ")?;
            tell_statuses(out, statuses)?;
            says::bad(out, read.bad)?;
            says::sum_of(out, payloads)
        }
        Err(why) => says::refused(out, why),
    }
}

// Row r.
pub fn read<W: Write>(out: &mut W, ring: &[u8], row: Row) -> io::Result<()> {
    let mut payloads = [0u8; 5376];
    let mut statuses = [0u8; 21];
    let track = (row.c % 256) as u8;
    let answer = track_read::decode_track_from(
        ring,
        track,
        start_of(row),
        &mut payloads,
        &mut statuses,
    );
    let count = geometry::sectors_per_track(track) as usize;
    tell_track(
        out,
        answer,
        rows::part(&payloads, 0, 256 * count),
        rows::part(&statuses, 0, count),
    )?;
    says::end(out)
}
