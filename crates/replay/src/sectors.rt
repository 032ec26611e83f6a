// Sectors of a ring read and replaced, by the unique rule or by the consistent one.
use crate::rows::Row;
use crate::{rows, says};
use base::Refusal;
use scan::BadSymbol;
use sector::{Rule, SectorRead};
use std::io;
use std::io::Write;

fn decoded(ring: &[u8], track: u8, sector: u8, rule: Rule) -> SectorRead {
    match rule {
        Rule::Unique => sector::decode_sector_unique(ring, track, sector),
        Rule::Consistent => sector::decode_sector_consistent(ring, track, sector),
    }
}

fn tell_sector<W: Write>(out: &mut W, answer: SectorRead) -> io::Result<()> {
    let found = answer.sector;
    if !found.ok {
        return says::refused_by(out, found.number);
    }
    let bytes = found.bytes;
    let met = answer.bad;
    says::words(out, b"sector")?;
    says::bad(out, met)?;
    says::sum_of(out, &bytes)
}

// Rows u and c.
pub fn read<W: Write>(out: &mut W, ring: &[u8], row: Row, rule: Rule) -> io::Result<()> {
    tell_sector(
        out,
        decoded(ring, (row.c % 256) as u8, (row.d % 256) as u8, rule),
    )?;
    says::end(out)
}

fn replaced(
    ring: &mut [u8],
    track: u8,
    sector: u8,
    bytes: &[u8; 256],
    rule: Rule,
) -> Result<Option<BadSymbol>, Refusal> {
    match rule {
        Rule::Unique => sector::replace_sector_data_unique(ring, track, sector, bytes),
        Rule::Consistent => sector::replace_sector_data_consistent(ring, track, sector, bytes),
    }
}

fn tell_replaced<W: Write>(
    out: &mut W,
    answer: Result<Option<BadSymbol>, Refusal>,
) -> io::Result<()> {
    match answer {
        Ok(met) => {
            says::words(out, b"written")?;
            says::bad(out, met)
        }
        Err(why) => says::refused(out, why),
    }
}

fn replace_by<W: Write>(
    out: &mut W,
    ring: &mut [u8],
    row: Row,
    bytes: &[u8; 256],
    rule: Rule,
) -> io::Result<()> {
    let track = (row.c % 256) as u8;
    let sector = (row.d % 256) as u8;
    tell_replaced(out, replaced(ring, track, sector, bytes, rule))?;
    says::sum_of(out, ring)?;
    says::end(out)
}

// Rows U and K.
pub fn replace<W: Write>(
    out: &mut W,
    ring: &mut [u8],
    source: &[u8],
    row: Row,
    rule: Rule,
) -> io::Result<()> {
    let part = rows::part(source, row.e as usize, 256);
    if part.len() != 256 {
        return Ok(());
    }
    let bytes = base::copy_block(part);
    replace_by(out, ring, row, &bytes, rule)
}
