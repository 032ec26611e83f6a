// Orbits found in captures, NIB files read and made.
ghost use Rattle.std.specs.Prelude.{◌≤◌, length};

use crate::rows::Row;
use crate::{rows, says};
use replay_shared::sum;
use std::io;
use std::io::Write;

// Where lengths, of four bytes each, and zones stand in the source.
const LENGTHS: usize = 0x33400;

const ZONES: usize = 0x33800;

// Row o.
pub fn span<W: Write>(out: &mut W, window: &[u8], row: Row) -> io::Result<()> {
    let ring = nib_orbit::recover_orbit(window, (row.c % 256) as u8);
    says::number(out, b"span", ring.len() as u64)?;
    says::end(out)
}

#[derive(Clone, Copy)]
struct Slots {
    present: u64,
    total: u32,
}

// The checksum with a slot more: its zone, its length, its ring.
fn mix_slot(so_far: Slots, file: &[u8], slot: usize) -> Slots {
    let zone = nib_slots::nib_zone(file, slot);
    let ring = nib_slots::nib_ring(file, slot);
    let z = zone.unwrap_or(0);
    let here = if ring.len() == 0 { 0 } else { 1 };
    Slots {
        present: std::num::wrapping_add_u64(so_far.present, here),
        total: sum::mix_all(
            sum::mix_number(sum::mix(so_far.total, z), ring.len() as u64),
            ring,
        ),
    }
}

fn all_slots(file: &[u8]) -> Slots {
    let mut slots = Slots {
        present: 0,
        total: sum::START,
    };
    for slot in 0..84usize {
        slots = mix_slot(slots, file, slot);
    }
    slots
}

fn tell_slots<W: Write>(out: &mut W, file: &[u8]) -> io::Result<()> {
    let zone = nib_slots::nib_zone(file, 0);
    match zone {
        Err(why) => says::refused(out, why),
        Ok(_) => {
            let slots = all_slots(file);
            says::number(out, b"slots", slots.present)?;
            says::checksum(out, slots.total)
        }
    }
}

// Row n.
pub fn whole<W: Write>(out: &mut W, file: &[u8]) -> io::Result<()> {
    tell_slots(out, file)?;
    says::end(out)
}

fn tell_slot<W: Write>(out: &mut W, file: &[u8], slot: usize) -> io::Result<()> {
    let zone = nib_slots::nib_zone(file, slot);
    match zone {
        Err(why) => says::refused(out, why),
        Ok(z) => {
            let ring = nib_slots::nib_ring(file, slot);
            says::number(out, b"zone", z as u64)?;
            says::number(out, b" length", ring.len() as u64)?;
            says::sum_of(out, ring)
        }
    }
}

// Row w.
pub fn one_slot<W: Write>(out: &mut W, file: &[u8], row: Row) -> io::Result<()> {
    tell_slot(out, file, row.c as usize)?;
    says::end(out)
}

// A length of four bytes; 0 where there are not so many.
fn length_of(part: &[u8]) -> u64 {
    if part.len() != 4 {
        return 0;
    }
    base::read_long(part, 0) as u64
}

fn read_lengths(lengths: &mut [u64], source: &[u8])
    requires { length lengths.old ≤ 100 }
{
    for (i, length) in lengths.iter_mut().enumerate() {
        *length = length_of(rows::part(source, LENGTHS + 4 * i, 4));
    }
}

fn encode_into<W: Write>(
    out: &mut W,
    room: &mut [u8],
    source: &[u8],
    row: Row,
    lengths: &[u64],
) -> io::Result<()> {
    let zones = rows::part(source, ZONES, row.f as usize);
    let rings = rows::part(source, row.c as usize, row.d as usize);
    says::answered(
        out,
        b"encoded",
        nib_write::encode_nib(lengths, zones, rings, room),
    )?;
    says::sum_of(out, room)?;
    says::end(out)
}

fn encode_with<W: Write>(
    out: &mut W,
    room: &mut [u8],
    source: &[u8],
    row: Row,
    lengths: &mut [u64],
) -> io::Result<()> {
    let count = row.e as usize;
    if 100 < count {
        return Ok(());
    }
    if lengths.len() < count {
        return Ok(());
    }
    read_lengths(&mut lengths[0..count], source);
    encode_into(out, room, source, row, &lengths[0..count])
}

// Row e.
pub fn encode<W: Write>(out: &mut W, room: &mut [u8], source: &[u8], row: Row) -> io::Result<()> {
    let mut lengths = [0u64; 100];
    encode_with(out, room, source, row, &mut lengths)
}
