// Rows carried out on two buffers, and the library asked about them, a line for each answer: compared with what the original
// answered (compare/README.md lists the rows). samples/make makes its images by them too.
#![tactic(auto)]

mod blocks;
mod buffers;
mod captures;
mod images;
mod rings;
mod rows;
mod says;
mod sectors;
mod tracks;

use rows::Row;
use sector::Rule;
use std::io;
use std::io::{Read, Write};

// Rows that ask about a part of the target and leave it as it is.
fn ask<W: Write>(out: &mut W, part: &[u8], row: Row) -> io::Result<()> {
    let letter = row.letter;
    match letter {
        b's' => tracks::scan(out, part, row),
        b'r' => tracks::read(out, part, row),
        b'u' => sectors::read(out, part, row, Rule::Unique),
        b'c' => sectors::read(out, part, row, Rule::Consistent),
        b'o' => captures::span(out, part, row),
        b'n' => captures::whole(out, part),
        b'w' => captures::one_slot(out, part, row),
        _ => Ok(()),
    }
}

// Rows about a part of the target.
fn turn_part<W: Write>(out: &mut W, part: &mut [u8], source: &[u8], row: Row) -> io::Result<()> {
    let letter = row.letter;
    match letter {
        b'Z' | b'I' | b'X' | b'G' => {
            rings::change(part, source, row);
            Ok(())
        }
        b'T' => {
            let _ = tracks::build(part, source, row);
            Ok(())
        }
        b'B' => tracks::build_and_tell(out, part, source, row),
        b'b' => blocks::encode(out, part, source, row),
        b'd' => blocks::decode(out, part, source, row),
        b'U' => sectors::replace(out, part, source, row, Rule::Unique),
        b'K' => sectors::replace(out, part, source, row, Rule::Consistent),
        b'e' => captures::encode(out, part, source, row),
        b'x' => images::clear(out, part, row),
        _ => ask(out, part, row),
    }
}

fn turn_target<W: Write>(
    out: &mut W,
    target: &mut [u8],
    source: &[u8],
    row: Row,
) -> io::Result<()> {
    let at = row.a as usize;
    let n = row.b as usize;
    if target.len() < at {
        return Ok(());
    }
    if target.len() - at < n {
        return Ok(());
    }
    let end = at + n;
    turn_part(out, &mut target[at..end], source, row)
}

// Row W.
fn write<W: Write>(out: &mut W, buf: &[u8], row: Row) -> io::Result<()> {
    says::words(out, rows::part(buf, row.a as usize, row.b as usize))
}

// Rows about the buffer that their last number names.
fn turn_buffer<W: Write>(out: &mut W, buf: &mut [u8], row: Row) -> io::Result<()> {
    if row.letter == b'W' {
        write(out, buf, row)
    } else {
        buffers::change(buf, row);
        Ok(())
    }
}

fn turn<W: Write>(out: &mut W, target: &mut [u8], source: &mut [u8], row: Row) -> io::Result<()> {
    let letter = row.letter;
    match letter {
        b'S' | b'F' | b'O' | b'P' | b'C' | b'W' => {
            if row.f == 0 {
                turn_buffer(out, target, row)
            } else {
                turn_buffer(out, source, row)
            }
        }
        b'Q' => {
            buffers::check_block(source, row.a as usize);
            Ok(())
        }
        _ => turn_target(out, target, source, row),
    }
}

// One row, or a heading, which is copied to the output; false where the input ends.
fn take_row<R: Read, W: Write>(
    input: &mut R,
    out: &mut W,
    target: &mut [u8],
    source: &mut [u8],
) -> io::Result<bool> {
    let mut bytes = [0u8; 56];
    if desk_io::fill(input, &mut bytes)? < 56 {
        return Ok(false);
    }
    if bytes[0] == b'#' {
        says::words(out, &bytes)?;
    } else {
        turn(out, target, source, rows::row_of(&bytes))?;
    }
    Ok(true)
}

// The rows in order. Nothing says that the input ends, so the loop has more turns than any file has rows.
fn run<R: Read, W: Write>(
    input: &mut R,
    out: &mut W,
    target: &mut [u8],
    source: &mut [u8],
) -> io::Result<()> {
    for _ in 0..u64::MAX {
        if !take_row(input, out, target, source)? {
            break;
        }
    }
    Ok(())
}

fn main(rt: HostRuntime) -> io::Result<()> {
    let mut target = desk_room::image();
    let mut source = desk_room::disk();
    run(&mut rt.stdin(), &mut rt.stdout(), &mut target, &mut source)
}
