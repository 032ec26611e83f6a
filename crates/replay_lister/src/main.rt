// The ring lister on inputs made here, each listing under a name. What it must write comes from the rules of docs/RULES.md by
// compare/lister-lines, not from this program.
#![tactic(auto)]

use std::io;
use std::io::Write;

// The longest input, and one byte more.
const ROOM: usize = 8203;

fn show<W: Write>(out: &mut W, name: &[u8], input: &[u8]) -> io::Result<()> {
    out.write_all(name)?;
    out.write_all(b"\n")?;
    let mut listing = [0u8; lister::LONGEST_LISTING];
    let answer = lister::list_ring(input, &mut listing);
    match answer {
        Ok(n) => out.write_all(page::so_far(&listing, n)),
        Err(_) => out.write_all(b"no room\n"),
    }
}

fn show_first<W: Write>(out: &mut W, name: &[u8], input: &[u8], n: usize) -> io::Result<()> {
    if n <= input.len() {
        return show(out, name, &input[0..n]);
    }
    Ok(())
}

// The ten bytes before a ring.
#[derive(Clone, Copy)]
struct Front {
    letter: u8,
    version: u16,
    track: u8,
    start: u32,
}

fn of_track(track: u8, start: u32) -> Front {
    Front {
        letter: b'K',
        version: 1,
        track,
        start,
    }
}

fn bytes_of(h: Front) -> [u8; 10] {
    [
        b'T',
        b'R',
        h.letter,
        (h.version % 256) as u8,
        (h.version / 256) as u8,
        h.track,
        (h.start % 256) as u8,
        (h.start / 256 % 256) as u8,
        (h.start / 65536 % 256) as u8,
        (h.start / 16777216) as u8,
    ]
}

fn put_front(input: &mut [u8], h: Front) {
    let bytes = bytes_of(h);
    if 10 <= input.len() {
        page_text::put_bytes(input, 0, &bytes);
    }
}

// An input of n bytes whose ring is all gap.
fn show_gap<W: Write>(out: &mut W, name: &[u8], h: Front, n: usize) -> io::Result<()> {
    let mut input = [0x55u8; ROOM];
    put_front(&mut input, h);
    show_first(out, name, &input, n)
}

// A built track with a header before it; how long that is.
fn put_track(input: &mut [u8], h: Front, payloads: &[u8], codes: &[u8]) -> usize {
    put_front(input, h);
    if input.len() < 10 {
        return 0;
    }
    let built = track_build::build_track_with_errors(
        h.track,
        payloads,
        codes,
        0x41,
        0x30,
        &mut input[10..],
    );
    let Ok(n) = built else {
        return 0;
    };
    if n <= 8192 { n + 10 } else { 0 }
}

fn show_track<W: Write>(
    out: &mut W,
    name: &[u8],
    h: Front,
    payloads: &[u8],
    codes: &[u8],
) -> io::Result<()> {
    let mut input = [0u8; ROOM];
    let n = put_track(&mut input, h, payloads, codes);
    show_first(out, name, &input, n)
}

// The payload of sector j: byte 0 is 11 j + 5, byte 255 is F0, all others stay zeros.
fn put_payload(payloads: &mut [u8], j: u8) {
    if j < 21 {
        let at = 256 * j as usize;
        if at + 255 < payloads.len() {
            payloads[at] = 11 * j + 5;
            payloads[at + 255] = 0xF0;
        }
    }
}

fn put_payloads(payloads: &mut [u8]) {
    for j in 0..21 {
        put_payload(payloads, j);
    }
}

// The first slot of one input behind that of another.
fn put_slot(input: &mut [u8], other: &[u8]) {
    if 746 <= input.len() && 378 <= other.len() {
        page_text::put_bytes(input, 378, &other[10..378]);
    }
}

// A ring of two slots, both sector 0 of track 31, 368 bytes each; the second is zeros.
fn show_copies<W: Write>(out: &mut W, name: &[u8], start: u32, payloads: &[u8]) -> io::Result<()> {
    let mut input = [0u8; ROOM];
    let mut other = [0u8; ROOM];
    put_track(&mut input, of_track(31, start), payloads, b"");
    put_track(&mut other, of_track(31, start), b"", b"");
    put_slot(&mut input, &other);
    show_first(out, name, &input, 746)
}

fn of_version(version: u16) -> Front {
    let mut h = of_track(31, 0);
    h.version = version;
    h
}

fn of_letter(letter: u8) -> Front {
    let mut h = of_track(31, 0);
    h.letter = letter;
    h
}

fn refusals<W: Write>(out: &mut W) -> io::Result<()> {
    show_gap(out, b"empty", of_track(31, 0), 0)?;
    show_gap(out, b"nine bytes", of_track(31, 0), 9)?;
    show_gap(out, b"other letter", of_letter(b'k'), 12)?;
    show_gap(out, b"version 2", of_version(2), 12)?;
    show_gap(out, b"version 256", of_version(256), 12)?;
    show_gap(out, b"version 257", of_version(257), 12)?;
    show_gap(out, b"version 257, no ring", of_version(257), 10)?;
    show_gap(out, b"version 2, ring of 8193", of_version(2), 8203)?;
    show_gap(out, b"no ring", of_track(31, 0), 10)?;
    show_gap(out, b"ring of 8193", of_track(31, 0), 8203)
}

fn gaps<W: Write>(out: &mut W) -> io::Result<()> {
    show_gap(out, b"ring of 2", of_track(31, 0), 12)?;
    show_gap(out, b"ring of 1, track 0", of_track(0, 7), 11)?;
    show_gap(
        out,
        b"ring of 8192, track 255",
        of_track(255, 4294967295),
        8202,
    )
}

// All sectors zero, a track of each zone.
fn zeros<W: Write>(out: &mut W, start: u32) -> io::Result<()> {
    show_track(out, b"zeros, track 1", of_track(1, start), b"", b"")?;
    show_track(out, b"zeros, track 18", of_track(18, start), b"", b"")?;
    show_track(out, b"zeros, track 25", of_track(25, start), b"", b"")?;
    show_track(out, b"zeros, track 31", of_track(31, start), b"", b"")
}

fn others<W: Write>(out: &mut W, payloads: &[u8]) -> io::Result<()> {
    show_track(
        out,
        b"payloads, track 17",
        of_track(17, 30000),
        payloads,
        b"",
    )?;
    show_track(
        out,
        b"codes, track 24",
        of_track(24, 0),
        payloads,
        b"\x01\x02\x03\x04\x05\x09\x0B\x06\x00\xFF",
    )?;
    show_copies(out, b"two copies", 0, payloads)?;
    show_copies(out, b"two copies, from the second", 5890944, payloads)
}

fn main(rt: HostRuntime) -> io::Result<()> {
    let mut out = rt.stdout();
    refusals(&mut out)?;
    gaps(&mut out)?;
    zeros(&mut out, 0)?;
    zeros(&mut out, 4294967295)?;
    let mut payloads = [0u8; 5376];
    put_payloads(&mut payloads);
    others(&mut out, &payloads)
}
