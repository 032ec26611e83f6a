// Rows that change a buffer's bytes. One that does not fit changes nothing.
ghost use Rattle.std.specs.Prelude.{◌+◌, ◌≤◌, length};

use crate::rows::Row;
use replay_shared::draw;

// Row S.
fn set_all(part: &mut [u8], byte: u8) {
    let n = part.len();
    base::fill(part, 0, n, byte);
}

// Row F.
fn fill(part: &mut [u8], seed: u32) {
    draw::fill(part, seed);
}

// Row O.
fn or_all(part: &mut [u8], seed: u32) {
    let mut state = seed;
    for byte in part.iter_mut() {
        state = draw::step(state);
        *byte |= draw::byte_of(state);
    }
}

// The bytes of two numbers, the highest first.
fn eight_bytes(high: u32, low: u32) -> [u8; 8] {
    [
        (high / 16777216) as u8,
        (high / 65536 % 256) as u8,
        (high / 256 % 256) as u8,
        (high % 256) as u8,
        (low / 16777216) as u8,
        (low / 65536 % 256) as u8,
        (low / 256 % 256) as u8,
        (low % 256) as u8,
    ]
}

// Row P.
fn put(part: &mut [u8], high: u32, low: u32) {
    let n = part.len();
    if 8 < n {
        return;
    }
    let bytes = eight_bytes(high, low);
    base::store(part, 0, &bytes[0..n]);
}

fn change_part(part: &mut [u8], row: Row) {
    let letter = row.letter;
    match letter {
        b'S' => set_all(part, (row.c % 256) as u8),
        b'F' => fill(part, row.c),
        b'O' => or_all(part, row.c),
        b'P' => put(part, row.c, row.d),
        _ => {}
    }
}

// In ascending order, so that an overlap repeats.
fn copy_up(buf: &mut [u8], at: usize, n: usize, from: usize)
    requires n_in_bounds { at + n ≤ length buf.old }
    requires n_in_bounds_2 { from + n ≤ length buf.old }
{
    for k in 0..n {
        buf[at + k] = buf[from + k];
    }
}

// Row C.
fn copy(buf: &mut [u8], at: usize, n: usize, from: usize) {
    if buf.len() < n {
        return;
    }
    if buf.len() - n < at {
        return;
    }
    if buf.len() - n < from {
        return;
    }
    copy_up(buf, at, n, from);
}

// A row S, F, O, P or C on the buffer that it names.
pub fn change(buf: &mut [u8], row: Row) {
    let at = row.a as usize;
    let n = row.b as usize;
    if row.letter == b'C' {
        copy(buf, at, n, row.c as usize);
        return;
    }
    if buf.len() < at {
        return;
    }
    if buf.len() - at < n {
        return;
    }
    let end = at + n;
    change_part(&mut buf[at..end], row);
}

// The check byte of a block.
fn put_check(block: &mut [u8]) {
    if block.len() < 258 {
        return;
    }
    let sum = base::xor_of(&block[1..257]);
    block[257] = sum;
}

// Row Q.
pub fn check_block(source: &mut [u8], at: usize) {
    if source.len() < at {
        return;
    }
    if source.len() - at < 260 {
        return;
    }
    let end = at + 260;
    put_check(&mut source[at..end]);
}
