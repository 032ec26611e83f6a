// Rows that change a ring's bits. A ring that the library would refuse is left as it is.
use crate::rows;
use crate::rows::Row;
use replay_shared::draw;

// A bit of some bytes, counted round them.
fn bit_of(bytes: &[u8], i: usize) -> u8 {
    if bytes.len() < 1 {
        return 0;
    }
    if base::MAX_RING < bytes.len() {
        return 0;
    }
    ring::bit_at(bytes, i)
}

fn put_bit(ring: &mut [u8], i: usize, value: u8) {
    if ring.len() < 1 {
        return;
    }
    if base::MAX_RING < ring.len() {
        return;
    }
    ring::write_bit(ring, i, value);
}

// The first n bits of some bytes, and of these again where they have less, from a bit of the ring on.
fn put_bits(ring: &mut [u8], start: u32, bytes: &[u8], n: u32) {
    for k in 0..n {
        let value = bit_of(bytes, k as usize);
        put_bit(ring, start as usize + k as usize, value);
    }
}

fn flip(ring: &mut [u8], i: usize) {
    let bit = bit_of(ring, i);
    put_bit(ring, i, 1 - bit % 2);
}

// Row X.
fn flip_bits(ring: &mut [u8], n: u32, seed: u32) {
    let mut state = seed;
    for k in 0..n {
        state = draw::step(state);
        flip(ring, (state / 16) as usize);
    }
}

// Row G.
fn put_code(ring: &mut [u8], start: u32, bytes: &[u8]) {
    if 260 < bytes.len() {
        return;
    }
    let mut code = [0u8; 325];
    let n = bytes.len() / 4;
    gcr_blocks::encode_groups(&mut code, 0, bytes, n);
    put_bits(ring, start, &code, (40 * n) as u32);
}

// A row Z, I, X or G carried out on a ring.
pub fn change(ring: &mut [u8], source: &[u8], row: Row) {
    let letter = row.letter;
    match letter {
        b'Z' => put_bits(ring, row.c, b"\x00", row.d),
        b'I' => put_bits(ring, row.c, b"\xFF", row.d),
        b'X' => flip_bits(ring, row.c, row.d),
        b'G' => put_code(
            ring,
            row.c,
            rows::part(source, row.d as usize, row.e as usize),
        ),
        _ => {}
    }
}
