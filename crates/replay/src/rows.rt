// A row of the input, and the parts of a buffer that it names: compare/README.md.
ghost use Rattle.std.specs.Prelude.{◌+◌, ◌≤◌, length};

#[derive(Clone, Copy)]
pub struct Row {
    pub letter: u8,
    pub a: u32,
    pub b: u32,
    pub c: u32,
    pub d: u32,
    pub e: u32,
    pub f: u32,
}

// The number of a hex digit, 0 for any other byte.
fn digit(c: u8) -> u8 {
    match c {
        b'0'..=b'9' => c - 48,
        b'A'..=b'F' => c - 55,
        _ => 0,
    }
}

// Two digits, as a byte.
fn pair(high: u8, low: u8) -> u32 {
    (digit(high) % 16) as u32 * 16 + (digit(low) % 16) as u32
}

// The number of the eight digits from `at` on.
fn field(row: &[u8], at: usize) -> u32
    requires { at + 8 ≤ length row.now }
{
    let first = pair(row[at], row[at + 1]) % 256;
    let second = pair(row[at + 2], row[at + 3]) % 256;
    let third = pair(row[at + 4], row[at + 5]) % 256;
    let fourth = pair(row[at + 6], row[at + 7]) % 256;
    first * 16777216 + second * 65536 + third * 256 + fourth
}

// The row that 56 bytes spell.
pub fn row_of(bytes: &[u8; 56]) -> Row {
    let s: &[u8] = bytes;
    Row {
        letter: s[0],
        a: field(s, 2),
        b: field(s, 11),
        c: field(s, 20),
        d: field(s, 29),
        e: field(s, 38),
        f: field(s, 47),
    }
}

// The n bytes from `at` on, none where there are not so many.
pub fn part(bytes: &[u8], at: usize, n: usize) -> &[u8] {
    if bytes.len() < at {
        return &bytes[0..0];
    }
    if bytes.len() - at < n {
        return &bytes[0..0];
    }
    let end = at + n;
    &bytes[at..end]
}
