// Text put into a lent buffer, piece by piece. Each function has room by its `requires` and answers the place behind.
// Buffer and place stay two parameters and no page: nothing may be left out here, and the lister's lines are put at places it knows.
ghost use Rattle.std.specs.Prelude.{◌≡◌, ◌+◌, ◌<◌, ◌≤◌, length};
ghost use Rattle.page_text.specs.Numerals.{decimal, decimal_of, hex_of};
ghost use Rattle.page_text.specs.Numerals.{digit as Numerals·digit, hex_digit as Numerals·hex_digit};
ghost use Rattle.page_text.specs.Put.{Put};

fn digit(d: u64) -> u8
    requires { d < 10 }
    ensures { result ≡ Numerals·digit d }
{
    48 + d as u8
}

fn hex_digit(d: u8) -> u8
    requires { d < 16 }
    ensures { result ≡ Numerals·hex_digit d }
{
    if d < 10 { 48 + d } else { 55 + d }
}

// Bytes as they are.
pub fn put_bytes(out: &mut [u8], at: usize, bytes: &[u8]) -> usize
    requires { at + length bytes.now ≤ length out.old }
    ensures { Put out.old at bytes.now out.new result }
{
    base::store(out, at, bytes);
    at + bytes.len()
}

// A number in decimal, with no zeros in front.
pub fn put_decimal(out: &mut [u8], at: usize, n: u64) -> usize
    requires { at + length (decimal n) ≤ length out.old }
    ensures { Put out.old at (decimal n) out.new result }
{
    if n < 10 {
        out[at] = digit(n);
        return at + 1;
    }
    let last = put_decimal(out, at, n / 10);
    out[last] = digit(n % 10);
    last + 1
}

// A number below 100 in two decimal digits.
pub fn put_two_digits(out: &mut [u8], at: usize, n: u8) -> usize
    requires n_bound { n < 100 }
    requires at_in_bounds { at + 2 ≤ length out.old }
    ensures { Put out.old at (decimal_of 2 n) out.new result }
{
    out[at] = 48 + n / 10;
    out[at + 1] = 48 + n % 10;
    at + 2
}

// A byte in two hex digits, capitals.
pub fn put_hex(out: &mut [u8], at: usize, n: u8) -> usize
    requires { at + 2 ≤ length out.old }
    ensures { Put out.old at (hex_of 2 n) out.new result }
{
    out[at] = hex_digit(n / 16);
    out[at + 1] = hex_digit(n % 16);
    at + 2
}

// A number of 16 bits in four hex digits.
fn put_hex_half(out: &mut [u8], at: usize, n: u16) -> usize
    requires { at + 4 ≤ length out.old }
    ensures { Put out.old at (hex_of 4 n) out.new result }
{
    let low = put_hex(out, at, (n / 256) as u8);
    put_hex(out, low, (n % 256) as u8)
}

// A number of 32 bits in eight hex digits, capitals.
pub fn put_hex_word(out: &mut [u8], at: usize, n: u32) -> usize
    requires { at + 8 ≤ length out.old }
    ensures { Put out.old at (hex_of 8 n) out.new result }
{
    let low = put_hex_half(out, at, (n / 65536) as u16);
    put_hex_half(out, low, (n % 65536) as u16)
}
