// Blocks: several groups of the nibble code, one after the other, encoded and decoded.
#![tactic(auto)]

ghost use Rattle.std.specs.Prelude.{◌≡◌, ◌++◌, ◌+◌, ◌*◌, ◌≤◌, ◌<◌, length, take, drop, replicate, true};
ghost use Rattle.std.proofs.lemmas.List.Edits.{sets};
ghost use Rattle.base.specs.Answers.{refusal_number};
ghost use Rattle.base.specs.Bits.{bit_in};
ghost use Rattle.gcr.specs.Groups.{encode_group, encode, decode_group};
ghost use Rattle.gcr.specs.Places.{decode_at};
ghost use Rattle.gcr.specs.Answers.{answer4};
ghost use Rattle.gcr_blocks.specs.Answers.{encode_refusal, encoded, encoded_out};
ghost use Rattle.gcr_blocks.specs.Answers.{decode_refusal, decoded_number, decoded, decoded_out, is_readable, bytes_in};
ghost use Rattle.gcr_blocks.specs.Inside.{first_in};

use base::Refusal;
use gcr::Illegal;

// Why a block is not decoded: a refusal, or, for refusal 13, the index of the first symbol outside the table, among all of the block's.
#[derive(Clone, Copy, Debug, PartialEq, Eq)]
pub enum Undecoded {
    Refused(Refusal),
    Illegal(usize),
}

// The code of the first `n` groups of `bytes`, stored from `at` on.
pub fn encode_groups(out: &mut [u8], at: usize, bytes: &[u8], n: usize)
    requires n_in_bounds { at + 5 * n ≤ length out.old }
    requires n_in_bounds_2 { 4 * n ≤ length bytes.now }
    ensures { out.new ≡ sets out.old at (encode n bytes.now) }
{
    for i in 0..n {
        let group = bytes[4 * i..].first_chunk().unwrap();
        base::store(out, at + 5 * i, &gcr::encode_group(group));
    }
}

// The code of a block of any length, and how many bytes it takes; a last group of fewer than four bytes is filled up with zeros.
pub fn encode_gcr_block(bytes: &[u8], out: &mut [u8]) -> Result<usize, Refusal>
    ensures { (result ≡ encoded bytes.now out.old)
        × (out.new ≡ encoded_out bytes.now out.old)
        × (refusal_number result ≡ encode_refusal bytes.now out.old) }
{
    let whole = bytes.len() / 4;
    let groups = bytes.len().div_ceil(4);
    if out.len() / 5 < groups {
        return Err(Refusal::NoRoom);
    }
    encode_groups(out, 0, bytes, whole);
    if whole < groups {
        put_last(out, bytes, whole);
    }
    Ok(5 * groups)
}

// The code of a last group of one to three bytes, after `whole` groups.
fn put_last(out: &mut [u8], bytes: &[u8], whole: usize)
    requires { (5 * whole + 5 ≤ length out.old) × (4 * whole < length bytes.now) }
    ensures { out.new ≡ sets out.old (5 * whole)
        (encode_group (take 4 (drop (4 * whole) (bytes.now ++ replicate 3 0)))) }
{
    let k = 4 * whole;
    let g = [
        bytes[k],
        base::byte_or(bytes, k + 1, 0),
        base::byte_or(bytes, k + 2, 0),
        base::byte_or(bytes, k + 3, 0),
    ];
    base::store(out, 5 * whole, &gcr::encode_group(&g));
}

// The group of five bytes at `at`.
fn decode_at(code: &[u8], at: usize) -> Result<[u8; 4], Illegal>
    requires { at + 5 ≤ length code.now }
    ensures { result ≡ answer4 (decode_group (take 5 (drop at code.now))) }
{
    gcr::decode_group(code[at..].first_chunk().unwrap())
}

// The index of the first symbol outside the table, of the first `n` groups.
fn first_illegal(code: &[u8], n: usize) -> Option<usize>
    requires { 5 * n ≤ length code.now }
    ensures { result ≡ first_in (decode_at (bit_in code.now) 0 (4 * n)) }
{
    for i in 0..n {
        if let Err(illegal) = decode_at(code, 5 * i) {
            return Some(8 * i + usize::from(illegal.index));
        }
    }
    None
}

// The bytes of the first `n` groups, whose symbols are all in the table.
fn decode_groups(code: &[u8], out: &mut [u8], n: usize)
    requires n_in_bounds { (5 * n ≤ length code.now) × (4 * n ≤ length out.old) }
    requires n_value { is_readable (decode_at (bit_in code.now) 0 (4 * n)) ≡ true }
    ensures { out.new ≡ sets out.old 0 (bytes_in (decode_at (bit_in code.now) 0 (4 * n))) }
{
    for i in 0..n {
        base::store(out, 4 * i, &decode_at(code, 5 * i).unwrap());
    }
}

// What a code of whole groups stands for, and how many bytes that is. A symbol outside the table refuses, and then nothing is written.
pub fn decode_gcr_block(code: &[u8], out: &mut [u8]) -> Result<usize, Undecoded>
    ensures { (result ≡ decoded code.now out.old)
        × (out.new ≡ decoded_out code.now out.old)
        × (decoded_number result ≡ decode_refusal code.now out.old) }
{
    let n = code.len() / 5;
    if out.len() / 4 < n {
        return Err(Undecoded::Refused(Refusal::NoRoom));
    }
    if let Some(k) = first_illegal(code, n) {
        return Err(Undecoded::Illegal(k));
    }
    decode_groups(code, out, n);
    Ok(4 * n)
}
