// The blocks of the library that C and Rust programs link: each function answers 0 when it is done, or the refusal's number, and then
// nothing lent has changed but the index that tells of a bad symbol. The names begin with the library's, since a name is the whole
// program's, as in C.
#![tactic(auto)]

ghost use Rattle.std.specs.Prelude.{◌≡◌};
ghost use Rattle.gcr_blocks.specs.Answers.{encode_refusal, encoded_out, decoded_number, decode_refusal, decoded, decoded_out};
ghost use Rattle.c_blocks.specs.Numbers.{symbol_after};

use base::Refusal;
use gcr_blocks::Undecoded;

// The code of a block of any length.
#[unsafe(no_mangle)]
pub extern "C" fn fielbmaru_encode_block(bytes: &[u8], out: &mut [u8]) -> u64
    ensures { (result ≡ encode_refusal bytes.now out.old)
        × (out.new ≡ encoded_out bytes.now out.old) }
{
    u64::from(base::refusal_number(&gcr_blocks::encode_gcr_block(bytes, out)))
}

// The index of a symbol outside the table told, and 13; or 0, or another refusal's number.
fn tell_decoded(answer: Result<usize, Undecoded>, symbol: &mut u64) -> u64
    ensures { (result ≡ decoded_number answer) × (symbol.new ≡ symbol_after symbol.old answer) }
{
    match answer {
        Ok(_) => 0,
        Err(Undecoded::Refused(why)) => u64::from(why.number()),
        Err(Undecoded::Illegal(k)) => {
            *symbol = k as u64;
            u64::from(Refusal::IllegalSymbol.number())
        }
    }
}

// What a code of whole groups stands for.
#[unsafe(no_mangle)]
pub extern "C" fn fielbmaru_decode_block(code: &[u8], out: &mut [u8], symbol: &mut u64) -> u64
    ensures { (result ≡ decode_refusal code.now out.old)
        × (out.new ≡ decoded_out code.now out.old)
        × (symbol.new ≡ symbol_after symbol.old (decoded code.now out.old)) }
{
    tell_decoded(gcr_blocks::decode_gcr_block(code, out), symbol)
}
