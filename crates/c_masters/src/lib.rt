// The masters of the library that C and Rust programs link: 0 when the master is written, or the refusal's number, and then nothing lent
// has changed. The name begins with the library's, since a name is the whole program's, as in C.
ghost use Rattle.std.specs.Prelude.{◌≡◌};
ghost use Rattle.base.specs.Answers.{refusal_number};
ghost use Rattle.g64_write.specs.Answers.{mastered, out_after};
ghost use Rattle.c_masters.specs.Numbers.{written_after};

use base::Refusal;

// The number of bytes told, and 0; or the refusal's number.
fn tell_mastered(answer: Result<usize, Refusal>, written: &mut u64) -> u64
    ensures { (result ≡ refusal_number answer) × (written.new ≡ written_after written.old answer) }
{
    match answer {
        Ok(size) => {
            *written = size as u64;
            0
        }
        Err(why) => u64::from(why.number()),
    }
}

// The G64 of a D64, at the front of the output.
#[unsafe(no_mangle)]
pub extern "C" fn fielbmaru_d64_to_g64(d64: &[u8], out: &mut [u8], written: &mut u64) -> u64
    ensures { (result ≡ refusal_number (mastered d64.now out.old))
        × (written.new ≡ written_after written.old (mastered d64.now out.old))
        × (out.new ≡ out_after d64.now out.old) }
{
    let answer = g64_write::d64_to_g64(d64, out);
    tell_mastered(answer, written)
}
