// The captures of the library that C and Rust programs link: each function but the orbit's answers 0 when it is done, or the refusal's
// number, and then nothing lent has changed. The names begin with the library's, since a name is the whole program's, as in C.
ghost use Rattle.std.specs.Prelude.{◌≡◌, length};
ghost use Rattle.nib_orbit.specs.Orbit.{recovered};
ghost use Rattle.nib_slots.specs.Slots.{slot_answer};
ghost use Rattle.nib_write.specs.Encoding.{encoded_of, out_after as file_after};
ghost use Rattle.base.specs.Answers.{refusal_number};
ghost use Rattle.c_captures.specs.Numbers.{at_after, span_after, zone_after, written_after};

use base::Refusal;
use nib_slots::SlotRing;

// The span of a window's orbit: its first bytes, so many, are the ring; 0 where the window is not 8,192 bytes.
#[unsafe(no_mangle)]
pub extern "C" fn fielbmaru_orbit(window: &[u8], zone: u8) -> u64
    ensures { result ≡ length (recovered window.now zone) }
{
    let ring = nib_orbit::recover_orbit(window, zone);
    ring.len() as u64
}

// A slot's three numbers told, and 0; or the refusal's number.
fn tell_slot(
    answer: Result<Option<SlotRing>, Refusal>,
    at: &mut u64,
    span: &mut u64,
    zone: &mut u64,
) -> u64
    ensures { (result ≡ refusal_number answer) × (at.new ≡ at_after at.old answer)
        × (span.new ≡ span_after span.old answer) × (zone.new ≡ zone_after zone.old answer) }
{
    match answer {
        Ok(Some(ring)) => {
            *at = ring.start as u64;
            *span = ring.length as u64;
            *zone = u64::from(ring.zone);
            0
        }
        Ok(None) => {
            *at = 0;
            *span = 0;
            *zone = 0;
            0
        }
        Err(why) => u64::from(why.number()),
    }
}

// Where the ring of a slot begins in a NIB file, its length and its zone.
#[unsafe(no_mangle)]
pub extern "C" fn fielbmaru_nib_slot(
    image: &[u8],
    slot: u64,
    at: &mut u64,
    span: &mut u64,
    zone: &mut u64,
) -> u64
    ensures { (result ≡ refusal_number (slot_answer image.now slot))
        × (at.new ≡ at_after at.old (slot_answer image.now slot))
        × (span.new ≡ span_after span.old (slot_answer image.now slot))
        × (zone.new ≡ zone_after zone.old (slot_answer image.now slot)) }
{
    let answer = nib_slots::nib_slot(image, slot as usize);
    tell_slot(answer, at, span, zone)
}

// The number of bytes told, and 0; or the refusal's number.
fn tell_encoded(answer: Result<usize, Refusal>, written: &mut u64) -> u64
    ensures { (result ≡ refusal_number answer) × (written.new ≡ written_after written.old answer) }
{
    match answer {
        Ok(size) => {
            *written = size as u64;
            0
        }
        Err(why) => u64::from(why.number()),
    }
}

// A NIB file of rings: lent the length and the zone of each slot's ring, and the bytes of all rings joined.
#[unsafe(no_mangle)]
pub extern "C" fn fielbmaru_encode_nib(
    lengths: &[u64],
    zones: &[u8],
    rings: &[u8],
    out: &mut [u8],
    written: &mut u64,
) -> u64
    ensures { (result ≡ refusal_number (encoded_of lengths.now rings.now out.old))
        × (written.new ≡ written_after written.old
        (encoded_of lengths.now rings.now out.old))
        × (out.new ≡ file_after lengths.now zones.now rings.now out.old) }
{
    let answer = nib_write::encode_nib(lengths, zones, rings, out);
    tell_encoded(answer, written)
}
