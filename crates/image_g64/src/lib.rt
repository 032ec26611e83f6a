// A G64 image: is it one, and where its rings lie.
ghost use Rattle.std.specs.Prelude.{◌≡◌, ◌+◌, ◌*◌, ◌<◌, ◌≤◌, length};
ghost use Rattle.image_g64.specs.G64.{is_g64, half_tracks, largest, counts_right, ring_at, g64_entry, g64_table};
ghost use Rattle.image_g64.specs.Inside.{rings_or};

use base::Refusal;
use image_rings::{Rings, Span};

// The ring at an offset, where the largest is known.
#[tactic(auto, using(std::proofs::lemmas::Bool::Decides::nat_tests), unfolding(crate::specs::G64::ring_at))]
fn ring_at(image: &[u8], max: usize, offset: usize) -> Result<Option<Span>, Refusal>
    requires { (offset < 4294967296) × (max ≡ largest image.now) }
    ensures { result ≡ ring_at image.now offset }
{
    let start = offset + 2;
    if image.len() < start {
        return Err(Refusal::WrongEntries);
    }
    let length = base::read_word(image, offset);
    if length == 0 || max < length || image.len() < start + length {
        return Err(Refusal::WrongEntries);
    }
    Ok(Some(Span { start, length }))
}

// The entry of a half-track, where the counts are right.
#[tactic(auto, using(std::proofs::lemmas::Bool::Decides::nat_tests), unfolding(crate::specs::G64::g64_entry))]
fn g64_entry(image: &[u8], max: usize, count: usize, half: usize) -> Result<Option<Span>, Refusal>
    requires { (half < 84) × (max ≡ largest image.now) × (count ≡ half_tracks image.now) × (12 + 8 * count ≤ length image.now) }
    ensures { result ≡ g64_entry image.now half }
{
    if count <= half {
        return Ok(None);
    }
    let offset = base::read_long(image, 12 + 4 * half);
    if offset == 0 {
        return Ok(None);
    }
    ring_at(image, max, offset)
}

// The table, where the counts are right.
fn g64_rings(image: &[u8], max: usize, count: usize) -> Result<Rings, Refusal>
    requires { (max ≡ largest image.now) × (count ≡ half_tracks image.now) × (12 + 8 * count ≤ length image.now) }
    ensures { result ≡ rings_or (g64_entry image.now) }
{
    let mut rings = Rings::none();
    for half in 0..84 {
        rings.set(half, g64_entry(image, max, count, half)?);
    }
    Ok(rings)
}

// Is this a G64 image?
#[tactic(auto, using(std::proofs::lemmas::Bool::Decides::nat_tests), unfolding(crate::specs::G64::is_g64))]
pub fn is_g64(image: &[u8]) -> bool
    ensures { result ≡ is_g64 image.now }
{
    12 <= image.len() && image.starts_with(b"GCR-1541")
}

#[tactic(auto, using(std::proofs::lemmas::Bool::Decides::nat_tests), unfolding(crate::specs::G64::counts_right))]
fn counts_right(image: &[u8], max: usize, count: usize) -> bool
    requires { (max ≡ largest image.now) × (count ≡ half_tracks image.now) × (count < 256) }
    ensures { result ≡ counts_right image.now }
{
    0 < count && count <= 84 && max != 0 && 12 + 8 * count <= image.len()
}

// The table of a G64 image, or refusal 3 or 4.
pub fn g64_table(image: &[u8]) -> Result<Rings, Refusal>
    ensures { result ≡ g64_table image.now }
{
    if !is_g64(image) {
        return Err(Refusal::WrongImage);
    }
    let count = usize::from(image[9]);
    let max = base::read_word(image, 10);
    if !counts_right(image, max, count) {
        return Err(Refusal::WrongEntries);
    }
    g64_rings(image, max, count)
}
