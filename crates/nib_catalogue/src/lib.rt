// The catalogue of a NIB file: pairs of a code, which is a slot plus 2, and a zone.
#![tactic(auto)]

ghost use Rattle.std.specs.Prelude.{◌≡◌, ◌+◌, ◌*◌, ◌<◌, ◌≤◌, length};
ghost use Rattle.nib_catalogue.specs.Catalogue.{
  is_nib,
  pairs,
  among,
  faulty,
  any_faulty,
  catalogue_of,
  entry_with,
  zone_at,
  window_at,
  window_start,
};

use base::Refusal;

// Is this a NIB file, by its length and signature?
pub fn is_nib(image: &[u8]) -> bool
    ensures { result ≡ is_nib image.now }
{
    256 <= image.len() && image.starts_with(b"MNIB-1541-RAW")
}

// The number of pairs.
fn count_pairs(image: &[u8]) -> usize
    requires { 256 ≤ length image.now }
    ensures { (result ≡ pairs image.now) × (result ≤ 120) }
{
    // A loop, since the pairs are defined from the first one on, and no lemma ties `position` to that.
    for k in 0..120 {
        if image[16 + 2 * k] == 0 {
            return k;
        }
    }
    120
}

// Is a code among those of the first n pairs?
fn is_among(image: &[u8], code: u8, n: usize) -> bool
    requires { (n ≤ 120) × (256 ≤ length image.now) }
    ensures { result ≡ among image.now code n }
{
    // A loop from the last pair down, as in `find_code`.
    for k in (0..n).rev() {
        if image[16 + 2 * k] == code {
            return true;
        }
    }
    false
}

// Is pair k faulty?
fn is_faulty(image: &[u8], k: usize) -> bool
    requires { (k < 120) × (256 ≤ length image.now) }
    ensures { result ≡ faulty image.now k }
{
    let code = image[16 + 2 * k];
    code < 2 || 86 <= code || is_among(image, code, k)
}

// Is one of the first n pairs faulty?
fn any_faulty(image: &[u8], n: usize) -> bool
    requires { (n ≤ 120) × (256 ≤ length image.now) }
    ensures { result ≡ any_faulty image.now n }
{
    // From the last pair down too.
    for k in (0..n).rev() {
        if is_faulty(image, k) {
            return true;
        }
    }
    false
}

// The number of pairs of a file.
pub fn read_catalogue(image: &[u8]) -> Result<usize, Refusal>
    ensures { result ≡ catalogue_of image.now }
{
    if !is_nib(image) {
        return Err(Refusal::WrongImage);
    }
    let n = count_pairs(image);
    if n == 0 {
        return Err(Refusal::WrongEntries);
    }
    if any_faulty(image, n) {
        return Err(Refusal::WrongEntries);
    }
    if image.len() < 256 + 8192 * n {
        return Err(Refusal::WrongEntries);
    }
    Ok(n)
}

// Which of the first n pairs has a code.
pub fn find_code(image: &[u8], code: u8, n: usize) -> Option<usize>
    requires { (n ≤ 120) × (256 ≤ length image.now) }
    ensures { result ≡ entry_with image.now code n }
{
    // A loop: std has no lemma on a range that is turned round and searched.
    for k in (0..n).rev() {
        if image[16 + 2 * k] == code {
            return Some(k);
        }
    }
    None
}

// The zone of pair k.
pub fn zone_at(image: &[u8], k: usize) -> u8
    requires { (k < 120) × (256 ≤ length image.now) }
    ensures { result ≡ zone_at image.now k }
{
    image[17 + 2 * k] % 4
}

// The window of pair k, as a part of the image.
pub fn window_at(image: &[u8], k: usize) -> &[u8]
    requires { (k < 120) × (window_start k + 8192 ≤ length image.now) }
    ensures { result.now ≡ window_at image.now k }
{
    let start = 256 + 8192 * k;
    let end = start + 8192;
    &image[start..end]
}
