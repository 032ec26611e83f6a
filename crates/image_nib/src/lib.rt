// The table of a NIB image: the windows of its slots, each taken as a ring.
ghost use Rattle.std.specs.Prelude.{◌≡◌, ◌<◌, Ok};
ghost use Rattle.nib_catalogue.specs.Catalogue.{catalogue_of};
ghost use Rattle.image_rings.specs.Rings.{table_of};
ghost use Rattle.image_nib.specs.Nib.{nib_entry, nib_table};

use base::Refusal;
use image_rings::{Rings, Span};

// The window of a slot of a NIB image, where the catalogue has n pairs.
fn nib_entry(image: &[u8], n: usize, slot: usize) -> Option<Span>
    requires { (slot < 84) × (catalogue_of image.now ≡ Ok n) }
    ensures { result ≡ nib_entry image.now slot }
{
    let k = nib_catalogue::find_code(image, (slot + 2) as u8, n)?;
    Some(Span {
        start: 256 + 8192 * k,
        length: 8192,
    })
}

// The table, where the catalogue has n pairs.
fn nib_windows(image: &[u8], n: usize) -> Rings
    requires { catalogue_of image.now ≡ Ok n }
    ensures { result ≡ table_of (nib_entry image.now) }
{
    let mut rings = Rings::none();
    for slot in 0..84 {
        rings.set(slot, nib_entry(image, n, slot));
    }
    rings
}

// The table of a NIB image, or refusal 3 or 4.
pub fn nib_table(image: &[u8]) -> Result<Rings, Refusal>
    ensures { result ≡ nib_table image.now }
{
    let n = nib_catalogue::read_catalogue(image)?;
    Ok(nib_windows(image, n))
}
