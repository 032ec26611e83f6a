// NIB files: the ring and the zone of a slot. The crate `nib_catalogue` reads the list of the captures.
#![tactic(auto)]

ghost use Rattle.std.specs.Prelude.{◌≡◌};
ghost use Rattle.nib_slots.specs.Slots.{entry_of, ring_of, slot_zone, slot_answer};

use base::Refusal;

// A slot's ring: where it starts in the image, its length and its zone.
#[derive(Clone, Copy, Debug, PartialEq, Eq)]
pub struct SlotRing {
    pub start: usize,
    pub length: usize,
    pub zone: u8,
}

// The pair of a slot, if the catalogue has one.
fn entry_of(image: &[u8], slot: usize) -> Result<Option<usize>, Refusal>
    ensures { result ≡ entry_of image.now slot }
{
    let n = nib_catalogue::read_catalogue(image)?;
    if 83 < slot {
        return Err(Refusal::WrongEntries);
    }
    Ok(nib_catalogue::find_code(image, (slot + 2) as u8, n))
}

// The zone of a slot; 0 where it is absent.
pub fn nib_zone(image: &[u8], slot: usize) -> Result<u8, Refusal>
    ensures { result ≡ slot_zone image.now slot }
{
    let entry = entry_of(image, slot)?;
    match entry {
        Some(k) => Ok(nib_catalogue::zone_at(image, k)),
        None => Ok(0),
    }
}

// The recovered ring of a slot, as a part of the image; an empty part where it is absent or refused.
pub fn nib_ring(image: &[u8], slot: usize) -> &[u8]
    ensures { result.now ≡ ring_of image.now slot }
{
    let entry = entry_of(image, slot);
    match entry {
        Ok(Some(k)) => {
            let zone = nib_catalogue::zone_at(image, k);
            nib_orbit::recover_orbit(nib_catalogue::window_at(image, k), zone)
        }
        Ok(None) => &image[0..0],
        Err(_) => &image[0..0],
    }
}

// The ring of a slot, if it has one: where it starts in the image, its length and its zone.
pub fn nib_slot(image: &[u8], slot: usize) -> Result<Option<SlotRing>, Refusal>
    ensures { result ≡ slot_answer image.now slot }
{
    let found = entry_of(image, slot)?;
    match found {
        Some(k) => {
            let zone = nib_catalogue::zone_at(image, k);
            let chosen = nib_orbit::estimate_orbit(nib_catalogue::window_at(image, k), zone);
            Ok(Some(SlotRing {
                start: 256 + 8192 * k,
                length: chosen.span,
                zone,
            }))
        }
        None => Ok(None),
    }
}
