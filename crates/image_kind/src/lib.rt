// Images of any kind: what kind one is, and what keeps it from being read.
ghost use Rattle.std.specs.Prelude.{◌≡◌};
ghost use Rattle.base.specs.Answers.{answer};
ghost use Rattle.image_kind.specs.Kinds.{kind_of, fault_of};

use base::Refusal;

// The kinds of image; a D64 with its number of tracks.
#[derive(Clone, Copy, Debug, PartialEq, Eq)]
pub enum Kind {
    D64(u8),
    G64,
    Nib,
    Unknown,
}

// What kind of image this is: what it begins with tells a G64 and a NIB, its size a D64.
pub fn image_kind(image: &[u8]) -> Kind
    ensures { result ≡ kind_of image.now }
{
    if image_g64::is_g64(image) {
        return Kind::G64;
    }
    if nib_catalogue::is_nib(image) {
        return Kind::Nib;
    }
    let Some(n) = geometry::tracks_of(image.len()) else {
        return Kind::Unknown;
    };
    Kind::D64(n)
}

// Why an image is refused as a whole, if it is.
pub fn image_fault(image: &[u8]) -> Result<(), Refusal>
    ensures { result ≡ answer (fault_of image.now) tt }
{
    match image_kind(image) {
        Kind::D64(_) => Ok(()),
        Kind::G64 => image_g64::g64_table(image).map(|_| ()),
        Kind::Nib => nib_catalogue::read_catalogue(image).map(|_| ()),
        Kind::Unknown => Err(Refusal::WrongImage),
    }
}
