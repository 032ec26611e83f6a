// A D64 image: a sector of it, and the error byte of a sector.
ghost use Rattle.std.specs.Prelude.{◌≡◌, ◌≤◌};
ghost use Rattle.image_d64.specs.D64.{d64_sector, error_byte};

use base::Sector;

// A sector of a D64 image.
pub fn d64_sector(image: &[u8], track: u8, sector: u8) -> Sector
    ensures { result ≡ d64_sector image.now track sector }
{
    let at = geometry::d64_place(track, sector);
    let end = at + 256;
    if end <= image.len() {
        let bytes = base::copy_block(&image[at..end]);
        return base::good_sector(bytes);
    }
    base::refused_sector(base::Refusal::NoRecord.number())
}

// The error byte of a sector, 1 where the image has none.
pub fn error_byte(image: &[u8], highest: u8, track: u8, sector: u8) -> u8
    requires { highest ≤ 42 }
    ensures { result ≡ error_byte image.now highest track sector }
{
    let end = geometry::d64_place(highest + 1, 0);
    let at = end + geometry::d64_place(track, sector) / 256;
    base::byte_or(image, at, 1)
}
