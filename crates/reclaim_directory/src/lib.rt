// What clearing keeps, 18/0 and the sectors of the directory chain; and which sectors the BAM then leaves to be cleared.
ghost use Rattle.std.specs.Prelude.{◌≡◌, ◌+◌, ◌*◌, ◌-◌, ◌<◌, ◌≤◌, length};
ghost use Rattle.image_d64.specs.D64.{OnTracks};
ghost use Rattle.image_sector.specs.Media.{medium_of};
ghost use Rattle.image_sector.specs.Callers.{Complete};
ghost use Rattle.reclaim_directory.specs.Marks.{mark_place};
ghost use Rattle.reclaim_directory.specs.Disk.{is_address, entry_free, disk1541, links_up_to, bam_sector};
ghost use Rattle.reclaim_directory.specs.Chains.{chain_at, chain_of};
ghost use Rattle.reclaim_directory.specs.Inside.{free_by};

use base::Refusal;
use image_sector::Layout;

// The BAM has entries for tracks 1 to 35, from byte 4 of 18/0 on.
const FIRST_ENTRY: usize = 4;

const FIRST_TRACK: u8 = 1;

// The sectors that clearing keeps: 882 marks, 21 for each of 42 tracks, and the length of the directory chain.
#[derive(Drop)]
pub struct Chain {
    pub length: usize,
    pub marks: [bool; 882],
}

// Is this an address on a disk with that highest track?
#[tactic(auto, using(std::proofs::lemmas::Bool::Decides::nat_tests), unfolding(crate::specs::Disk::is_address))]
fn is_address(track: u8, sector: u8, highest: u8) -> bool
    ensures { result ≡ is_address (links_up_to highest disk1541) track sector }
{
    0 < track && track <= highest && sector < geometry::sectors_per_track(track)
}

fn mark_place(track: u8, sector: u8) -> usize
    requires { (0 < track) × (track ≤ 42) × (sector < 21) }
    ensures { result ≡ mark_place track sector }
{
    (track as usize - 1) * 21 + sector as usize
}

// The chain of an image from an address on, with the marks at first.
fn follow(
    image: &[u8],
    layout: &Layout,
    first: [bool; 882],
    first_track: u8,
    first_sector: u8,
) -> Result<Chain, Refusal>
    requires highest_bound { layout.now.highest ≤ 42 }
    requires complete { Complete layout.now (length image.now) }
    ensures { result
        ≡ chain_at (links_up_to layout.now.highest disk1541)
        ((medium_of layout.now.kind layout.now.rings).read image.now)
        first 0 first_track first_sector }
{
    let mut marks = first;
    let mut n: usize = 0;
    let mut track = first_track;
    let mut sector = first_sector;
    while track != 0 {
        if !is_address(track, sector, layout.highest) {
            return Err(Refusal::WrongLink);
        }
        let at = mark_place(track, sector);
        if marks[at] {
            return Err(Refusal::WrongLink);
        }
        marks[at] = true;
        let found = layout.read(image, track, sector);
        if !found.ok {
            return Err(Refusal::WrongLink);
        }
        n += 1;
        track = found.bytes[0];
        sector = found.bytes[1];
    }
    Ok(Chain { length: n, marks })
}

// The directory chain of an image, whose 18/0 has been read; it is marked too. A wrong link is refusal 6.
pub fn directory_chain(image: &[u8], layout: &Layout, bam: &[u8; 256]) -> Result<Chain, Refusal>
    requires highest_bound { layout.now.highest ≤ 42 }
    requires complete { Complete layout.now (length image.now) }
    requires bam_value { bam.now ≡ (bam_sector ((medium_of layout.now.kind layout.now.rings).read image.now)).bytes }
    ensures { result
        ≡ chain_of (links_up_to layout.now.highest disk1541)
        ((medium_of layout.now.kind layout.now.rings).read image.now) }
{
    let track = bam[0];
    let sector = bam[1];
    if !is_address(track, sector, layout.highest) {
        return Err(Refusal::WrongLink);
    }
    let mut marks = [false; 882];
    let at = mark_place(18, 0);
    marks[at] = true;
    follow(image, layout, marks, track, sector)
}

// Is a sector free by the BAM? The entry of track `first` is at `place`; its count byte is passed over.
fn is_free(bam: &[u8; 256], place: usize, first: u8, track: u8, sector: u8) -> bool
    requires { (first ≤ track) × (sector < 24) × (place + 4 * (track - first) + 4 ≤ 256) }
    ensures { result ≡ entry_free bam.now place first track sector }
{
    let at = place + 4 * (track as usize - first as usize) + 1 + (sector as usize) / 8;
    let byte = bam[at];
    (byte >> (sector % 8)) & 1 == 1
}

// Is a sector to be cleared: free by the BAM, and not kept?
pub fn to_clear(bam: &[u8; 256], marks: &[bool; 882], track: u8, sector: u8) -> bool
    requires { OnTracks disk1541.last track sector }
    ensures { result ≡ free_by bam.now marks.now track sector }
{
    if !is_free(bam, FIRST_ENTRY, FIRST_TRACK, track, sector) {
        return false;
    }
    let place = mark_place(track, sector);
    !marks[place]
}
