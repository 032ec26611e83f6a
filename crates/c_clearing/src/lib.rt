// The clearing of images, in the library that C and Rust programs link: each function answers 0 when it is done, or the refusal's
// number, and then nothing lent has changed. The names begin with the library's, since a name is the whole program's, as in C.
ghost use Rattle.std.specs.Prelude.{◌≡◌};
ghost use Rattle.reclaim.specs.Images.{cleared_d64, cleared_g64, cleared_nib};
ghost use Rattle.base.specs.Answers.{refusal_number};
ghost use Rattle.c_clearing.specs.Numbers.{free_after, changed_after};

use base::Refusal;
use reclaim::Counts;

// The two counts of clearing told, and 0; or the refusal's number.
fn tell_cleared(answer: Result<Counts, Refusal>, free_sectors: &mut u64, changed: &mut u64) -> u64
    ensures { (result ≡ refusal_number answer) × (free_sectors.new ≡ free_after free_sectors.old answer)
        × (changed.new ≡ changed_after changed.old answer) }
{
    match answer {
        Ok(counts) => {
            *free_sectors = counts.free as u64;
            *changed = counts.changed as u64;
            0
        }
        Err(why) => u64::from(why.number()),
    }
}

// Clears the free sectors of a D64 image.
#[unsafe(no_mangle)]
pub extern "C" fn fielbmaru_clear_d64(
    image: &mut [u8],
    free_sectors: &mut u64,
    changed: &mut u64,
) -> u64
    ensures { (result ≡ refusal_number (cleared_d64 image.old).outcome)
        × (image.new ≡ (cleared_d64 image.old).image)
        × (free_sectors.new ≡ free_after free_sectors.old (cleared_d64 image.old).outcome)
        × (changed.new ≡ changed_after changed.old (cleared_d64 image.old).outcome) }
{
    tell_cleared(reclaim::clear_d64(image), free_sectors, changed)
}

// Clears the free sectors of a G64 image, by the unique rule.
#[unsafe(no_mangle)]
pub extern "C" fn fielbmaru_clear_g64(
    image: &mut [u8],
    free_sectors: &mut u64,
    changed: &mut u64,
) -> u64
    ensures { (result ≡ refusal_number (cleared_g64 image.old).outcome)
        × (image.new ≡ (cleared_g64 image.old).image)
        × (free_sectors.new ≡ free_after free_sectors.old (cleared_g64 image.old).outcome)
        × (changed.new ≡ changed_after changed.old (cleared_g64 image.old).outcome) }
{
    tell_cleared(reclaim::clear_g64(image), free_sectors, changed)
}

// Clears the free sectors of a NIB image, by the consistent rule on each whole window.
#[unsafe(no_mangle)]
pub extern "C" fn fielbmaru_clear_nib(
    image: &mut [u8],
    free_sectors: &mut u64,
    changed: &mut u64,
) -> u64
    ensures { (result ≡ refusal_number (cleared_nib image.old).outcome)
        × (image.new ≡ (cleared_nib image.old).image)
        × (free_sectors.new ≡ free_after free_sectors.old (cleared_nib image.old).outcome)
        × (changed.new ≡ changed_after changed.old (cleared_nib image.old).outcome) }
{
    tell_cleared(reclaim::clear_nib(image), free_sectors, changed)
}
