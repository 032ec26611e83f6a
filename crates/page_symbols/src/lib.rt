// A bad symbol in words, put on a page.
ghost use Rattle.std.specs.Prelude.{◌≡◌, [], ◌∷◌};
ghost use Rattle.page.specs.Page.{writes};
ghost use Rattle.page.specs.Wording.{number_text};
ghost use Rattle.page_symbols.specs.Symbols.{behind_text, name_text, symbol_line};

use page::Page;
use scan::BadSymbol;

// The index of a symbol and its bit, each behind a word.
fn put_numbers(page: &mut Page, word: &[u8], index: usize, middle: &[u8], bit: usize)
    ensures { page.new ≡ writes page.old (word.now ∷ number_text index ∷ middle.now ∷ number_text bit ∷ []) }
{
    page.counted(word, index as u64);
    page.counted(middle, bit as u64);
}

// Behind what a line says; nothing where none was met.
pub fn put_behind(page: &mut Page, bad: Option<BadSymbol>)
    ensures { page.new ≡ writes page.old (behind_text bad) }
{
    match bad {
        None => (),
        Some(BadSymbol::InHeader(k, bit)) => {
            put_numbers(page, b"; first bad symbol", k, b" of a header, at bit", bit);
        }
        Some(BadSymbol::InData(k, bit)) => {
            put_numbers(
                page,
                b"; first bad symbol",
                k,
                b" of a data block, at bit",
                bit,
            );
        }
    }
}

fn put_name(page: &mut Page, bad: Option<BadSymbol>)
    ensures { page.new ≡ writes page.old (name_text bad) }
{
    match bad {
        None => page.words(b"none"),
        Some(BadSymbol::InHeader(k, bit)) => put_numbers(page, b"header symbol", k, b" bit", bit),
        Some(BadSymbol::InData(k, bit)) => put_numbers(page, b"data symbol", k, b" bit", bit),
    }
}

// A line of its own.
pub fn put_line(page: &mut Page, bad: Option<BadSymbol>)
    ensures { page.new ≡ writes page.old (symbol_line bad) }
{
    put_name(page, bad);
    page.words(b"\n");
}
