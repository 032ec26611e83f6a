// A page of output, put together text by text: each method puts its text behind what the page holds. A piece that does not fit is left out.
ghost use Rattle.std.specs.Prelude.{◌≡◌, ◌+◌, ◌≤◌, [], ◌∷◌, ◌++◌, length, take, leb};
ghost use Rattle.page_text.specs.Numerals.{decimal as decimal_text};
ghost use Rattle.page.specs.Page.{sheet, writes, written};
ghost use Rattle.page.specs.Wording.{number_text, sum_text, refused_text};

// A page under way: the bytes that were lent, and the place where the next piece goes.
#[derive(Drop)]
pub struct Page<'a> {
    bytes: &'a mut [u8],
    place: usize,
}

impl<'a> Page<'a> {
    // A page with nothing written.
    pub fn new(bytes: &'a mut [u8]) -> Page<'a>
        ensures { result ≡ sheet bytes.entry 0 }
    {
        Page { bytes, place: 0 }
    }

    // A page that goes on at a place: what stands in front of it is kept.
    pub fn at(bytes: &'a mut [u8], place: usize) -> Page<'a>
        ensures { result ≡ sheet bytes.entry place }
    {
        Page { bytes, place }
    }

    // The place where the next piece goes: behind what is written.
    pub fn place(&self) -> usize
        ensures { result ≡ self.now.place }
    {
        let next = self.place;
        next
    }

    // Is there room for n more bytes?
    fn has_room(&self, n: usize) -> bool
        ensures { result ≡ leb (self.now.place + n) (length self.now.bytes.now) }
    {
        self.place <= self.bytes.len() && n <= self.bytes.len() - self.place
    }

    // Bytes as they are.
    pub fn words(&mut self, text: &[u8])
        ensures { self.new ≡ writes self.old (text.now ∷ []) }
    {
        if self.has_room(text.len()) {
            let bytes = &mut *self.bytes;
            self.place = page_text::put_bytes(bytes, self.place, text);
        }
    }

    // A label and a number in decimal, as one piece.
    fn labelled(&mut self, label: &[u8], n: u64)
        requires { length label.now ≤ 8 }
        ensures { self.new ≡ writes self.old ((label.now ++ decimal_text n) ∷ []) }
    {
        let mut piece = [0u8; 28];
        let digits = page_text::put_bytes(&mut piece, 0, label);
        let end = page_text::put_decimal(&mut piece, digits, n);
        self.words(so_far(&piece, end));
    }

    // The digits of a number.
    pub fn decimal(&mut self, n: u64)
        ensures { self.new ≡ writes self.old (decimal_text n ∷ []) }
    {
        self.labelled(b"", n);
    }

    // A space and a number.
    pub fn number(&mut self, n: u64)
        ensures { self.new ≡ writes self.old (number_text n ∷ []) }
    {
        self.labelled(b" ", n);
    }

    // A refusal by its number.
    pub fn refused(&mut self, n: u8)
        ensures { self.new ≡ writes self.old (refused_text n ∷ []) }
    {
        self.labelled(b"refused ", u64::from(n));
    }

    // A word and the digits of a number.
    pub fn valued(&mut self, word: &[u8], n: u64)
        ensures { self.new ≡ writes self.old (word.now ∷ decimal_text n ∷ []) }
    {
        self.words(word);
        self.decimal(n);
    }

    // A word, a space and a number.
    pub fn counted(&mut self, word: &[u8], n: u64)
        ensures { self.new ≡ writes self.old (word.now ∷ number_text n ∷ []) }
    {
        self.words(word);
        self.number(n);
    }

    // A checksum in eight hex digits, with the word sum before it.
    pub fn sum(&mut self, s: u32)
        ensures { self.new ≡ writes self.old (sum_text s ∷ []) }
    {
        let mut piece = [0u8; 13];
        page_text::put_bytes(&mut piece, 0, b" sum ");
        page_text::put_hex_word(&mut piece, 5, s);
        self.words(&piece);
    }

    // What is written so far.
    pub fn written(&self) -> &[u8]
        ensures { result.now ≡ written self.now }
    {
        so_far(self.bytes, self.place)
    }
}

// The first n bytes of a page, all of it where it has no more.
pub fn so_far(page: &[u8], n: usize) -> &[u8]
    ensures { result.now ≡ take n page.now }
{
    if page.len() < n {
        return page;
    }
    &page[..n]
}
