// Bytes put into a lent area one after the other, as many as there is room for: single bytes, strings, decimal numbers, and zeros behind them.
#![tactic(auto)]

ghost use Rattle.std.specs.Prelude.{◌≡◌, ◌∷◌};
ghost use Rattle.decimal.specs.Decimal.{decimal};
ghost use Rattle.bytes_out.specs.Page.{page, put, puts, cleared, tab};
ghost use Rattle.bytes_out.specs.Lent.{page_of};

// "parted by one tab, each line ends in a line feed"
pub const TAB: u8 = 9;

pub const LINE_FEED: u8 = 10;

// a lent area, and the next place on it: one more than the area is long once a byte was lost
#[derive(Drop)]
pub struct Page<'a> {
    pub area: &'a mut [u8],
    pub at: usize,
}

impl Page<'_> {
    // one byte, if there is room
    #[tactic(auto, unfolding(crate::specs::Page::put))]
    pub fn put_byte(&mut self, byte: u8)
        ensures same_area { self.new.area.ghost_name ≡ self.old.area.ghost_name }
        ensures put { page_of self.new ≡ put (page_of self.old) byte }
    {
        if self.at < self.area.len() {
            self.area[self.at] = byte;
            self.at += 1;
        } else {
            self.at = self.area.len() + 1;
        }
    }

    #[tactic(auto, using(crate::proofs::Pages::puts_rest, crate::proofs::Pages::puts_end))]
    pub fn put_bytes(&mut self, bytes: &[u8])
        ensures same_area { self.new.area.ghost_name ≡ self.old.area.ghost_name }
        ensures put { page_of self.new ≡ puts (page_of self.old) bytes.now }
    {
        for byte in bytes {
            self.put_byte(*byte);
        }
    }

    #[tactic(auto, using(crate::proofs::Pages::puts_small, crate::proofs::Pages::puts_large))]
    pub fn put_decimal(&mut self, n: u64)
        ensures same_area { self.new.area.ghost_name ≡ self.old.area.ghost_name }
        ensures put { page_of self.new ≡ puts (page_of self.old) (decimal n) }
    {
        if n < 10 {
            self.put_byte(b'0' + n as u8);
        } else {
            self.put_decimal(n / 10);
            self.put_byte(b'0' + (n % 10) as u8);
        }
    }

    // a field behind others: a tab and the number
    #[tactic(auto, using(crate::proofs::Pages::puts_first))]
    pub fn put_field(&mut self, n: u64)
        ensures same_area { self.new.area.ghost_name ≡ self.old.area.ghost_name }
        ensures put { page_of self.new ≡ puts (page_of self.old) (tab ∷ decimal n) }
    {
        self.put_byte(TAB);
        self.put_decimal(n);
    }

    // zeros from the next place to the end
    #[tactic(auto, using(crate::proofs::Pages::clear_rest, crate::proofs::Pages::clear_end))]
    pub fn clear(&mut self)
        ensures same_area { self.new.area.ghost_name ≡ self.old.area.ghost_name }
        ensures cleared { page_of self.new ≡ page (cleared self.old.area.now self.old.at) self.old.at }
    {
        if self.at < self.area.len() {
            self.area[self.at..].fill(0);
        }
    }
}
