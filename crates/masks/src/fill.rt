// Rows appended to a mask place: by words, and within a byte.
ghost use Rattle.std.specs.Prelude.{◌≡◌, ◌+◌, ◌%◌, ◌^◌, ◌<◌, ◌≤◌, replicate};
ghost use Rattle.bits.specs.Bits.{word_rows};
ghost use Rattle.masks.specs.Written.{HasRoom, Appended};

use crate::place::MaskPlace;
use bits::fill::topped;

// A word of 64 rows of one mark.
fn whole(set: bool) -> u64
    ensures { word_rows result 64 ≡ replicate 64 set }
{
    if set { u64::MAX } else { 0 }
}

impl<'a> MaskPlace<'a> {
    // Appends the 64 rows of a word, where the next row begins a byte. The bytes are as many at each call, so that copying them is one store.
    pub fn append_word(&mut self, w: u64)
        requires begins { self.old.len % 8 ≡ 0 }
        requires room { HasRoom self.old 64 }
        ensures { Appended self.old 64 (word_rows w 64) self.new }
    {
        let i = self.len / 8;
        self.bytes[i..i + 8].copy_from_slice(&w.to_le_bytes());
        self.len += 64;
    }

    // Appends the first n rows of a word whose other bits are 0, where the next row begins a byte.
    pub fn append_rows(&mut self, w: u64, n: usize)
        requires begins { self.old.len % 8 ≡ 0 }
        requires word { (n ≤ 64) × (w < 2 ^ n) }
        requires room { HasRoom self.old n }
        ensures { Appended self.old n (word_rows w n) self.new }
    {
        let i = self.len / 8;
        let used = n.div_ceil(8);
        self.bytes[i..i + used].copy_from_slice(&w.to_le_bytes()[..used]);
        self.len += n;
    }

    // Appends m rows of one mark within the byte that the next row falls in.
    fn append(&mut self, m: usize, set: bool)
        requires some { 0 < m }
        requires byte { self.old.len % 8 + m ≤ 8 }
        requires room { HasRoom self.old m }
        ensures { Appended self.old m (replicate m set) self.new }
    {
        let i = self.len / 8;
        let v = topped(self.bytes[i], self.len % 8, m, set);
        self.bytes[i] = v;
        self.len += m;
    }

    // Appends some of n rows of one mark, by a word where the next row begins a byte and n fill one, else within a byte.
    pub(crate) fn extend(&mut self, n: usize, set: bool) -> usize
        requires some { 0 < n }
        requires room { HasRoom self.old n }
        ensures some { (0 < result) × (result ≤ n) }
        ensures rows { Appended self.old result (replicate result set) self.new }
    {
        let used = self.len % 8;
        if used == 0 && n >= 64 {
            self.append_word(whole(set));
            return 64;
        }
        let m = (8 - used).min(n);
        self.append(m, set);
        m
    }
}
