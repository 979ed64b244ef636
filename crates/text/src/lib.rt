// Text in a lent slice: bytes, decimal numbers and hexadecimal texts, each written behind what stands there already; and what is read into one (input).
//
// Each function that writes is shown to write what the definition of its part in `rules` says, and no other byte. It asks for just that much room.
#![tactic(auto)]

pub mod input;

ghost use Rattle.std.specs.Prelude.{◌≡◌, [], ◌∷◌, ◌≤◌, length, drop};
ghost use Rattle.rules.specs.Listing as Listing;
ghost use Rattle.text.specs.Wrote.{HasRoom, Writes};
ghost use Rattle.text.specs.Numbers.{nums};

// The most digits of a number.
const DIGITS: usize = 20;

const BLANK: u8 = 32;

const MINUS: u8 = 45;

const ZERO: u8 = 48;

// What ten is written from.
const LETTERS: u8 = 87;

// The digits of a number at the end of d; answers where they begin.
#[tactic(auto, using(crate::proofs::Parts::digit_last, crate::proofs::Parts::digit_more, crate::proofs::Parts::no_digit))]
fn digits(d: &mut [u8], v: usize) -> usize
    requires { length d.old ≡ 20 }
    ensures { (result ≤ 20) × (drop result d.new ≡ Listing.digits 20 v []) }
{
    let mut x = v;
    for k in (0..DIGITS).rev() {
        d[k] = ZERO + (x % 10) as u8;
        if x < 10 {
            return k;
        }
        x /= 10;
    }
    0
}

// A digit as a byte: the library's `from_digit` gives a char that may be none.
#[tactic(auto, unfolding(rules::specs::Listing::hexDigit))]
fn hex_digit(v: u8) -> u8
    requires { v ≤ 15 }
    ensures { result ≡ Listing.hexDigit v }
{
    if v < 10 { ZERO + v } else { LETTERS + v }
}

// Lent bytes, and how many of them are written.
#[derive(Drop)]
pub struct Writer<'a> {
    pub out: &'a mut [u8],
    pub at: usize,
}

impl<'a> Writer<'a> {
    // Nothing is written yet.
    pub fn new(out: &'a mut [u8]) -> Writer<'a>
        ensures same_reference { result.out.ghost_name ≡ out.entry.ghost_name }
        ensures bytes { result.out.now ≡ out.entry.now }
        ensures none { result.at ≡ 0 }
    {
        Writer { out, at: 0 }
    }

    pub fn put(&mut self, b: u8)
        requires { HasRoom self.old (b ∷ []) }
        ensures { Writes self.old self.new (b ∷ []) }
    {
        self.out[self.at] = b;
        self.at += 1;
    }

    pub fn put_bytes(&mut self, s: &[u8])
        requires { HasRoom self.old s.now }
        ensures { Writes self.old self.new s.now }
    {
        let end = self.at + s.len();
        self.out[self.at..end].copy_from_slice(s);
        self.at = end;
    }

    pub fn put_digits(&mut self, v: usize)
        requires { HasRoom self.old (Listing.digits 20 v []) }
        ensures { Writes self.old self.new (Listing.digits 20 v []) }
    {
        let mut d = [0u8; DIGITS];
        let k = digits(&mut d, v);
        self.put_bytes(&d[k..]);
    }

    #[tactic(auto, using(crate::proofs::Writes::seq), unfolding(rules::specs::Listing::nat))]
    pub fn put_num(&mut self, v: usize)
        requires { HasRoom self.old (Listing.nat v) }
        ensures { Writes self.old self.new (Listing.nat v) }
    {
        self.put(BLANK);
        self.put_digits(v);
    }

    pub fn put_nums(&mut self, vs: &[usize])
        requires { HasRoom self.old (nums vs.now) }
        ensures { Writes self.old self.new (nums vs.now) }
    {
        for v in vs {
            self.put_num(*v);
        }
    }

    pub fn put_int(&mut self, z: i64)
        requires { HasRoom self.old (Listing.int z) }
        ensures { Writes self.old self.new (Listing.int z) }
    {
        self.put(BLANK);
        if z < 0 {
            self.put(MINUS);
        }
        self.put_digits(z.unsigned_abs() as usize);
    }

    pub fn put_hex(&mut self, s: &[u8])
        requires { HasRoom self.old (Listing.hex s.now) }
        ensures { Writes self.old self.new (Listing.hex s.now) }
    {
        for c in s {
            self.put(hex_digit(*c / 16));
            self.put(hex_digit(*c % 16));
        }
    }

    // A text, `-` if it is empty.
    pub fn put_text(&mut self, s: &[u8])
        requires { HasRoom self.old (Listing.hexText s.now) }
        ensures { Writes self.old self.new (Listing.hexText s.now) }
    {
        self.put(BLANK);
        match s {
            [] => self.put(MINUS),
            _ => self.put_hex(s),
        }
    }
}
