// Text into lent bytes, each piece behind the one before. Digits are written by hand: of `write!` it is known what it wrote only where
// it answers Ok, and nothing says that it does; here the bytes are promised, with no failure.
#![tactic(auto)]

ghost use Rattle.std.specs.Prelude.{◌≡◌, ◌+◌, ◌*◌, ◌<◌, ◌≤◌, length};
ghost use Rattle.text.specs.Text as Text;

fn letter(d: u32) -> u8
    requires { d < 16 }
    ensures { result ≡ Text.letter d }
{
    if d < 10 {
        b'0' + d as u8
    } else {
        b'a' + (d - 10) as u8
    }
}

// The last digits of n, as many as there are places, written from the last one on.
fn write_digits(out: &mut [u8], base: u32, n: u32)
    requires { (0 < base) × (base ≤ 16) }
    ensures { out.new ≡ Text.digits base (length out.old) n }
{
    let mut rest = n;
    for i in (0..out.len()).rev() {
        out[i] = letter(rest % base);
        rest /= base;
    }
}

// How many decimal digits n has.
fn places(n: u32) -> usize
    ensures { (result ≡ Text.places 9 n) × (result ≤ 10) }
{
    n.checked_ilog10().unwrap_or(0) as usize + 1
}

// Lent bytes, and how many of them are written.
#[derive(Debug, Drop)]
pub struct Writer<'a> {
    out: &'a mut [u8],
    len: usize,
}

impl<'a> Writer<'a> {
    ghost use Rattle.text.specs.Puts.{Begins, HasRoom, Writes};

    pub fn new(out: &'a mut [u8]) -> Writer<'a>
        ensures { Begins out.entry result }
    {
        Writer { out, len: 0 }
    }

    pub fn len(&self) -> usize
        ensures { result ≡ self.now.len }
    {
        self.len
    }

    pub fn put_text(&mut self, text: &[u8])
        requires { HasRoom (length text.now) self.old }
        ensures { Writes text.now self.old self.new }
    {
        let behind = self.len + text.len();
        self.out[self.len..behind].copy_from_slice(text);
        self.len = behind;
    }

    // The last k digits of n.
    fn put_digits(&mut self, base: u32, k: usize, n: u32)
        requires { (0 < base) × (base ≤ 16) × HasRoom k self.old }
        ensures { Writes (Text.digits base k n) self.old self.new }
    {
        let end = self.len + k;
        write_digits(&mut self.out[self.len..end], base, n);
        self.len = end;
    }

    pub fn put_decimal(&mut self, n: u32)
        requires { HasRoom 10 self.old }
        ensures { Writes (Text.decimal n) self.old self.new }
    {
        self.put_digits(10, places(n), n);
    }

    pub fn put_hex8(&mut self, n: u32)
        requires { HasRoom 8 self.old }
        ensures { Writes (Text.hex8 n) self.old self.new }
    {
        self.put_digits(16, 8, n);
    }
}
