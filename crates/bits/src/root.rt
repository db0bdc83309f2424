// Square roots, correctly rounded, by whole numbers and their squares: the digits of the root, with a remainder that fits 64 bits.
#![tactic(auto, using(crate::proofs::RootGuess::product, crate::proofs::RootGuess::positive))]

ghost use Rattle.std.specs.Prelude.{◌≡◌, ℕ, suc, refl, ◌+◌, ◌*◌, ◌^◌, ◌<◌, ◌≤◌, from_bits, to_bits};
ghost use Rattle.std.specs.Float.{Format, binary32, binary64};
ghost use Rattle.std.specs.Float.Ieee.{prec, low, hid, ones};
ghost use Rattle.bits.specs.Root.{root};
ghost use Rattle.bits.specs.Scaled.{IsScaled};
ghost use Rattle.bits.specs.Partial.{number_of, IsRootSoFar};

// A step towards 2^46 over the root of a, by Newton's rule, from y. `three` is 3 * 2^30 and 2^32, so that nothing falls below zero, or a little more,
// which makes up for steps that always fall short.
fn nearer(a: u64, y: u64, three: u64) -> u64
    requires { (a < 2 ^ 32) × (y < 2 ^ 32) × (2 ^ 32 ≤ three) × (three < 2 ^ 33) }
    ensures { result < 2 ^ 32 }
{
    let square = ((y * y) >> 30) % 0x1_0000_0000;
    let factor = (three - ((a * square) >> 32)) % 0x1_0000_0000;
    ((y * factor) >> 31) % 0x1_0000_0000
}

// In all likelihood the first 24 digits of the root, or one more than that. Nothing rests on it.
fn guess(ahead: u64) -> u64
    ensures { result < 2 ^ 32 }
{
    let a = ahead >> 32;
    let y0 = 0x8795_8106 - ((a * 19) >> 6);
    let y1 = nearer(a, y0, 0x1_c0c8_f870);
    let y2 = nearer(a, y1, 0x1_c000_ed9f);
    let y3 = nearer(a, y2, 0x1_c000_0000);
    (((a * y3) >> 37) + 1) >> 1
}

// One less, where the square is too great.
fn lowered(n: u64, root: u64) -> u64
    requires { root < 2 ^ 32 }
    ensures { result ≤ root }
{
    if n < root * root { root - 1 } else { root }
}

// The digits of a root found so far, what their square leaves of the number so far, and the number's digits still to come: the next in the
// highest places, zeros behind the last. That the root is the greatest is no ghost field: in a loop's invariant a struct that has one
// loses the names of its fields, and the invariant has to repeat the fact.
#[derive(Clone, Copy)]
struct Partial {
    root: u64,
    rest: u64,
    ahead: u64,
}

impl Partial {
    // One digit more, for two more of the number: 1 where the square still fits.
    fn longer(self) -> Partial
        requires largest { self.rest ≤ 2 * self.root }
        requires length { self.root < 2 ^ 60 }
        ensures number { IsRootSoFar (4 * number_of self) result }
        ensures length { result.root ≤ 2 * self.root + 1 }
    {
        let rest = self.rest * 4 + (self.ahead >> 62);
        let step = self.root * 4 + 1;
        let digit = (step <= rest) as u64;
        let root = self.root * 2 + digit;
        let left = rest - step * digit;
        Partial {
            root,
            rest: left,
            ahead: self.ahead << 2,
        }
    }

    // The first `count` digits of the root of a number that has twice as many.
    fn by_digits(ahead: u64, count: u64) -> Partial
        requires { count ≤ 60 }
        ensures number { IsRootSoFar (ahead * (2 ^ count * 2 ^ count)) result }
        ensures length { result.root < 2 ^ count }
    {
        let mut d = Partial {
            root: 0,
            rest: 0,
            ahead,
        };
        for _ in 0..count {
            d = d.longer();
        }
        d
    }

    // The same. Of 24 digits the root is guessed, and taken if its square and the next one's tell that it is right: where roots are
    // many, the digits one by one would take most of the time.
    fn first(ahead: u64, count: u64) -> Partial
        requires { count ≤ 60 }
        ensures number { IsRootSoFar (ahead * (2 ^ count * 2 ^ count)) result }
        ensures length { result.root < 2 ^ count }
    {
        if count == 24 {
            let n = ahead >> 16;
            let root = lowered(n, guess(ahead));
            let square = root * root;
            if square <= n && n <= square + 2 * root {
                return Partial {
                    root,
                    rest: n - square,
                    ahead: ahead << 48,
                };
            }
        }
        Partial::by_digits(ahead, count)
    }
}

// The format of a float: how many digits it keeps, the first of them as a bit of the pattern, and that its smallest value is 2^-LOW.
trait Binary {
    ghost format: { Format };

    ghost PRECISION: { ℕ };

    ghost LEADING: { ℕ };

    ghost LOW: { ℕ };

    const PRECISION: u64;

    const LEADING: u64;

    const LOW: u64;

    ghost precision_is: { prec format ≡ PRECISION };

    ghost leading_is: { hid format ≡ LEADING };

    ghost low_is: { low format ≡ LOW };
}

impl Binary for f32 {
    ghost format = { binary32 };

    ghost PRECISION = { 24 };

    ghost LEADING = { 8388608 };

    ghost LOW = { 149 };

    const PRECISION: u64 = 24;

    const LEADING: u64 = 0x80_0000;

    const LOW: u64 = 149;

    ghost precision_is = { refl };

    ghost leading_is = { refl };

    ghost low_is = { refl };
}

impl Binary for f64 {
    ghost format = { binary64 };

    ghost PRECISION = { 53 };

    ghost LEADING = { 4503599627370496 };

    ghost LOW = { 1074 };

    const PRECISION: u64 = 53;

    const LEADING: u64 = 0x10_0000_0000_0000;

    const LOW: u64 = 1074;

    ghost precision_is = { refl };

    ghost leading_is = { refl };

    ghost low_is = { refl };
}

// digits * 2^exponent, in squares of a format's smallest value.
#[derive(Clone, Copy)]
struct Scaled {
    digits: u64,
    exponent: u64,
}

// The finite value above zero that has the bits b. With no exponent it is subnormal, and b counts smallest values.
fn to_scaled<F: Binary>(b: u64) -> Scaled
    requires { (0 < b) × (b < ones F.format * hid F.format) }
    ensures { IsScaled F.format b result.digits result.exponent }
{
    let leading = F::LEADING;
    if b < leading {
        Scaled {
            digits: b,
            exponent: F::LOW,
        }
    } else {
        Scaled {
            digits: b % leading + leading,
            exponent: b / leading + (F::LOW - 1),
        }
    }
}

// The bits of its root.
// The value's digits go to the highest places, or one lower: what is left is an even power of two, whose half is the root's exponent.
fn root_bits<F: Binary>(b: u64) -> u64
    requires { (0 < b) × (b < ones F.format * hid F.format) }
    ensures { result ≡ to_bits F.format (root F.format (from_bits F.format b)) }
{
    let p = F::PRECISION;
    let n = to_scaled::<F>(b);
    let top = n.digits.ilog2() as u64;
    let excess = n.exponent + 2 + top - 2 * p;
    let d = Partial::first(n.digits << (62 - top + excess % 2), p);
    let bits = ((excess / 2) << (p - 1)) + d.root;
    if d.root < d.rest { bits + 1 } else { bits }
}

// The square root, correctly rounded: -0 gives -0, infinity infinity, below zero and NaN a NaN.
pub fn sqrt_f32(x: f32) -> f32
    ensures { result ≡ root binary32 x }
{
    if 0.0f32 < x {
        let b = x.to_bits();
        if b == 0x7f80_0000 {
            return x;
        }
        return f32::from_bits(root_bits::<f32>(b as u64) as u32);
    }
    if x < 0.0f32 {
        return f32::NAN;
    }
    x
}

// The same for an f64. What is left twice are the type's own operations: a trait of these would be longer than the function.
pub fn sqrt_f64(x: f64) -> f64
    ensures { result ≡ root binary64 x }
{
    if 0.0f64 < x {
        let b = x.to_bits();
        if b == 0x7ff0_0000_0000_0000 {
            return x;
        }
        return f64::from_bits(root_bits::<f64>(b));
    }
    if x < 0.0f64 {
        return f64::NAN;
    }
    x
}
