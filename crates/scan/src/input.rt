// The header and the numbers of the input.
ghost use Rattle.std.specs.Prelude.{◌≡◌, ◌+◌, ◌*◌, ◌/◌, ◌≤◌, length, IfOk};
ghost use Rattle.tree.specs.Refuse.{overwrite};
ghost use Rattle.tree.specs.Refusal.{outcome_of};
ghost use Rattle.scan.specs.Input as Input;
ghost use Rattle.scan.specs.Promises.{Counted};

use tree::Refusal;

// How many points the source and the target have.
#[derive(Clone, Copy, Debug, PartialEq, Eq)]
pub struct Counts {
    pub source: usize,
    pub target: usize,
}

// Points of a cloud, at most.
const MOST: usize = 1024;

// The u32 whose four bytes begin at a place, the lowest first.
fn word(bytes: &[u8], at: usize) -> u32
    requires { at + 4 ≤ length bytes.now }
    ensures { result ≡ Input.word bytes.now at }
{
    u32::from_le_bytes([bytes[at], bytes[at + 1], bytes[at + 2], bytes[at + 3]])
}

// The counts, if the header and the length of the input are right.
pub fn read_header(bytes: &[u8]) -> Result<Counts, Refusal>
    ensures rule { outcome_of result ≡ Input.header bytes.now }
    ensures counted { IfOk result (λ n. Counted n (length bytes.now)) }
{
    let n = bytes.len();
    if n < 16 {
        return Err(Refusal::UnfitLengths);
    }
    let source = word(bytes, 0) as usize;
    let source_at = word(bytes, 4) as usize;
    let target = word(bytes, 8) as usize;
    let target_at = word(bytes, 12) as usize;
    if MOST < source || MOST < target {
        return Err(Refusal::TooMany);
    }
    if source == 0 || target == 0 {
        return Err(Refusal::NothingToMatch);
    }
    let end = 16 + 12 * source;
    if source_at != 16 || target_at != end || n != end + 12 * target {
        return Err(Refusal::UnfitLengths);
    }
    Ok(Counts { source, target })
}

// The numbers whose bytes are lent, written to the front of the other list. No zip with `chunks_exact`: of what is written behind an
// adapter of `iter_mut` but `enumerate` nothing is known afterwards.
pub fn read_numbers(bytes: &[u8], to: &mut [f32])
    requires { length bytes.now / 4 ≤ length to.old }
    ensures { to.new ≡ overwrite (Input.numbers bytes.now 0 (length bytes.now / 4)) to.old }
{
    let n = bytes.len() / 4;
    for (i, x) in to[..n].iter_mut().enumerate() {
        *x = bits::f32_from_bits(word(bytes, 4 * i));
    }
}
