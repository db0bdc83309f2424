// Reading from an input until there is enough, or until it ends.
#![tactic(auto)]

ghost use Rattle.std.specs.Prelude.{◌≡◌, ◌<◌, ◌≤◌, length, take, IfOk};
ghost use Rattle.std.specs.Io.KnownBytes.{Consumes, IsAtEnd};

use std::io;
use std::io::{ErrorKind, Read};

// One read, which is tried again where a signal interrupts it.
fn read_some<R: Read>(input: &mut R, bytes: &mut [u8]) -> io::Result<usize>
    ensures fits { IfOk result (λ n. n ≤ length bytes.new) }
    ensures given { IfOk result (λ n. Consumes (R.remaining input.old) (R.remaining input.new) (take n bytes.new)) }
    ensures ended { IfOk result (λ n. n ≡ 0 → 0 < length bytes.new → IsAtEnd (R.remaining input.new)) }
{
    for _ in 0..u64::MAX {
        match input.read(bytes) {
            Ok(n) => return Ok(n),
            Err(e) => {
                if e.kind() != ErrorKind::Interrupted {
                    return Err(e);
                }
            }
        }
    }
    Err(ErrorKind::Interrupted.into())
}

// Reads until the bytes are full or the input ends, and returns how many were read.
pub fn read_full<R: Read>(input: &mut R, bytes: &mut [u8]) -> io::Result<usize>
    ensures fits { IfOk result (λ n. n ≤ length bytes.new) }
    ensures given { IfOk result (λ n. Consumes (R.remaining input.old) (R.remaining input.new) (take n bytes.new)) }
    ensures ended { IfOk result (λ n. n < length bytes.new → IsAtEnd (R.remaining input.new)) }
{
    let mut n: usize = 0;
    // By as much as each read gives.
    while n < bytes.len() {
        let k = read_some(input, &mut bytes[n..])?;
        if k == 0 {
            break;
        }
        n += k;
    }
    Ok(n)
}
