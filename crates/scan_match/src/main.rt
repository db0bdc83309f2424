// The matching program: standard input holds a header and two clouds, standard output gets the pairs and their mean squared error.
#![tactic(auto)]

use std::io;

fn main(rt: HostRuntime) -> io::Result<()> {
    let mut bytes = [0u8; scan::IN];
    let mut out = [0u8; scan::OUT];
    let n = input::read_full(&mut rt.reader(), &mut bytes)?;
    let k = scan::answer_read(&bytes, n, &mut out);
    rt.write_all(&out[..k])
}
