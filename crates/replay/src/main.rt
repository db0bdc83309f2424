// Replays a stored list of the given Rust's answers (oracle/README.md says how it was made) through the proved entries, compares bit by
// bit, every NaN as one, and writes how many cases, calls of each entry, values and indices there were, and how many differ.
#![tactic(auto)]

mod paired;
mod placed;

use std::io;
use std::io::Read;
use stream::{Answers, Kind};

// The list's first word.
const MAGIC: u32 = 0x3254_444b;

// What is written: each count under its name.
const COUNTS: [(Kind, &str); stream::KINDS] = [
    (Kind::Cases, "cases"),
    (Kind::Build, "build"),
    (Kind::IsTree, "is_tree_of"),
    (Kind::Nearest, "nearest"),
    (Kind::Bounded, "bounded"),
    (Kind::Squares, "k_squares"),
    (Kind::Roots, "k_roots"),
    (Kind::Radius, "radius"),
    (Kind::Limit, "limit"),
    (Kind::Matching, "matching"),
    (Kind::Pairs, "pairs"),
    (Kind::Sums, "sums"),
    (Kind::Mse, "mse"),
    (Kind::Scale, "scale"),
    (Kind::Centred, "centred"),
    (Kind::Frame, "frame"),
    (Kind::Local, "local"),
    (Kind::Values, "values"),
    (Kind::Indices, "indices"),
    (Kind::Differ, "differ"),
];

// The numbers of the cases are the list's and are read here alone: an enum would only repeat the arms.
fn replay_case(answers: &mut Answers<impl Read>) {
    answers.tally(Kind::Cases);
    match answers.word() {
        1 => asked::replay(answers),
        2 => paired::replay(answers),
        3 => placed::replay(answers),
        4 => paired::limits(answers),
        _ => answers.tally(Kind::Differ),
    }
}

fn replay(answers: &mut Answers<impl Read>) {
    if answers.word() != MAGIC {
        answers.tally(Kind::Differ);
    }
    let cases = answers.up_to(65536);
    for _ in 0..cases {
        replay_case(answers);
    }
    answers.end();
}

fn main(rt: HostRuntime) -> io::Result<()> {
    let mut answers = Answers::new(rt.reader());
    replay(&mut answers);
    for (kind, name) in COUNTS {
        println!(rt; "{name} {}", answers.count(kind))?;
    }
    Ok(())
}
