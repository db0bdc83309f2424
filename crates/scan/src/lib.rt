// The matching program, as one function from the bytes of its input to the bytes of its output.
#![tactic(auto)]

mod input;
mod lines;

ghost use Rattle.std.specs.Prelude.{◌≡◌, false, ◌+◌, ◌*◌, ◌≤◌, length};
ghost use Rattle.tree.specs.Refuse.{gives, count, any_entry_outside};
ghost use Rattle.text.specs.Puts.{HasRoom, Writes};
ghost use Rattle.scan.specs.Program.{matches_of, report, answered, program};
ghost use Rattle.scan.specs.Promises.{Counted, Ready, Unseeded, Answers, AnswersRead};

use input::Counts;
use sums::CorrespondenceStats;
use text::Writer;
use tree::KdTree;

// One byte more than the longest input has.
pub const IN: usize = 24593;

// Bytes in which every output has room.
pub const OUT: usize = 22558;

// The match list of the source in the tree of the target, without limit or seeds.
fn match_clouds(source: &[f32], target: &[f32], matches: &mut [u32])
    requires { Ready source.now target.now matches.old × Unseeded matches.old }
    ensures { (matches.new ≡ matches_of source.now target.now) × (any_entry_outside (count target.now) matches.new ≡ false) }
{
    let mut coords = [0.0f32; 3072];
    let mut indices = [0u32; 1024];
    let m = build::build(target, &mut coords, &mut indices).unwrap();
    let k = 3 * m;
    matching::find_correspondences_seeded(
        source,
        target,
        &coords[..k],
        &indices[..m],
        None,
        matches,
    ).unwrap();
}

// The pairs and the mean squared error of a match list.
fn write_report(source: &[f32], target: &[f32], matches: &[u32], w: &mut Writer)
    requires { Ready source.now target.now matches.now × (any_entry_outside (count target.now) matches.now ≡ false) × HasRoom 22558 w.old }
    ensures { Writes (report source.now target.now matches.now) w.old w.new }
{
    let mut sources = [0u32; 1024];
    let mut targets = [0u32; 1024];
    let n = matching::correspondence_pairs(matches, &mut sources, &mut targets).unwrap();
    let stats = CorrespondenceStats::collect(source, target, matches).unwrap();
    lines::put_report(w, &sources[..n], &targets[..n], stats.mse());
}

fn match_and_write(source: &[f32], target: &[f32], matches: &mut [u32], w: &mut Writer)
    requires { Ready source.now target.now matches.old × Unseeded matches.old × HasRoom 22558 w.old }
    ensures { Writes (report source.now target.now (matches_of source.now target.now)) w.old w.new }
{
    match_clouds(source, target, matches);
    write_report(source, target, matches, w);
}

// The report on an input whose header is right.
fn report(bytes: &[u8], counts: Counts, w: &mut Writer)
    requires { Counted counts (length bytes.now) × HasRoom 22558 w.old }
    ensures { Writes (answered bytes.now (gives counts)) w.old w.new }
{
    let mut source = [0.0f32; 3072];
    let mut target = [0.0f32; 3072];
    let mut matches = [KdTree::NO_CHILD; 1024];
    let end = 16 + 12 * counts.source;
    input::read_numbers(&bytes[16..end], &mut source);
    input::read_numbers(&bytes[end..], &mut target);
    match_and_write(
        &source[..3 * counts.source],
        &target[..3 * counts.target],
        &mut matches[..counts.source],
        w,
    );
}

fn write_answer(bytes: &[u8], w: &mut Writer)
    requires { HasRoom 22558 w.old }
    ensures { Writes (program bytes.now) w.old w.new }
{
    match input::read_header(bytes) {
        Ok(counts) => report(bytes, counts, w),
        Err(refusal) => lines::put_refusal(w, refusal),
    }
}

// What the program writes, from what it read: the bytes go to the front of the lent ones, and their number is returned.
pub fn answer(bytes: &[u8], out: &mut [u8; OUT]) -> usize
    ensures { Answers bytes.now out.old result out.new }
{
    let mut w = Writer::new(out);
    write_answer(bytes, &mut w);
    w.len()
}

// The same from the first n of the lent bytes, into which an input was read: one that filled them may go on, and its answer is known all the same.
pub fn answer_read(bytes: &[u8; IN], n: usize, out: &mut [u8; OUT]) -> usize
    ensures { AnswersRead bytes.now n out.old result out.new }
{
    answer(&bytes[..n.min(IN)], out)
}
