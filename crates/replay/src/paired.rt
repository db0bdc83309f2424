// Two clouds matched with seeds, and the sums of their pairs; limits.
use asked::Slots;
use std::io::Read;
use stream::{Answers, Kind};
use sums::CorrespondenceStats;

fn read_limit(answers: &mut Answers<impl Read>) -> Option<f32> {
    let limited = answers.word();
    let d = answers.float();
    // A flag of the list, read here alone.
    if limited == 1 { Some(d) } else { None }
}

// A limit, whose bound is compared.
fn limit(answers: &mut Answers<impl Read>) -> Option<f32> {
    let limit = read_limit(answers);
    answers.tally(Kind::Limit);
    answers.same_float(matching::max_distance_sq(limit));
    limit
}

pub fn limits(answers: &mut Answers<impl Read>) {
    for _ in 0..answers.up_to(1024) {
        limit(answers);
    }
}

// The pairs of a match list, as many as the Rust has.
fn same_pairs(matches: &[u32], answers: &mut Answers<impl Read>) {
    let mut sources = [0; stream::POINTS];
    let mut targets = [0; stream::POINTS];
    let paired = matching::correspondence_pairs(matches, &mut sources, &mut targets);
    answers.tally(Kind::Pairs);
    let n = asked::written(paired, answers);
    answers.same_word(n as u32);
    for (&source, &target) in sources[..n].iter().zip(&targets[..n]) {
        answers.same_index(source);
        answers.same_index(target);
    }
}

fn same_sums(s: CorrespondenceStats, answers: &mut Answers<impl Read>) {
    answers.same_vector(s.sum_source);
    answers.same_vector(s.sum_target);
    answers.same_vector(s.sum_outer_x);
    answers.same_vector(s.sum_outer_y);
    answers.same_vector(s.sum_outer_z);
    answers.same_double(s.sum_sq_error);
    answers.tally(Kind::Mse);
    answers.same_float(s.mse());
}

// The count, and the sums where they can be equal to the Rust's.
fn collect(source: &[f32], target: &[f32], matches: &[u32], answers: &mut Answers<impl Read>) {
    answers.tally(Kind::Sums);
    let comparable = answers.word();
    match CorrespondenceStats::collect(source, target, matches) {
        Ok(sums) => {
            answers.same_word(sums.count);
            // A flag of the list, read here alone.
            if comparable == 1 {
                same_sums(sums, answers);
            }
        }
        Err(_) => answers.tally(Kind::Differ),
    }
}

pub fn replay(answers: &mut Answers<impl Read>) {
    let limit = limit(answers);
    let n = answers.up_to(stream::POINTS);
    let k = answers.up_to(stream::POINTS);
    let mut source = [0.0; stream::NUMBERS];
    let mut target = [0.0; stream::NUMBERS];
    let mut matches = [0; stream::POINTS];
    let mut coords = [0.0; stream::NUMBERS];
    let mut indices = [0; stream::POINTS];
    let source = &mut source[..3 * n];
    let target = &mut target[..3 * k];
    let matches = &mut matches[..n];
    answers.read_floats(source);
    answers.read_floats(target);
    let slots = Slots::build(target, &mut coords, &mut indices, answers);
    answers.read_words(matches);
    let matched = matching::find_correspondences_seeded(
        source,
        target,
        slots.coords(),
        slots.indices(),
        limit,
        matches,
    );
    answers.judge(Kind::Matching, matched.is_ok());
    answers.same_indices(matches);
    same_pairs(matches, answers);
    collect(source, target, matches, answers);
}
