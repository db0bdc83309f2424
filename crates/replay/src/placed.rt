// A cloud's scale, the frame at its mean, the frame if it is far from the origin, and its points in that frame.
use frame::{CloudScale, LocalFrame};
use std::io::Read;
use stream::{Answers, Kind};

fn scale(cloud: &[f32], answers: &mut Answers<impl Read>) {
    answers.tally(Kind::Scale);
    match CloudScale::of(cloud) {
        Ok(scale) => {
            answers.same_point(scale.centroid);
            answers.same_float(scale.radius);
        }
        Err(_) => answers.tally(Kind::Differ),
    }
}

fn centred(cloud: &[f32], answers: &mut Answers<impl Read>) {
    answers.tally(Kind::Centred);
    match LocalFrame::centred_on(cloud) {
        Ok(frame) => answers.same_vector(frame.origin),
        Err(_) => answers.tally(Kind::Differ),
    }
}

fn locals(frame: LocalFrame, cloud: &[f32], answers: &mut Answers<impl Read>) {
    for i in 0..cloud.len() / 3 {
        answers.tally(Kind::Local);
        answers.same_point(frame.point_to_local(tree::point_at(cloud, i)));
    }
}

fn framed(cloud: &[f32], answers: &mut Answers<impl Read>) {
    answers.tally(Kind::Frame);
    match LocalFrame::if_far_from_origin(cloud) {
        Ok(Some(frame)) => {
            answers.same_word(1);
            answers.same_vector(frame.origin);
            locals(frame, cloud, answers);
        }
        Ok(None) => answers.same_word(0),
        Err(_) => answers.tally(Kind::Differ),
    }
}

pub fn replay(answers: &mut Answers<impl Read>) {
    let n = answers.up_to(stream::POINTS);
    let mut numbers = [0.0; stream::NUMBERS];
    let cloud = &mut numbers[..3 * n];
    answers.read_floats(cloud);
    scale(cloud, answers);
    centred(cloud, answers);
    framed(cloud, answers);
}
