// A cloud with the queries that were asked of its tree.
#![tactic(auto)]

ghost use Rattle.std.specs.Prelude.{◌≤◌};

use search::Nearest;
use space::Point3f;
use std::io::Read;
use stream::{Answers, Kind};
use tree::{KdTree, Refusal};

// The slots that were built of a cloud. They stand in lists that the caller lends: held here they would be copied with the struct.
#[derive(Drop)]
pub struct Slots<'a> {
    coords: &'a [f32],
    indices: &'a [u32],
    count: usize,
    ghost lent: { count ≤ 1025 },
}

// How many were written; none and a difference where it was refused.
pub fn written(told: Result<usize, Refusal>, answers: &mut Answers<impl Read>) -> usize
    ensures { result ≤ 1025 }
{
    if let Ok(n) = told {
        if n <= stream::POINTS {
            return n;
        }
    }
    answers.tally(Kind::Differ);
    0
}

impl<'a> Slots<'a> {
    pub fn build(
        cloud: &[f32],
        coords: &'a mut [f32; stream::NUMBERS],
        indices: &'a mut [u32; stream::POINTS],
        answers: &mut Answers<impl Read>,
    ) -> Slots<'a> {
        let built = build::build(cloud, coords, indices);
        answers.tally(Kind::Build);
        let count = written(built, answers);
        Slots {
            coords: &coords[..3 * count],
            indices: &indices[..count],
            count,
        }
    }

    pub fn coords(&self) -> &'a [f32] {
        self.coords
    }

    pub fn indices(&self) -> &'a [u32] {
        self.indices
    }

    fn nearest(&self, query: Point3f, answers: &mut Answers<impl Read>) {
        answers.tally(Kind::Nearest);
        let told = search::find_nearest(self.coords(), self.indices(), query);
        same_nearest(told, answers);
    }

    fn bounded(&self, query: Point3f, bound: f32, seed: Nearest, answers: &mut Answers<impl Read>) {
        answers.tally(Kind::Bounded);
        let told = search::find_nearest_bounded(self.coords(), self.indices(), query, bound, seed);
        same_nearest(told, answers);
    }

    fn squares(&self, query: Point3f, k: u32, answers: &mut Answers<impl Read>) {
        answers.tally(Kind::Squares);
        same_entries(
            |found, far| {
                lists::find_k_nearest_into(
                    self.coords(),
                    self.indices(),
                    query,
                    k as usize,
                    found,
                    far,
                )
            },
            answers,
        );
    }

    fn roots(&self, query: Point3f, k: u32, answers: &mut Answers<impl Read>) {
        answers.tally(Kind::Roots);
        same_entries(
            |found, far| {
                lists::find_k_nearest(self.coords(), self.indices(), query, k as usize, found, far)
            },
            answers,
        );
    }

    fn within(&self, query: Point3f, radius: f32, answers: &mut Answers<impl Read>) {
        answers.tally(Kind::Radius);
        same_entries(
            |found, far| {
                radius::find_radius_neighbors(
                    self.coords(),
                    self.indices(),
                    query,
                    radius,
                    found,
                    far,
                )
            },
            answers,
        );
    }

    // One query: its entry, its point, the bound, k or radius, the seed; then the Rust's answer. The numbers of the entries are the
    // list's and are read here alone: an enum would only repeat the arms.
    fn ask(&self, answers: &mut Answers<impl Read>) {
        let entry = answers.word();
        let query = answers.point();
        let given = answers.word();
        let seed = read_seed(answers);
        let number = bits::f32_from_bits(given);
        match entry {
            1 => self.bounded(query, number, seed, answers),
            2 => self.squares(query, given, answers),
            3 => self.roots(query, given, answers),
            4 => self.within(query, number, answers),
            5 => self.nearest(query, answers),
            _ => answers.tally(Kind::Differ),
        }
    }

    // The checking entry says yes, and where the Rust fixes the layout the slots are its.
    fn check(&self, cloud: &[f32], layout: u32, answers: &mut Answers<impl Read>) {
        let yes = build::is_tree_of(cloud, self.coords(), self.indices()).unwrap_or(false);
        answers.judge(Kind::IsTree, yes);
        // A flag of the list, read here alone.
        if layout == 1 {
            answers.same_indices(self.indices());
        }
    }
}

fn same_nearest(told: Result<Nearest, Refusal>, answers: &mut Answers<impl Read>) {
    match told {
        Ok(Nearest::Found(i, d)) => {
            answers.same_word(1);
            answers.same_index(i);
            answers.same_float(d);
        }
        Ok(Nearest::Nothing) => answers.same_word(0),
        Err(_) => answers.tally(Kind::Differ),
    }
}

// A search into lists with room for every slot: its entries, as many as the Rust has.
fn same_entries<F: FnOnce(&mut [u32], &mut [f32]) -> Result<u32, Refusal>>(
    search: F,
    answers: &mut Answers<impl Read>,
)
    requires { F.IsAlwaysCallable search }
{
    let mut found = [0; stream::POINTS];
    let mut far = [0.0; stream::POINTS];
    let told = search(&mut found, &mut far);
    let n = written(told.map(|n| n as usize), answers);
    answers.same_word(n as u32);
    for (&i, &d) in found[..n].iter().zip(&far[..n]) {
        answers.same_index(i);
        answers.same_float(d);
    }
}

fn read_seed(answers: &mut Answers<impl Read>) -> Nearest {
    let i = answers.word();
    let d = answers.float();
    if i == KdTree::NO_CHILD {
        Nearest::Nothing
    } else {
        Nearest::Found(i, d)
    }
}

pub fn replay(answers: &mut Answers<impl Read>) {
    let layout = answers.word();
    let queries = answers.up_to(64);
    let n = answers.up_to(stream::POINTS);
    let mut numbers = [0.0; stream::NUMBERS];
    let cloud = &mut numbers[..3 * n];
    answers.read_floats(cloud);
    let mut coords = [0.0; stream::NUMBERS];
    let mut indices = [0; stream::POINTS];
    let slots = Slots::build(cloud, &mut coords, &mut indices, answers);
    answers.same_word(slots.count as u32);
    slots.check(cloud, layout, answers);
    for _ in 0..queries {
        slots.ask(answers);
    }
}
