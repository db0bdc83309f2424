// k nearest and radius run on 01's cloud K and at the boundaries: the answer and both lent lists, whole, are written and compared with the
// file `stdout`.
#![tactic(auto)]

use space::Point3f;
use std::io;
use tree::Refusal;

const INF: f32 = f32::INFINITY;

const ORIGIN: Point3f = Point3f {
    x: 0.0,
    y: 0.0,
    z: 0.0,
};

// What stands in lent lists of five before a search.
const FOUND: [u32; 5] = [91, 92, 93, 94, 95];

const FAR: [f32; 5] = [0.5, 1.5, 2.5, 3.5, 4.5];

fn write(
    rt: &impl Print,
    listed: Result<u32, Refusal>,
    found: &[u32],
    far: &[f32],
) -> io::Result<()> {
    match listed {
        Ok(n) => print!(rt; " count {n} :")?,
        Err(refusal) => print!(rt; " refused {} :", refusal.number())?,
    }
    trial::write_each(rt, found.iter().copied())?;
    print!(rt; " :")?;
    trial::write_floats(rt, far)?;
    println!(rt)
}

// The slots of a tree.
#[derive(Clone, Copy)]
struct Slots<'a> {
    coords: &'a [f32],
    indices: &'a [u32],
}

impl Slots<'_> {
    // One method for each of two entries: a parameter for the entry would have to say what it asks of the lists.
    fn show_squares(
        self,
        rt: &impl Print,
        query: Point3f,
        k: usize,
        found: &mut [u32],
        far: &mut [f32],
    ) -> io::Result<()> {
        let listed = lists::find_k_nearest_into(self.coords, self.indices, query, k, found, far);
        write(rt, listed, found, far)
    }

    fn show_roots(
        self,
        rt: &impl Print,
        query: Point3f,
        k: usize,
        found: &mut [u32],
        far: &mut [f32],
    ) -> io::Result<()> {
        let listed = lists::find_k_nearest(self.coords, self.indices, query, k, found, far);
        write(rt, listed, found, far)
    }

    // Squares and then roots, into lists of five.
    fn show_k(self, rt: &impl Print, query: Point3f, k: usize) -> io::Result<()> {
        let mut found = FOUND;
        let mut far = FAR;
        self.show_squares(rt, query, k, &mut found, &mut far)?;
        found = FOUND;
        far = FAR;
        self.show_roots(rt, query, k, &mut found, &mut far)
    }

    fn show_within(self, rt: &impl Print, query: Point3f, radius: f32) -> io::Result<()> {
        let mut found = FOUND;
        let mut far = FAR;
        let listed = radius::find_radius_neighbors(
            self.coords,
            self.indices,
            query,
            radius,
            &mut found,
            &mut far,
        );
        write(rt, listed, &found, &far)
    }
}

fn point(x: f32, y: f32, z: f32) -> Point3f {
    Point3f { x, y, z }
}

// Examples 8 and 9; radius 1 gives 0 only; k = 0, the first alone of two that are as far, more than all.
fn show_counts(rt: &impl Print, slots: Slots, query: Point3f) -> io::Result<()> {
    slots.show_k(rt, query, 4)?;
    slots.show_within(rt, query, 1.5)?;
    slots.show_within(rt, query, 1.0)?;
    slots.show_k(rt, query, 0)?;
    slots.show_k(rt, query, 2)?;
    slots.show_k(rt, query, usize::MAX)
}

// A point found where it stands. Both zeros, a negative one, NaN; one whose square is 0; infinity.
fn show_radii(rt: &impl Print, slots: Slots, query: Point3f) -> io::Result<()> {
    for radius in [0.5, 0.0, -0.0, -1.5, f32::NAN, bits::f32_from_bits(1), INF] {
        slots.show_within(rt, query, radius)?;
    }
    Ok(())
}

// Every distance overflows or is a NaN: below no k-th distance; within a radius whose square overflows, unless it is a NaN.
fn show_overflow(rt: &impl Print, slots: Slots) -> io::Result<()> {
    let away = point(2.0e38, 0.0, 0.0);
    slots.show_k(rt, away, 4)?;
    slots.show_within(rt, away, INF)?;
    slots.show_within(rt, away, 2.0e19)?;
    slots.show_within(rt, away, 1.0e19)?;
    let nowhere = point(f32::NAN, 0.0, 0.0);
    slots.show_k(rt, nowhere, 4)?;
    slots.show_within(rt, nowhere, INF)
}

// The tree of K.
fn show_on_k(rt: &impl Print) -> io::Result<()> {
    let slots = Slots {
        coords: &[0.0, 5.0, 0.0, 0.0, 0.0, 0.0, 1.0, 0.0, 0.0, 2.0, 0.0, 0.0],
        indices: &[3, 1, 0, 2],
    };
    show_counts(rt, slots, point(1.0, 1.0, 0.0))?;
    show_radii(rt, slots, point(2.0, 0.0, 0.0))?;
    show_overflow(rt, slots)
}

// The tree of (0,0,0), (2e38,0,0), (1,0,0): only the second's distance overflows.
fn show_one_away(rt: &impl Print) -> io::Result<()> {
    let slots = Slots {
        coords: &[1.0, 0.0, 0.0, 0.0, 0.0, 0.0, 2.0e38, 0.0, 0.0],
        indices: &[2, 0, 1],
    };
    slots.show_k(rt, ORIGIN, 3)?;
    slots.show_within(rt, ORIGIN, INF)?;
    slots.show_within(rt, ORIGIN, 1.0e19)
}

// The tree of five points at one place: all tie, and the query's side decides; the lists are exactly full.
fn show_five(rt: &impl Print) -> io::Result<()> {
    let slots = Slots {
        coords: &[0.0; 15],
        indices: &[2, 0, 1, 3, 4],
    };
    let right = point(1.0, 1.0, 0.0);
    let left = point(-1.0, 1.0, 0.0);
    slots.show_k(rt, right, 3)?;
    slots.show_k(rt, left, 5)?;
    slots.show_within(rt, right, 2.0)?;
    slots.show_within(rt, left, 2.0)?;
    show_rooms(rt, slots, right)
}

// Either list one short for five slots; no room where none is needed.
fn show_rooms(rt: &impl Print, slots: Slots, query: Point3f) -> io::Result<()> {
    slots.show_squares(
        rt,
        query,
        5,
        &mut [91, 92, 93, 94],
        &mut [0.5, 1.5, 2.5, 3.5, 4.5],
    )?;
    slots.show_roots(
        rt,
        query,
        9,
        &mut [91, 92, 93, 94, 95],
        &mut [0.5, 1.5, 2.5, 3.5],
    )?;
    slots.show_roots(rt, query, 0, &mut [], &mut [])
}

// The tree of six points at one place: lists of five are one short, unless no more are asked for; radius needs room for all, whatever it is.
// Lengths that do not fit come first. No slots.
fn show_six(rt: &impl Print) -> io::Result<()> {
    let coords = [0.0; 18];
    let indices = [2, 0, 1, 4, 3, 5];
    let six = Slots {
        coords: &coords,
        indices: &indices,
    };
    let query = point(1.0, 1.0, 0.0);
    six.show_k(rt, query, 6)?;
    six.show_k(rt, query, 5)?;
    six.show_within(rt, query, 0.0)?;
    let ragged = Slots {
        coords: &coords[..17],
        indices: &indices,
    };
    ragged.show_k(rt, query, 6)?;
    let short = Slots {
        coords: &coords,
        indices: &indices[..5],
    };
    short.show_within(rt, query, 2.0)?;
    let none = Slots {
        coords: &[],
        indices: &[],
    };
    none.show_k(rt, query, 4)?;
    none.show_within(rt, query, 2.0)
}

// No tree: the nearest stands on the wrong side of the root. Its plane at 1 is not below a k-th distance of 1, but is within radius 1.
fn show_no_tree(rt: &impl Print) -> io::Result<()> {
    let slots = Slots {
        coords: &[0.0, 0.0, 0.0, 1.125, 0.0, 0.0, 3.0, 0.0, 0.0],
        indices: &[5, 6, 7],
    };
    let query = point(1.0, 0.0, 0.0);
    slots.show_k(rt, query, 1)?;
    slots.show_k(rt, query, 2)?;
    slots.show_within(rt, query, 1.0)?;
    slots.show_within(rt, query, 0.875)
}

fn main(rt: HostRuntime) -> io::Result<()> {
    show_on_k(&rt)?;
    show_one_away(&rt)?;
    show_five(&rt)?;
    show_six(&rt)?;
    show_no_tree(&rt)
}
