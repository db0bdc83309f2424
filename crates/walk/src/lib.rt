// The stack kit that every search shares: what is seen at a node, and the far parts that wait.
#![tactic(auto)]

ghost use Rattle.std.specs.Prelude.{◌≡◌, cond, ◌+◌, ◌*◌, ◌<◌, ◌≤◌, length};
ghost use Rattle.bits.specs.Constants.{infinite};
ghost use Rattle.tree.specs.Slots.{point_at};
ghost use Rattle.tree.specs.Grow.{next_axis};
ghost use Rattle.walk.specs.Node.{node_by, node_of, waits};

use space::Point3f;

pub mod pruned;

pub use pruned::{Search, pruned_walk};

// A group of slots: where it starts, how many it has, and the axis that it is split on.
#[derive(Clone, Copy, Debug, PartialEq, Eq)]
pub struct Group {
    pub start: u32,
    pub len: u32,
    pub axis: u32,
}

// A far part that waits, with the squared distance to its plane.
#[derive(Clone, Copy, Debug, PartialEq)]
pub struct Waiting {
    pub group: Group,
    pub plane_sq: f32,
}

// The root of a group as the query sees it: its squared distance, and the two parts.
#[derive(Clone, Copy, Debug, PartialEq)]
pub struct Node {
    pub distance_sq: f32,
    pub near: Group,
    pub far: Waiting,
}

impl Group {
    // The group of m slots that starts at 0.
    pub fn whole(m: u32) -> Group
        ensures { (result.start ≡ 0) × (result.len ≡ m) × (result.axis ≡ 0) }
    {
        Group {
            start: 0,
            len: m,
            axis: 0,
        }
    }

    // The two parts by a = query - node; the left is near if a <= 0. Each number is picked by itself, so that no branch on a is left.
    fn parts(self, a: f32, distance_sq: f32) -> Node
        requires { (0 < self.len) × (self.start + self.len ≤ 1048576) }
        ensures { result ≡ node_by self a distance_sq }
    {
        let near_left = a <= 0.0;
        let left = self.start + 1;
        let left_len = (self.len - 1) / 2;
        let right = left + left_len;
        let right_len = self.len - 1 - left_len;
        let axis = next_axis(self.axis);
        Node {
            distance_sq,
            near: Group {
                start: pick(near_left, left, right),
                len: pick(near_left, left_len, right_len),
                axis,
            },
            far: Waiting {
                group: Group {
                    start: pick(near_left, right, left),
                    len: pick(near_left, right_len, left_len),
                    axis,
                },
                plane_sq: a * a,
            },
        }
    }

    // What the query sees at the group's root. The point is read once.
    pub fn look(self, coords: &[f32], query: Point3f) -> Node
        requires { (0 < self.len) × (self.start + self.len ≤ 1048576) × (3 * (self.start + self.len) ≤ length coords.now) }
        ensures { result ≡ node_of coords.now query self }
    {
        let point = tree::point_at(coords, self.start as usize);
        let a = query.on(self.axis) - point.on(self.axis);
        self.parts(a, point.distance_squared(query))
    }
}

impl Waiting {
    // What fills the stack before anything waits.
    pub fn none() -> Waiting {
        Waiting {
            group: Group::whole(0),
            plane_sq: 0.0,
        }
    }

    // A far part waits if it has slots and would be entered now: one that would not is not entered later either.
    pub fn waits(self, entered: bool) -> bool
        ensures { result ≡ waits self entered }
    {
        self.group.len != 0 && entered
    }
}

// What a search has to beat while it holds nothing.
pub fn infinity() -> f32
    ensures { result ≡ infinite }
{
    f32::INFINITY
}

fn pick(first: bool, a: u32, b: u32) -> u32
    ensures { result ≡ cond first a b }
{
    if first { a } else { b }
}

// x, y, z and again x.
pub fn next_axis(axis: u32) -> u32
    ensures { result ≡ next_axis axis }
{
    if axis < 2 { axis + 1 } else { 0 }
}
