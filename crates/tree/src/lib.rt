// What is lent, and what is read of clouds and match lists by more than one layer above.
#![tactic(auto)]

ghost use Rattle.std.specs.Prelude.{◌≡◌, ◌+◌, ◌*◌, ◌<◌, length};
ghost use Rattle.tree.specs.Slots.{point_at};
ghost use Rattle.tree.specs.Cloud.{finite_point};
ghost use Rattle.tree.specs.Refusal.{number_of};
ghost use Rattle.tree.specs.Refuse.{any_entry_outside, any_index_outside};

mod kd_tree;
mod kd_tree_view;
mod point_cloud;

pub use kd_tree::KdTree;
pub use kd_tree_view::KdTreeView;
pub use point_cloud::PointCloud;
use space::Point3f;
use thiserror::Error;

// Why an entry refuses what it was lent.
#[derive(Clone, Copy, Debug, PartialEq, Eq, Error)]
pub enum Refusal {
    #[error("the lengths do not fit one another")]
    UnfitLengths,
    #[error("over 1,048,576 points or entries")]
    TooMany,
    #[error("a lent output is too short")]
    ShortOutput,
    #[error("the source or the target is empty")]
    NothingToMatch,
    #[error("an entry or an index names no point")]
    OutsideIndex,
}

impl Refusal {
    // The number that stands for it in other languages.
    pub fn number(self) -> u32
        ensures { result ≡ number_of self }
    {
        match self {
            Refusal::UnfitLengths => 1,
            Refusal::TooMany => 2,
            Refusal::ShortOutput => 3,
            Refusal::NothingToMatch => 4,
            Refusal::OutsideIndex => 5,
        }
    }
}

// The point whose numbers stand at 3i, 3i + 1 and 3i + 2 of a flat list.
pub fn point_at(numbers: &[f32], i: usize) -> Point3f
    requires { 3 * i + 2 < length numbers.now }
    ensures { result ≡ point_at numbers.now i }
{
    Point3f {
        x: numbers[3 * i],
        y: numbers[3 * i + 1],
        z: numbers[3 * i + 2],
    }
}

// Whether a point has three finite coordinates.
pub fn is_finite_point(p: Point3f) -> bool
    ensures { result ≡ finite_point p }
{
    bits::is_finite(p.x) && bits::is_finite(p.y) && bits::is_finite(p.z)
}

// Whether a seed or match entry is present and names no point of the n.
pub fn any_entry_outside(n: usize, entries: &[u32]) -> bool
    ensures { result ≡ any_entry_outside n entries.now }
{
    entries
        .iter()
        .any(|&entry| entry != KdTree::NO_CHILD && n <= entry as usize)
}

// Whether an index held in a tree names no point of the n; here 4,294,967,295 is an index like any other.
pub fn any_index_outside(n: usize, indices: &[u32]) -> bool
    ensures { result ≡ any_index_outside n indices.now }
{
    indices.iter().any(|&index| n <= index as usize)
}
