// What the checking entry asks of a cloud and of a lent tree.
ghost use Rattle.std.specs.Prelude.{◌≡◌, ℕ, ◌<◌, length, get_or};
ghost use Rattle.tree.specs.Slots.{slot, point_at};
ghost use Rattle.tree.specs.Part.{lent};
ghost use Rattle.tree.specs.Cloud.{finite_point, indexed};
ghost use Rattle.tree.specs.Refuse.{count};
ghost use Rattle.tree.proofs.Descent.{Reached};
ghost use Rattle.select.specs.Order.{slot_of};
ghost use Rattle.build.specs.Check.{Decides, Found};

use select::rank::{next_axis, rank_at};
use tree::{KdTreeView, PointCloud};

// Whether point i has three finite coordinates.
pub fn is_indexed(cloud: &PointCloud, i: usize) -> bool
    requires { i < count cloud.now }
    ensures { result ≡ finite_point (point_at cloud.now i) }
{
    tree::is_finite_point(cloud.point(i))
}

// How many points are indexed.
pub fn count_indexed(cloud: &PointCloud) -> usize
    ensures { result ≡ length (indexed cloud.now) }
{
    (0..cloud.len()).filter(|&i| is_indexed(cloud, i)).count()
}

// The same number, -0 being another than +0.
fn same(x: f32, y: f32) -> bool
    ensures { Decides result (x ≡ y) }
{
    bits::key(x) == bits::key(y)
}

// Whether a slot holds point i.
fn holds(cloud: &PointCloud, tree: &KdTreeView, i: u32, at: usize) -> bool
    requires { (i < count cloud.now) × (at < length tree.now.indices) }
    ensures { Decides result (slot_of cloud.now i ≡ slot (point_at tree.now.coords at) (get_or tree.now.indices at 0)) }
{
    let p = cloud.point(i as usize);
    let q = tree::point_at(tree.coords(), at);
    tree.indices()[at] == i && same(p.x, q.x) && same(p.y, q.y) && same(p.z, q.z)
}

// Whether point i is reached from the root: to the left where it ranks lower than a slot, to the right where it ranks higher.
fn reached(cloud: &PointCloud, tree: &KdTreeView, i: u32) -> bool
    requires { i < count cloud.now }
    ensures { Decides result (Reached 0 (slot_of cloud.now i) (lent tree.now.coords tree.now.indices)) }
{
    let mut start = 0;
    let mut count = tree.indices().len();
    let mut axis = 0;
    // A descent, not a count: each turn goes into one of two parts.
    while 0 < count {
        let mine = rank_at(cloud.numbers(), axis, i as usize, i);
        let here = rank_at(tree.coords(), axis, start, tree.indices()[start]);
        let left = (count - 1) / 2;
        let deeper = next_axis(axis);
        if mine < here {
            start += 1;
            count = left;
            axis = deeper;
        } else if here < mine {
            start += 1 + left;
            count -= 1 + left;
            axis = deeper;
        } else {
            return holds(cloud, tree, i, start);
        }
    }
    false
}

// Whether point i is reached, if it is indexed.
fn found(cloud: &PointCloud, tree: &KdTreeView, i: u32) -> bool
    requires { i < count cloud.now }
    ensures { Decides result (Found cloud.now tree.now.coords tree.now.indices i) }
{
    !is_indexed(cloud, i as usize) || reached(cloud, tree, i)
}

// Whether every indexed point is reached.
pub fn all_found(cloud: &PointCloud, tree: &KdTreeView) -> bool
    ensures { Decides result ((k : ℕ) → k < count cloud.now → Found cloud.now tree.now.coords tree.now.indices k) }
{
    (0..cloud.len() as u32).all(|i| found(cloud, tree, i))
}
