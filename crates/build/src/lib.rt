// The tree build: the points' indices are brought into order in place, then the coordinates are written beside them.
#![tactic(auto)]

ghost use Rattle.std.specs.Prelude.{◌≡◌, ℕ, ◌+◌, ◌*◌, ◌≤◌, ◌<◌, length, set};
ghost use Rattle.tree.specs.Slots.{numbers_of};
ghost use Rattle.tree.specs.Part.{laid};
ghost use Rattle.tree.specs.Grow.{grow};
ghost use Rattle.tree.specs.Refuse.{count, overwrite};
ghost use Rattle.tree.specs.Refusal.{outcome_of};
ghost use Rattle.select.specs.Order.{slots_of, Inside};
ghost use Rattle.build.specs.Gather.{Gathered};
ghost use Rattle.build.specs.Entries.{Builds, checking};

mod check;

use check::{all_found, count_indexed, is_indexed};
use select::median::select;
use select::rank::{Ranking, next_axis};
use space::Point3f;
use tree::{KdTreeView, PointCloud, Refusal};

// Builds a group: the median goes to the front, the lower ranks and the higher ranks are built one level deeper.
fn build_group(by: &Ranking, indices: &mut [u32])
    requires { Inside by.now.cloud.now indices.old }
    ensures { (f : ℕ) → length indices.old ≤ f → slots_of by.now.cloud.now indices.new ≡ laid (grow f by.now.axis (slots_of by.now.cloud.now indices.old)) }
{
    let n = indices.len();
    if n < 2 {
        return;
    }
    let median = (n - 1) / 2;
    select(by, indices, median);
    indices.swap(0, median);
    let b = median + 1;
    let deeper = Ranking {
        cloud: by.cloud,
        axis: next_axis(by.axis),
    };
    build_group(&deeper, &mut indices[1..b]);
    build_group(&deeper, &mut indices[b..]);
}

// The indices of the finite points go to the front, in order.
fn gather(cloud: &PointCloud, indices: &mut [u32]) -> usize
    requires { count cloud.now ≤ length indices.old }
    ensures { Gathered cloud.now result indices.old indices.new }
{
    let mut m = 0;
    for i in 0..cloud.len() {
        if is_indexed(cloud, i) {
            indices[m] = i as u32;
            m += 1;
        }
    }
    m
}

// Writes the three numbers of a point to slot i.
fn put(coords: &mut [f32], i: usize, p: Point3f)
    requires { 3 * i + 2 < length coords.old }
    ensures { coords.new ≡ set (set (set coords.old (3 * i) p.x) (3 * i + 1) p.y) (3 * i + 2) p.z }
{
    let to = 3 * i;
    coords[to] = p.x;
    coords[to + 1] = p.y;
    coords[to + 2] = p.z;
}

// Writes the numbers of points beside their indices.
fn lay(cloud: &PointCloud, coords: &mut [f32], indices: &[u32])
    requires { (3 * length indices.now ≤ length coords.old) × Inside cloud.now indices.now }
    ensures { coords.new ≡ overwrite (numbers_of (slots_of cloud.now indices.now)) coords.old }
{
    for (i, &j) in indices.iter().enumerate() {
        put(coords, i, cloud.point(j as usize));
    }
}

// Builds the tree of a cloud, three coordinates and one index to a slot, and tells how many slots it has.
pub fn build(cloud: &[f32], coords: &mut [f32], indices: &mut [u32]) -> Result<usize, Refusal>
    ensures { Builds cloud.now coords.old indices.old result coords.new indices.new }
{
    let points = PointCloud::of(cloud)?;
    let n = points.len();
    if coords.len() < 3 * n || indices.len() < n {
        return Err(Refusal::ShortOutput);
    }
    let m = gather(&points, indices);
    build_group(&Ranking { cloud, axis: 0 }, &mut indices[..m]);
    lay(&points, coords, &indices[..m]);
    Ok(m)
}

// Whether the lent slots are the tree of the cloud. Each indexed point is looked for from the root down, by its ranks; as many slots as
// there are of them leave no room for others.
pub fn is_tree_of(cloud: &[f32], coords: &[f32], indices: &[u32]) -> Result<bool, Refusal>
    ensures { outcome_of result ≡ checking cloud.now coords.now indices.now }
{
    // A length that does not fit is told before one that is too large.
    if coords.len() != 3 * indices.len() {
        return Err(Refusal::UnfitLengths);
    }
    let cloud = PointCloud::of(cloud)?;
    let tree = KdTreeView::of(coords, indices)?;
    Ok(count_indexed(&cloud) == indices.len() && all_found(&cloud, &tree))
}
