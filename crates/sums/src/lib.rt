// Sums over matched pairs in f64: what registration makes its next step from.
#![tactic(auto)]

ghost use Rattle.std.specs.Prelude.{◌≡◌, not, ◌&&◌, ◌+◌, ◌*◌, ◌<◌, ◌≤◌, min, eqb, ltb, length, get_or, drop, take};
ghost use Rattle.tree.specs.Slots.{slot, point_at, slots};
ghost use Rattle.tree.specs.Refuse.{no_match, any_entry_outside};
ghost use Rattle.tree.specs.Refusal.{outcome_of};
ghost use Rattle.sums.specs.Vector.{zero_vector, wide_point, narrow_point, plus, minus, times, over, norm_squared};
ghost use Rattle.sums.specs.Stats.{zero_sums, add_pair, merge_sums, mse};
ghost use Rattle.sums.specs.Sums.{add_entry, add_entries, run_length, sums};
ghost use Rattle.sums.specs.Accepted.{Accepted};
ghost use Rattle.sums.specs.Entries.{sums_in};

use space::Point3f;
use tree::{KdTree, PointCloud, Refusal};

// A vector of three f64.
#[derive(Clone, Copy, Debug, PartialEq)]
pub struct Vector3d {
    pub x: f64,
    pub y: f64,
    pub z: f64,
}

// Running sums over matched pairs: a row of the nine products for each coordinate of the source point.
#[derive(Clone, Copy, Debug, PartialEq)]
pub struct CorrespondenceStats {
    pub count: u32,
    pub sum_source: Vector3d,
    pub sum_target: Vector3d,
    pub sum_outer_x: Vector3d,
    pub sum_outer_y: Vector3d,
    pub sum_outer_z: Vector3d,
    pub sum_sq_error: f64,
}

impl Vector3d {
    pub fn zero() -> Vector3d
        ensures { result ≡ zero_vector }
    {
        Vector3d {
            x: 0.0,
            y: 0.0,
            z: 0.0,
        }
    }

    pub fn plus(self, other: Vector3d) -> Vector3d
        ensures { result ≡ plus self other }
    {
        Vector3d {
            x: self.x + other.x,
            y: self.y + other.y,
            z: self.z + other.z,
        }
    }

    pub fn minus(self, other: Vector3d) -> Vector3d
        ensures { result ≡ minus self other }
    {
        Vector3d {
            x: self.x - other.x,
            y: self.y - other.y,
            z: self.z - other.z,
        }
    }

    // Each coordinate, c times.
    pub fn times(self, c: f64) -> Vector3d
        ensures { result ≡ times c self }
    {
        Vector3d {
            x: c * self.x,
            y: c * self.y,
            z: c * self.z,
        }
    }

    // Each coordinate, divided by c.
    pub fn over(self, c: f64) -> Vector3d
        ensures { result ≡ over self c }
    {
        Vector3d {
            x: self.x / c,
            y: self.y / c,
            z: self.z / c,
        }
    }

    // Each coordinate, rounded to f32.
    pub fn narrowed(self) -> Point3f
        ensures { result ≡ narrow_point self }
    {
        Point3f {
            x: bits::narrow(self.x),
            y: bits::narrow(self.y),
            z: bits::narrow(self.z),
        }
    }

    pub fn norm_squared(self) -> f64
        ensures { result ≡ norm_squared self }
    {
        (self.x * self.x + self.y * self.y) + self.z * self.z
    }
}

// A point's coordinates, widened.
impl From<Point3f> for Vector3d {
    ghost from_gives = { λ p v. v ≡ wide_point p };

    fn from(p: Point3f) -> Vector3d {
        Vector3d {
            x: bits::widen(p.x),
            y: bits::widen(p.y),
            z: bits::widen(p.z),
        }
    }
}

impl CorrespondenceStats {
    // Source points of one run, which is summed from zero.
    pub const RUN: usize = 512;

    // The sums of nothing.
    pub fn zero() -> CorrespondenceStats
        ensures { result ≡ zero_sums }
    {
        let v = Vector3d::zero();
        CorrespondenceStats {
            count: 0,
            sum_source: v,
            sum_target: v,
            sum_outer_x: v,
            sum_outer_y: v,
            sum_outer_z: v,
            sum_sq_error: 0.0,
        }
    }

    // One matched pair more.
    #[tactic(auto, unfolding(crate::specs::Stats::add_pair))]
    fn add(self, source: Point3f, target: Point3f) -> CorrespondenceStats
        requires { self.count < 4294967295 }
        ensures { result ≡ add_pair self source target }
    {
        let p = Vector3d::from(source);
        let q = Vector3d::from(target);
        let e = p.minus(q);
        CorrespondenceStats {
            count: self.count + 1,
            sum_source: self.sum_source.plus(p),
            sum_target: self.sum_target.plus(q),
            sum_outer_x: self.sum_outer_x.plus(q.times(p.x)),
            sum_outer_y: self.sum_outer_y.plus(q.times(p.y)),
            sum_outer_z: self.sum_outer_z.plus(q.times(p.z)),
            sum_sq_error: self.sum_sq_error + e.norm_squared(),
        }
    }

    // These sums, and then those of a later run.
    #[tactic(auto, unfolding(crate::specs::Stats::merge_sums))]
    fn merge(self, other: CorrespondenceStats) -> CorrespondenceStats
        requires { self.count + other.count < 4294967296 }
        ensures { result ≡ merge_sums self other }
    {
        CorrespondenceStats {
            count: self.count + other.count,
            sum_source: self.sum_source.plus(other.sum_source),
            sum_target: self.sum_target.plus(other.sum_target),
            sum_outer_x: self.sum_outer_x.plus(other.sum_outer_x),
            sum_outer_y: self.sum_outer_y.plus(other.sum_outer_y),
            sum_outer_z: self.sum_outer_z.plus(other.sum_outer_z),
            sum_sq_error: self.sum_sq_error + other.sum_sq_error,
        }
    }

    // The sums of the matched pairs of a match list, one entry for each source point.
    #[tactic(auto, unfolding(crate::specs::Entries::sums_in))]
    pub fn collect(
        source: &[f32],
        target: &[f32],
        matches: &[u32],
    ) -> Result<CorrespondenceStats, Refusal>
        ensures { outcome_of result ≡ sums_in source.now target.now matches.now }
    {
        if source.len() % 3 != 0 || target.len() % 3 != 0 || matches.len() != source.len() / 3 {
            return Err(Refusal::UnfitLengths);
        }
        let points = target.len() / 3;
        if KdTree::MAX_POINTS < matches.len() || KdTree::MAX_POINTS < points {
            return Err(Refusal::TooMany);
        }
        if tree::any_entry_outside(points, matches) {
            return Err(Refusal::OutsideIndex);
        }
        let matched = Matched {
            source: PointCloud::new(source),
            target: PointCloud::new(target),
            matches,
        };
        Ok(matched.sums())
    }

    // The mean squared error between the points of a pair: 0 where there is none.
    #[tactic(auto, unfolding(crate::specs::Stats::mse))]
    pub fn mse(self) -> f32
        ensures { result ≡ mse self }
    {
        if self.count == 0 {
            0.0
        } else {
            bits::narrow(self.sum_sq_error / self.count as f64)
        }
    }
}

// Two clouds and the match list between them, once no refusal is met.
#[derive(Drop)]
struct Matched<'a> {
    source: PointCloud<'a>,
    target: PointCloud<'a>,
    matches: &'a [u32],
    ghost accepted: { Accepted source target matches.now },
}

impl<'a> Matched<'a> {
    // The sums with source point i, where its match entry names a target point.
    #[tactic(auto, unfolding(crate::specs::Sums::add_entry))]
    fn add_entry(&self, stats: CorrespondenceStats, i: usize) -> CorrespondenceStats
        requires { (i < length self.now.matches.now) × (stats.count ≤ i) }
        ensures { result ≡ add_entry self.now.target stats (slot (point_at self.now.source i) (get_or self.now.matches.now i 0)) }
    {
        let m = self.matches[i];
        if m == KdTree::NO_CHILD {
            return stats;
        }
        stats.add(self.source.point(i), self.target.point(m as usize))
    }

    // One run: the source points from at on, len of them, summed from zero in order.
    fn sum_run(&self, at: usize, len: usize) -> CorrespondenceStats
        requires { at + len ≤ length self.now.matches.now }
        ensures { result ≡ add_entries self.now.target zero_sums (take len (drop at (slots self.now.source self.now.matches.now))) }
    {
        let mut stats = CorrespondenceStats::zero();
        for i in at..at + len {
            stats = self.add_entry(stats, i);
        }
        stats
    }

    // Every run, added first to last.
    #[tactic(auto, unfolding(crate::specs::Sums::sums))]
    fn sums(&self) -> CorrespondenceStats
        ensures { result ≡ sums self.now.source self.now.target self.now.matches.now }
    {
        let mut total = CorrespondenceStats::zero();
        for at in (0..self.matches.len()).step_by(CorrespondenceStats::RUN) {
            let len = CorrespondenceStats::RUN.min(self.matches.len() - at);
            total = total.merge(self.sum_run(at, len));
        }
        total
    }
}
