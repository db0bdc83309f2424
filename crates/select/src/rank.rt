// The order on an axis, and the axis of the next level.
ghost use Rattle.std.specs.Prelude.{◌≡◌, ◌+◌, ◌*◌, ◌<◌, length};
ghost use Rattle.tree.specs.Slots.{slot, point_at, rank};
ghost use Rattle.tree.specs.Grow.{next_axis};
ghost use Rattle.select.specs.Order.{rank_of};

// A cloud's points in their order on an axis.
#[derive(Clone, Copy)]
pub struct Ranking<'a> {
    pub cloud: &'a [f32],
    pub axis: usize,
    pub ghost on_axis: { axis < 3 },
}

impl<'a> Ranking<'a> {
    // The rank of point i.
    #[inline]
    pub fn place(&self, i: u32) -> u64
        requires { 3 * i + 2 < length self.now.cloud.now }
        ensures { result ≡ rank_of self.now.cloud.now self.now.axis i }
    {
        rank_at(self.cloud, self.axis, i as usize, i)
    }
}

// The rank on an axis of the point whose numbers stand at `at` in a flat list: the coordinate's key, then the point's index.
#[inline]
pub fn rank_at(numbers: &[f32], axis: usize, at: usize, index: u32) -> u64
    requires { (axis < 3) × (3 * at + 2 < length numbers.now) }
    ensures { result ≡ rank axis (slot (point_at numbers.now at) index) }
{
    (bits::key(numbers[3 * at + axis]) as u64) * 4294967296 + (index as u64)
}

// One level deeper. `walk` has its own at u32, the width in which its stack holds an axis: casts at each call would be no plainer.
pub fn next_axis(axis: usize) -> usize
    requires { axis < 3 }
    ensures { (result ≡ next_axis axis) × (result < 3) }
{
    if axis < 2 { axis + 1 } else { 0 }
}
