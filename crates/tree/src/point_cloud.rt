// A cloud as it is lent, once its length has been tested.
ghost use Rattle.std.specs.Prelude.{◌≡◌, ◌*◌, ◌<◌, ◌≤◌, List, Float, length};
ghost use Rattle.tree.specs.Lent.{IsCloud};
ghost use Rattle.tree.specs.Refuse.{gives, on_cloud, count, has_none};
ghost use Rattle.tree.specs.Refusal.{outcome_of};
ghost use Rattle.tree.specs.Slots.{point_at};

use crate::{KdTree, Refusal};
use space::Point3f;
use std::marker::Model;

// Three numbers to a point, and no more points than a cloud may have.
#[derive(Drop)]
pub struct PointCloud<'a> {
    numbers: &'a [f32],
}

impl<'a> Model for PointCloud<'a> {
    ghost Value = { List Float };

    ghost view = { λ c. c.numbers.now };

    ghost invariant = { λ c. IsCloud c.numbers.now };
}

impl<'a> PointCloud<'a> {
    // Refuses numbers that are not three to a point, or of too many points.
    #[inline]
    pub fn of(numbers: &'a [f32]) -> Result<PointCloud<'a>, Refusal>
        ensures { outcome_of result ≡ on_cloud numbers.now (gives numbers.now) }
    {
        if numbers.len() % 3 != 0 {
            return Err(Refusal::UnfitLengths);
        }
        if KdTree::MAX_POINTS < numbers.len() / 3 {
            return Err(Refusal::TooMany);
        }
        Ok(PointCloud { numbers })
    }

    // The same of numbers whose length is known to fit.
    #[inline]
    pub fn new(numbers: &'a [f32]) -> PointCloud<'a>
        requires whole { length numbers.now ≡ 3 * count numbers.now }
        requires few { count numbers.now ≤ 1048576 }
        ensures { result ≡ numbers.now }
    {
        PointCloud { numbers }
    }

    // Three numbers to a point.
    #[inline]
    pub fn numbers(&self) -> &'a [f32]
        ensures held { result.now ≡ self.now }
        ensures whole { length result.now ≡ 3 * count self.now }
    {
        self.numbers
    }

    // How many points there are.
    #[inline]
    pub fn len(&self) -> usize
        ensures all { result ≡ count self.now }
        ensures whole { length self.now ≡ 3 * result }
        ensures few { result ≤ 1048576 }
    {
        self.numbers.len() / 3
    }

    // Whether there is none.
    #[inline]
    pub fn is_empty(&self) -> bool
        ensures { result ≡ has_none self.now }
    {
        self.len() == 0
    }

    // Point i.
    #[inline]
    pub fn point(&self, i: usize) -> Point3f
        requires { i < count self.now }
        ensures { result ≡ point_at self.now i }
    {
        crate::point_at(self.numbers, i)
    }
}
