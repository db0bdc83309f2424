// Where a cloud sits and how big it is, and the frame next to the origin in which f32 keeps its digits.
#![tactic(auto)]

ghost use Rattle.std.specs.Prelude.{◌≡◌, ◌<◌};
ghost use Rattle.tree.specs.Cloud.{finite_point};
ghost use Rattle.tree.specs.Refusal.{outcome_of};
ghost use Rattle.frame.specs.Moments.{zero_moments, add_point, moments_of, divisor, mean};
ghost use Rattle.frame.specs.Frame.{at_least_nought, radius, near, local_point};
ghost use Rattle.frame.specs.Entries.{scale_in, centred_in, frame_in};

use space::Point3f;
use sums::Vector3d;
use tree::{PointCloud, Refusal};

// What is added up over the finite points of a cloud.
#[derive(Clone, Copy, Debug, PartialEq)]
pub struct Moments {
    pub count: u32,
    pub sum: Vector3d,
    pub sum_sq: f64,
}

// The centroid of a cloud's finite points, and their root mean squared distance from it.
#[derive(Clone, Copy, Debug, PartialEq)]
pub struct CloudScale {
    pub centroid: Point3f,
    pub radius: f32,
}

// A frame whose origin is a point of the world.
#[derive(Clone, Copy, Debug, PartialEq)]
pub struct LocalFrame {
    pub origin: Vector3d,
}

impl Moments {
    fn zero() -> Moments
        ensures { result ≡ zero_moments }
    {
        let v = Vector3d::zero();
        Moments {
            count: 0,
            sum: v,
            sum_sq: 0.0,
        }
    }

    // One point more, where it is finite.
    fn add(self, p: Point3f) -> Moments
        requires { self.count < 4294967295 }
        ensures { result ≡ add_point self p }
    {
        if tree::is_finite_point(p) {
            let v = Vector3d::from(p);
            Moments {
                count: self.count + 1,
                sum: self.sum.plus(v),
                sum_sq: self.sum_sq + v.norm_squared(),
            }
        } else {
            self
        }
    }

    fn of(cloud: &PointCloud) -> Moments
        ensures { result ≡ moments_of cloud.now }
    {
        let mut m = Moments::zero();
        for i in 0..cloud.len() {
            m = m.add(cloud.point(i));
        }
        m
    }

    // The count as a divisor: at least 1.
    fn divisor(self) -> f64
        ensures { result ≡ divisor self }
    {
        self.count.max(1) as f64
    }

    fn mean(self) -> Vector3d
        ensures { result ≡ mean self }
    {
        self.sum.over(self.divisor())
    }

    // The root mean squared distance from the mean.
    fn radius(self) -> f32
        ensures { result ≡ radius self }
    {
        let spread = self.sum_sq / self.divisor() - self.mean().norm_squared();
        bits::narrow(bits::root::sqrt_f64(at_least_zero(spread)))
    }
}

// The greater of 0 and v; 0 for a NaN.
fn at_least_zero(v: f64) -> f64
    ensures { result ≡ at_least_nought v }
{
    if 0.0 < v { v } else { 0.0 }
}

impl CloudScale {
    // The scale of a cloud's finite points.
    pub fn of(cloud: &[f32]) -> Result<CloudScale, Refusal>
        ensures { outcome_of result ≡ scale_in cloud.now }
    {
        let cloud = PointCloud::of(cloud)?;
        let m = Moments::of(&cloud);
        let centroid = m.mean().narrowed();
        let radius = m.radius();
        Ok(CloudScale { centroid, radius })
    }

    // Within 100 times its own size of the origin.
    fn near(self) -> bool
        ensures { result ≡ near self }
    {
        let c = self.centroid;
        let norm = bits::root::sqrt_f32((c.x * c.x + c.y * c.y) + c.z * c.z);
        norm <= 100.0 * self.radius
    }
}

impl LocalFrame {
    // The frame at the mean of a cloud's finite points.
    pub fn centred_on(cloud: &[f32]) -> Result<LocalFrame, Refusal>
        ensures { outcome_of result ≡ centred_in cloud.now }
    {
        let cloud = PointCloud::of(cloud)?;
        let origin = Moments::of(&cloud).mean();
        Ok(LocalFrame { origin })
    }

    // That frame, or none for a cloud that is near the origin.
    pub fn if_far_from_origin(cloud: &[f32]) -> Result<Option<LocalFrame>, Refusal>
        ensures { outcome_of result ≡ frame_in cloud.now }
    {
        let cloud = PointCloud::of(cloud)?;
        let m = Moments::of(&cloud);
        let origin = m.mean();
        let centroid = origin.narrowed();
        let radius = m.radius();
        let scale = CloudScale { centroid, radius };
        if scale.near() {
            Ok(None)
        } else {
            Ok(Some(LocalFrame { origin }))
        }
    }

    // A point of the world, in this frame.
    pub fn point_to_local(self, p: Point3f) -> Point3f
        ensures { result ≡ local_point self p }
    {
        Vector3d::from(p).minus(self.origin).narrowed()
    }
}
