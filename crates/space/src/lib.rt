// Points of space by value, and what the search computes of them.
#![tactic(auto, unfolding(crate::specs::Distance::distance_squared))]

ghost use Rattle.std.specs.Prelude.{◌≡◌};
ghost use Rattle.space.specs.Distance.{on, distance_squared};

// A point of space, or a query.
#[derive(Clone, Copy, Debug, PartialEq)]
pub struct Point3f {
    pub x: f32,
    pub y: f32,
    pub z: f32,
}

impl Point3f {
    // The coordinate on an axis: x on 0, y on 1, z on any other.
    pub fn on(self, axis: u32) -> f32
        ensures { result ≡ on axis self }
    {
        match axis {
            0 => self.x,
            1 => self.y,
            _ => self.z,
        }
    }

    // The squared distance of this point from a query.
    pub fn distance_squared(self, query: Point3f) -> f32
        ensures { result ≡ distance_squared query self }
    {
        let dx = self.x - query.x;
        let dy = self.y - query.y;
        let dz = self.z - query.z;
        (dx * dx + dy * dy) + dz * dz
    }
}
