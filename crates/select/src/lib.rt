// The order of points on an axis, and the median of a group by selection in place.
#![tactic(auto)]

pub mod median;
pub mod pivot;
pub mod rank;
