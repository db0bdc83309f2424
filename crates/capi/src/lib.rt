// The functions of the C interface, include/ongdhuse.h: each takes its arguments together, calls the entry and takes the answer apart.
// The crate capi_c exports them to C, each under its own name.
#![tactic(auto)]

ghost use Rattle.std.specs.Prelude.{◌≡◌, false, ◌+◌, ◌≤◌, ◌<◌, length, set, OnOk};
ghost use Rattle.std.specs.Float.{binary32, binary64};
ghost use Rattle.bits.specs.Finite.{finite};
ghost use Rattle.bits.specs.NextUp.{next_up};
ghost use Rattle.bits.specs.Convert as Convert;
ghost use Rattle.bits.specs.Key as Key;
ghost use Rattle.bits.specs.Root.{root};
ghost use Rattle.tree.specs.Refuse.{short, gives, left, overwrite};
ghost use Rattle.tree.specs.Refusal.{outcome_of};
ghost use Rattle.build.specs.Entries.{building, checking};
ghost use Rattle.search.specs.Search as Search;
ghost use Rattle.lists.specs.Entry.{squares_in, roots_in};
ghost use Rattle.lists.specs.Entries.{nearest_listing};
ghost use Rattle.radius.specs.Entries.{radius_listing};
ghost use Rattle.matching.specs.Limit.{bound_of};
ghost use Rattle.matching.specs.Matching.{match_in};
ghost use Rattle.matching.specs.Pairs.{pairs_in};
ghost use Rattle.sums.specs.Stats as Stats;
ghost use Rattle.sums.specs.Entries.{sums_in};
ghost use Rattle.frame.specs.Frame.{local_point};
ghost use Rattle.frame.specs.Entries.{scale_in, centred_in, frame_in};
ghost use Rattle.capi.specs.Codes.{code, in_room};
ghost use Rattle.capi.specs.Arguments.{point_of, seed_of, limit_of, sums_of, frame_at};
ghost use Rattle.capi.specs.Answers.{flag_of, start_of, vector_numbers, point_numbers, scale_numbers, sum_numbers};
ghost use Rattle.capi.specs.Promises as Promise;

use frame::{CloudScale, LocalFrame};
use search::Nearest;
use space::Point3f;
use sums::{CorrespondenceStats, Vector3d};
use tree::Refusal;

// ---- arguments taken together: C has no enum that holds a value, so a flag of 0 says that there is no seed or no limit

fn seed_of(seeded: u32, index: u32, distance_sq: f32) -> Nearest
    ensures { result ≡ seed_of seeded index distance_sq }
{
    if seeded == 0 {
        Nearest::Nothing
    } else {
        Nearest::Found(index, distance_sq)
    }
}

fn limit_of(limited: u32, limit: f32) -> Option<f32>
    ensures { result ≡ limit_of limited limit }
{
    if limited == 0 { None } else { Some(limit) }
}

// ---- answers taken apart: C gets a number, 0 or that of a refusal, and the answer itself in lent places

fn tell_nearest(
    answer: Result<Nearest, Refusal>,
    found: &mut u32,
    index: &mut u32,
    distance_sq: &mut f32,
) -> u32
    ensures { Promise.Finds (outcome_of answer) result found.old index.old distance_sq.old found.new index.new distance_sq.new }
{
    match answer {
        Ok(Nearest::Nothing) => {
            *found = 0;
            0
        }
        Ok(Nearest::Found(i, d)) => {
            *found = 1;
            *index = i;
            *distance_sq = d;
            0
        }
        Err(refusal) => refusal.number(),
    }
}

// A number that an entry tells, left in its place. Build and the pair list, whose counts are of usize, have arms of their own: a cast
// under `map` would have to be proved for every count.
fn tell(answer: Result<u32, Refusal>, place: &mut u32) -> u32
    ensures told { result ≡ code (outcome_of answer) }
    ensures number { place.new ≡ left (λ n. n) place.old (outcome_of answer) }
{
    match answer {
        Ok(n) => {
            *place = n;
            0
        }
        Err(refusal) => refusal.number(),
    }
}

// Refusal 3 in place of the answer, or of refusal 5, where a lent output is too short.
fn in_room<T: Copy>(answer: Result<T, Refusal>, lacking: bool) -> Result<T, Refusal>
    ensures rule { outcome_of result ≡ in_room lacking (outcome_of answer) }
    ensures room { OnOk result (lacking ≡ false) }
{
    match answer {
        Ok(_) | Err(Refusal::OutsideIndex) if lacking => Err(Refusal::ShortOutput),
        _ => answer,
    }
}

// ---- the tree

pub fn ongdhuse_build(
    cloud: &[f32],
    coords: &mut [f32],
    indices: &mut [u32],
    slots: &mut u32,
) -> u32
    ensures { Promise.Builds (building cloud.now coords.old indices.old) result coords.old indices.old slots.old coords.new indices.new slots.new }
{
    match build::build(cloud, coords, indices) {
        Ok(m) => {
            *slots = m as u32;
            0
        }
        Err(refusal) => refusal.number(),
    }
}

pub fn ongdhuse_is_tree_of(cloud: &[f32], coords: &[f32], indices: &[u32], yes: &mut u32) -> u32
    ensures { Promise.Checks (checking cloud.now coords.now indices.now) result yes.old yes.new }
{
    match build::is_tree_of(cloud, coords, indices) {
        Ok(answer) => {
            *yes = u32::from(answer);
            0
        }
        Err(refusal) => refusal.number(),
    }
}

// ---- searches

pub fn ongdhuse_find_nearest_bounded(
    coords: &[f32],
    indices: &[u32],
    x: f32,
    y: f32,
    z: f32,
    bound_sq: f32,
    seeded: u32,
    seed_index: u32,
    seed_distance_sq: f32,
    found: &mut u32,
    index: &mut u32,
    distance_sq: &mut f32,
) -> u32
    ensures { Promise.Finds (Search.bounded coords.now indices.now (point_of x y z) bound_sq (seed_of seeded seed_index seed_distance_sq)) result found.old index.old distance_sq.old found.new index.new distance_sq.new }
{
    let query = Point3f { x, y, z };
    let seed = seed_of(seeded, seed_index, seed_distance_sq);
    let answer = search::find_nearest_bounded(coords, indices, query, bound_sq, seed);
    tell_nearest(answer, found, index, distance_sq)
}

pub fn ongdhuse_find_nearest(
    coords: &[f32],
    indices: &[u32],
    x: f32,
    y: f32,
    z: f32,
    found: &mut u32,
    index: &mut u32,
    distance_sq: &mut f32,
) -> u32
    ensures { Promise.Finds (Search.unbounded coords.now indices.now (point_of x y z)) result found.old index.old distance_sq.old found.new index.new distance_sq.new }
{
    let query = Point3f { x, y, z };
    let answer = search::find_nearest(coords, indices, query);
    tell_nearest(answer, found, index, distance_sq)
}

pub fn ongdhuse_find_k_nearest_into(
    coords: &[f32],
    indices: &[u32],
    x: f32,
    y: f32,
    z: f32,
    k: u32,
    out_indices: &mut [u32],
    out_distances: &mut [f32],
    count: &mut u32,
) -> u32
    ensures { Promise.Lists squares_in (nearest_listing coords.now indices.now (point_of x y z) k out_indices.old out_distances.old) result out_indices.old out_distances.old count.old out_indices.new out_distances.new count.new }
{
    let query = Point3f { x, y, z };
    let answer = lists::find_k_nearest_into(
        coords,
        indices,
        query,
        k as usize,
        out_indices,
        out_distances,
    );
    tell(answer, count)
}

pub fn ongdhuse_find_k_nearest(
    coords: &[f32],
    indices: &[u32],
    x: f32,
    y: f32,
    z: f32,
    k: u32,
    out_indices: &mut [u32],
    out_distances: &mut [f32],
    count: &mut u32,
) -> u32
    ensures { Promise.Lists roots_in (nearest_listing coords.now indices.now (point_of x y z) k out_indices.old out_distances.old) result out_indices.old out_distances.old count.old out_indices.new out_distances.new count.new }
{
    let query = Point3f { x, y, z };
    let answer = lists::find_k_nearest(
        coords,
        indices,
        query,
        k as usize,
        out_indices,
        out_distances,
    );
    tell(answer, count)
}

pub fn ongdhuse_find_radius_neighbors(
    coords: &[f32],
    indices: &[u32],
    x: f32,
    y: f32,
    z: f32,
    radius: f32,
    out_indices: &mut [u32],
    out_distances: &mut [f32],
    count: &mut u32,
) -> u32
    ensures { Promise.Lists roots_in (radius_listing coords.now indices.now (point_of x y z) radius out_indices.old out_distances.old) result out_indices.old out_distances.old count.old out_indices.new out_distances.new count.new }
{
    let query = Point3f { x, y, z };
    let answer = radius::find_radius_neighbors(
        coords,
        indices,
        query,
        radius,
        out_indices,
        out_distances,
    );
    tell(answer, count)
}

// ---- matching

pub fn ongdhuse_max_distance_sq(limited: u32, limit: f32) -> f32
    ensures { result ≡ bound_of (limit_of limited limit) }
{
    matching::max_distance_sq(limit_of(limited, limit))
}

pub fn ongdhuse_find_correspondences_seeded(
    source: &[f32],
    target: &[f32],
    coords: &[f32],
    indices: &[u32],
    limited: u32,
    limit: f32,
    matches: &mut [u32],
) -> u32
    ensures { Promise.Matches (match_in source.now target.now coords.now indices.now (limit_of limited limit) matches.old) result matches.old matches.new }
{
    let within = limit_of(limited, limit);
    let answer = matching::find_correspondences_seeded(
        source, target, coords, indices, within, matches,
    );
    if let Err(refusal) = answer {
        return refusal.number();
    }
    0
}

pub fn ongdhuse_correspondence_pairs(
    matches: &[u32],
    sources: &mut [u32],
    targets: &mut [u32],
    count: &mut u32,
) -> u32
    ensures { Promise.ListsPairs (pairs_in matches.now sources.old targets.old) result sources.old targets.old count.old sources.new targets.new count.new }
{
    match matching::correspondence_pairs(matches, sources, targets) {
        Ok(n) => {
            *count = n as u32;
            0
        }
        Err(refusal) => refusal.number(),
    }
}

pub fn ongdhuse_target_point(cloud: &[f32], index: u32) -> usize
    ensures { result ≡ start_of cloud.now index }
{
    let part = matching::target_point(cloud, index);
    if part.len() == 0 {
        return cloud.len();
    }
    3 * (index as usize)
}

// ---- sums

// Writes the three numbers of a vector from a place on.
fn put_vector(out: &mut [f64], at: usize, v: Vector3d)
    requires { at + 2 < length out.old }
    ensures { out.new ≡ set (set (set out.old at v.x) (at + 1) v.y) (at + 2) v.z }
{
    out[at] = v.x;
    out[at + 1] = v.y;
    out[at + 2] = v.z;
}

fn put_sums(out: &mut [f64], s: CorrespondenceStats)
    requires { 16 ≤ length out.old }
    ensures { out.new ≡ overwrite (sum_numbers s) out.old }
{
    put_vector(out, 0, s.sum_source);
    put_vector(out, 3, s.sum_target);
    put_vector(out, 6, s.sum_outer_x);
    put_vector(out, 9, s.sum_outer_y);
    put_vector(out, 12, s.sum_outer_z);
    out[15] = s.sum_sq_error;
}

fn tell_sums(answer: Result<CorrespondenceStats, Refusal>, sums: &mut [f64], count: &mut u32) -> u32
    ensures { Promise.Sums (in_room (short sums.old 16) (outcome_of answer)) result sums.old count.old sums.new count.new }
{
    match in_room(answer, sums.len() < 16) {
        Ok(s) => {
            put_sums(sums, s);
            *count = s.count;
            0
        }
        Err(refusal) => refusal.number(),
    }
}

pub fn ongdhuse_zero_sums(sums: &mut [f64], count: &mut u32) -> u32
    ensures { Promise.Sums (in_room (short sums.old 16) (gives Stats.zero_sums)) result sums.old count.old sums.new count.new }
{
    tell_sums(Ok(CorrespondenceStats::zero()), sums, count)
}

pub fn ongdhuse_collect(
    source: &[f32],
    target: &[f32],
    matches: &[u32],
    sums: &mut [f64],
    count: &mut u32,
) -> u32
    ensures { Promise.Sums (in_room (short sums.old 16) (sums_in source.now target.now matches.now)) result sums.old count.old sums.new count.new }
{
    tell_sums(
        CorrespondenceStats::collect(source, target, matches),
        sums,
        count,
    )
}

pub fn ongdhuse_mse(count: u32, sum_sq_error: f64) -> f32
    ensures { result ≡ Stats.mse (sums_of count sum_sq_error) }
{
    let v = Vector3d::zero();
    let s = CorrespondenceStats {
        count,
        sum_source: v,
        sum_target: v,
        sum_outer_x: v,
        sum_outer_y: v,
        sum_outer_z: v,
        sum_sq_error,
    };
    s.mse()
}

// ---- scale and frame

fn put_point(out: &mut [f32], p: Point3f)
    requires { 3 ≤ length out.old }
    ensures { out.new ≡ overwrite (point_numbers p) out.old }
{
    out[0] = p.x;
    out[1] = p.y;
    out[2] = p.z;
}

pub fn ongdhuse_cloud_scale(cloud: &[f32], scale: &mut [f32]) -> u32
    ensures { Promise.Writes scale_numbers (in_room (short scale.old 4) (scale_in cloud.now)) result scale.old scale.new }
{
    match in_room(CloudScale::of(cloud), scale.len() < 4) {
        Ok(s) => {
            put_point(scale, s.centroid);
            scale[3] = s.radius;
            0
        }
        Err(refusal) => refusal.number(),
    }
}

pub fn ongdhuse_centred_on(cloud: &[f32], origin: &mut [f64]) -> u32
    ensures { Promise.Writes (λ f. vector_numbers f.origin) (in_room (short origin.old 3) (centred_in cloud.now)) result origin.old origin.new }
{
    match in_room(LocalFrame::centred_on(cloud), origin.len() < 3) {
        Ok(f) => {
            put_vector(origin, 0, f.origin);
            0
        }
        Err(refusal) => refusal.number(),
    }
}

pub fn ongdhuse_if_far_from_origin(cloud: &[f32], origin: &mut [f64], is_far: &mut u32) -> u32
    ensures { Promise.Frames (in_room (short origin.old 3) (frame_in cloud.now)) result origin.old is_far.old origin.new is_far.new }
{
    match in_room(LocalFrame::if_far_from_origin(cloud), origin.len() < 3) {
        Ok(None) => {
            *is_far = 0;
            0
        }
        Ok(Some(f)) => {
            put_vector(origin, 0, f.origin);
            *is_far = 1;
            0
        }
        Err(refusal) => refusal.number(),
    }
}

pub fn ongdhuse_point_to_local(
    origin_x: f64,
    origin_y: f64,
    origin_z: f64,
    x: f32,
    y: f32,
    z: f32,
    local: &mut [f32],
) -> u32
    ensures { Promise.Writes point_numbers (in_room (short local.old 3) (gives (local_point (frame_at origin_x origin_y origin_z) (point_of x y z)))) result local.old local.new }
{
    if local.len() < 3 {
        return Refusal::ShortOutput.number();
    }
    let origin = Vector3d {
        x: origin_x,
        y: origin_y,
        z: origin_z,
    };
    let frame = LocalFrame { origin };
    put_point(local, frame.point_to_local(Point3f { x, y, z }));
    0
}

// ---- what is read off one number

pub fn ongdhuse_is_finite(x: f32) -> u32
    ensures { result ≡ flag_of (finite x) }
{
    u32::from(bits::is_finite(x))
}

pub fn ongdhuse_next_up(x: f32) -> f32
    ensures { result ≡ next_up x }
{
    bits::next_up(x)
}

pub fn ongdhuse_widen(x: f32) -> f64
    ensures { result ≡ Convert.widen x }
{
    bits::widen(x)
}

pub fn ongdhuse_narrow(x: f64) -> f32
    ensures { result ≡ Convert.narrow x }
{
    bits::narrow(x)
}

pub fn ongdhuse_key(x: f32) -> u32
    ensures { result ≡ Key.key x }
{
    bits::key(x)
}

pub fn ongdhuse_sqrt_f32(x: f32) -> f32
    ensures { result ≡ root binary32 x }
{
    bits::root::sqrt_f32(x)
}

pub fn ongdhuse_sqrt_f64(x: f64) -> f64
    ensures { result ≡ root binary64 x }
{
    bits::root::sqrt_f64(x)
}
