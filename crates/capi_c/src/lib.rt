// The C interface, include/ongdhuse.h: each function exports that of its name in the crate capi, and promises what it promises. A crate
// that exports is none that Rattle can call, so the heads stand twice.
// A slice passes as a pointer and a length, a `&mut` to a number as a pointer.
#![tactic(auto)]

ghost use Rattle.std.specs.Prelude.{◌≡◌};
ghost use Rattle.std.specs.Float.{binary32, binary64};
ghost use Rattle.bits.specs.Finite.{finite};
ghost use Rattle.bits.specs.NextUp.{next_up};
ghost use Rattle.bits.specs.Convert as Convert;
ghost use Rattle.bits.specs.Key as Key;
ghost use Rattle.bits.specs.Root.{root};
ghost use Rattle.tree.specs.Refuse.{short, gives};
ghost use Rattle.build.specs.Entries.{building, checking};
ghost use Rattle.search.specs.Search as Search;
ghost use Rattle.lists.specs.Entry.{squares_in, roots_in};
ghost use Rattle.lists.specs.Entries.{nearest_listing};
ghost use Rattle.radius.specs.Entries.{radius_listing};
ghost use Rattle.matching.specs.Limit.{bound_of};
ghost use Rattle.matching.specs.Matching.{match_in};
ghost use Rattle.matching.specs.Pairs.{pairs_in};
ghost use Rattle.sums.specs.Stats as Stats;
ghost use Rattle.sums.specs.Entries.{sums_in};
ghost use Rattle.frame.specs.Frame.{local_point};
ghost use Rattle.frame.specs.Entries.{scale_in, centred_in, frame_in};
ghost use Rattle.capi.specs.Codes.{in_room};
ghost use Rattle.capi.specs.Arguments.{point_of, seed_of, limit_of, sums_of, frame_at};
ghost use Rattle.capi.specs.Answers.{flag_of, start_of, vector_numbers, point_numbers, scale_numbers};
ghost use Rattle.capi.specs.Promises as Promise;

// ---- the tree

#[unsafe(no_mangle)]
pub extern "C" fn ongdhuse_build(
    cloud: &[f32],
    coords: &mut [f32],
    indices: &mut [u32],
    slots: &mut u32,
) -> u32
    ensures { Promise.Builds (building cloud.now coords.old indices.old) result coords.old indices.old slots.old coords.new indices.new slots.new }
{
    capi::ongdhuse_build(cloud, coords, indices, slots)
}

#[unsafe(no_mangle)]
pub extern "C" fn ongdhuse_is_tree_of(
    cloud: &[f32],
    coords: &[f32],
    indices: &[u32],
    yes: &mut u32,
) -> u32
    ensures { Promise.Checks (checking cloud.now coords.now indices.now) result yes.old yes.new }
{
    capi::ongdhuse_is_tree_of(cloud, coords, indices, yes)
}

// ---- searches

#[unsafe(no_mangle)]
pub extern "C" fn ongdhuse_find_nearest_bounded(
    coords: &[f32],
    indices: &[u32],
    x: f32,
    y: f32,
    z: f32,
    bound_sq: f32,
    seeded: u32,
    seed_index: u32,
    seed_distance_sq: f32,
    found: &mut u32,
    index: &mut u32,
    distance_sq: &mut f32,
) -> u32
    ensures { Promise.Finds (Search.bounded coords.now indices.now (point_of x y z) bound_sq (seed_of seeded seed_index seed_distance_sq)) result found.old index.old distance_sq.old found.new index.new distance_sq.new }
{
    capi::ongdhuse_find_nearest_bounded(
        coords,
        indices,
        x,
        y,
        z,
        bound_sq,
        seeded,
        seed_index,
        seed_distance_sq,
        found,
        index,
        distance_sq,
    )
}

#[unsafe(no_mangle)]
pub extern "C" fn ongdhuse_find_nearest(
    coords: &[f32],
    indices: &[u32],
    x: f32,
    y: f32,
    z: f32,
    found: &mut u32,
    index: &mut u32,
    distance_sq: &mut f32,
) -> u32
    ensures { Promise.Finds (Search.unbounded coords.now indices.now (point_of x y z)) result found.old index.old distance_sq.old found.new index.new distance_sq.new }
{
    capi::ongdhuse_find_nearest(coords, indices, x, y, z, found, index, distance_sq)
}

#[unsafe(no_mangle)]
pub extern "C" fn ongdhuse_find_k_nearest_into(
    coords: &[f32],
    indices: &[u32],
    x: f32,
    y: f32,
    z: f32,
    k: u32,
    out_indices: &mut [u32],
    out_distances: &mut [f32],
    count: &mut u32,
) -> u32
    ensures { Promise.Lists squares_in (nearest_listing coords.now indices.now (point_of x y z) k out_indices.old out_distances.old) result out_indices.old out_distances.old count.old out_indices.new out_distances.new count.new }
{
    capi::ongdhuse_find_k_nearest_into(
        coords,
        indices,
        x,
        y,
        z,
        k,
        out_indices,
        out_distances,
        count,
    )
}

#[unsafe(no_mangle)]
pub extern "C" fn ongdhuse_find_k_nearest(
    coords: &[f32],
    indices: &[u32],
    x: f32,
    y: f32,
    z: f32,
    k: u32,
    out_indices: &mut [u32],
    out_distances: &mut [f32],
    count: &mut u32,
) -> u32
    ensures { Promise.Lists roots_in (nearest_listing coords.now indices.now (point_of x y z) k out_indices.old out_distances.old) result out_indices.old out_distances.old count.old out_indices.new out_distances.new count.new }
{
    capi::ongdhuse_find_k_nearest(
        coords,
        indices,
        x,
        y,
        z,
        k,
        out_indices,
        out_distances,
        count,
    )
}

#[unsafe(no_mangle)]
pub extern "C" fn ongdhuse_find_radius_neighbors(
    coords: &[f32],
    indices: &[u32],
    x: f32,
    y: f32,
    z: f32,
    radius: f32,
    out_indices: &mut [u32],
    out_distances: &mut [f32],
    count: &mut u32,
) -> u32
    ensures { Promise.Lists roots_in (radius_listing coords.now indices.now (point_of x y z) radius out_indices.old out_distances.old) result out_indices.old out_distances.old count.old out_indices.new out_distances.new count.new }
{
    capi::ongdhuse_find_radius_neighbors(
        coords,
        indices,
        x,
        y,
        z,
        radius,
        out_indices,
        out_distances,
        count,
    )
}

// ---- matching

#[unsafe(no_mangle)]
pub extern "C" fn ongdhuse_max_distance_sq(limited: u32, limit: f32) -> f32
    ensures { result ≡ bound_of (limit_of limited limit) }
{
    capi::ongdhuse_max_distance_sq(limited, limit)
}

#[unsafe(no_mangle)]
pub extern "C" fn ongdhuse_find_correspondences_seeded(
    source: &[f32],
    target: &[f32],
    coords: &[f32],
    indices: &[u32],
    limited: u32,
    limit: f32,
    matches: &mut [u32],
) -> u32
    ensures { Promise.Matches (match_in source.now target.now coords.now indices.now (limit_of limited limit) matches.old) result matches.old matches.new }
{
    capi::ongdhuse_find_correspondences_seeded(
        source, target, coords, indices, limited, limit, matches,
    )
}

#[unsafe(no_mangle)]
pub extern "C" fn ongdhuse_correspondence_pairs(
    matches: &[u32],
    sources: &mut [u32],
    targets: &mut [u32],
    count: &mut u32,
) -> u32
    ensures { Promise.ListsPairs (pairs_in matches.now sources.old targets.old) result sources.old targets.old count.old sources.new targets.new count.new }
{
    capi::ongdhuse_correspondence_pairs(matches, sources, targets, count)
}

#[unsafe(no_mangle)]
pub extern "C" fn ongdhuse_target_point(cloud: &[f32], index: u32) -> usize
    ensures { result ≡ start_of cloud.now index }
{
    capi::ongdhuse_target_point(cloud, index)
}

// ---- sums

#[unsafe(no_mangle)]
pub extern "C" fn ongdhuse_zero_sums(sums: &mut [f64], count: &mut u32) -> u32
    ensures { Promise.Sums (in_room (short sums.old 16) (gives Stats.zero_sums)) result sums.old count.old sums.new count.new }
{
    capi::ongdhuse_zero_sums(sums, count)
}

#[unsafe(no_mangle)]
pub extern "C" fn ongdhuse_collect(
    source: &[f32],
    target: &[f32],
    matches: &[u32],
    sums: &mut [f64],
    count: &mut u32,
) -> u32
    ensures { Promise.Sums (in_room (short sums.old 16) (sums_in source.now target.now matches.now)) result sums.old count.old sums.new count.new }
{
    capi::ongdhuse_collect(source, target, matches, sums, count)
}

#[unsafe(no_mangle)]
pub extern "C" fn ongdhuse_mse(count: u32, sum_sq_error: f64) -> f32
    ensures { result ≡ Stats.mse (sums_of count sum_sq_error) }
{
    capi::ongdhuse_mse(count, sum_sq_error)
}

// ---- scale and frame

#[unsafe(no_mangle)]
pub extern "C" fn ongdhuse_cloud_scale(cloud: &[f32], scale: &mut [f32]) -> u32
    ensures { Promise.Writes scale_numbers (in_room (short scale.old 4) (scale_in cloud.now)) result scale.old scale.new }
{
    capi::ongdhuse_cloud_scale(cloud, scale)
}

#[unsafe(no_mangle)]
pub extern "C" fn ongdhuse_centred_on(cloud: &[f32], origin: &mut [f64]) -> u32
    ensures { Promise.Writes (λ f. vector_numbers f.origin) (in_room (short origin.old 3) (centred_in cloud.now)) result origin.old origin.new }
{
    capi::ongdhuse_centred_on(cloud, origin)
}

#[unsafe(no_mangle)]
pub extern "C" fn ongdhuse_if_far_from_origin(
    cloud: &[f32],
    origin: &mut [f64],
    is_far: &mut u32,
) -> u32
    ensures { Promise.Frames (in_room (short origin.old 3) (frame_in cloud.now)) result origin.old is_far.old origin.new is_far.new }
{
    capi::ongdhuse_if_far_from_origin(cloud, origin, is_far)
}

#[unsafe(no_mangle)]
pub extern "C" fn ongdhuse_point_to_local(
    origin_x: f64,
    origin_y: f64,
    origin_z: f64,
    x: f32,
    y: f32,
    z: f32,
    local: &mut [f32],
) -> u32
    ensures { Promise.Writes point_numbers (in_room (short local.old 3) (gives (local_point (frame_at origin_x origin_y origin_z) (point_of x y z)))) result local.old local.new }
{
    capi::ongdhuse_point_to_local(origin_x, origin_y, origin_z, x, y, z, local)
}

// ---- what is read off one number

#[unsafe(no_mangle)]
pub extern "C" fn ongdhuse_is_finite(x: f32) -> u32
    ensures { result ≡ flag_of (finite x) }
{
    capi::ongdhuse_is_finite(x)
}

#[unsafe(no_mangle)]
pub extern "C" fn ongdhuse_next_up(x: f32) -> f32
    ensures { result ≡ next_up x }
{
    capi::ongdhuse_next_up(x)
}

#[unsafe(no_mangle)]
pub extern "C" fn ongdhuse_widen(x: f32) -> f64
    ensures { result ≡ Convert.widen x }
{
    capi::ongdhuse_widen(x)
}

#[unsafe(no_mangle)]
pub extern "C" fn ongdhuse_narrow(x: f64) -> f32
    ensures { result ≡ Convert.narrow x }
{
    capi::ongdhuse_narrow(x)
}

#[unsafe(no_mangle)]
pub extern "C" fn ongdhuse_key(x: f32) -> u32
    ensures { result ≡ Key.key x }
{
    capi::ongdhuse_key(x)
}

#[unsafe(no_mangle)]
pub extern "C" fn ongdhuse_sqrt_f32(x: f32) -> f32
    ensures { result ≡ root binary32 x }
{
    capi::ongdhuse_sqrt_f32(x)
}

#[unsafe(no_mangle)]
pub extern "C" fn ongdhuse_sqrt_f64(x: f64) -> f64
    ensures { result ≡ root binary64 x }
{
    capi::ongdhuse_sqrt_f64(x)
}
