// Which target point each source point belongs to: the limit, matching with seeds, the pair list, and a target point as a part of its cloud.
#![tactic(auto)]

ghost use Rattle.std.specs.Prelude.{◌||◌, ◌≡◌, ◌<◌, ◌≤◌, length, get_or, set};
ghost use Rattle.tree.specs.Refuse.{no_match, overwrite, gives, count, ragged, uneven, mismatched, too_many, any_entry_outside, any_index_outside};
ghost use Rattle.tree.specs.Refusal.{outcome_of};
ghost use Rattle.matching.specs.Limit.{bound_of};
ghost use Rattle.matching.specs.Pairs.{pairs, sources_of, targets_of};
ghost use Rattle.matching.specs.Refusals.{on_matching, Clear};
ghost use Rattle.matching.specs.Matching.{seed_of, match_of, answer_for, match_all};
ghost use Rattle.matching.specs.Promises.{HandsPart, ListsPairs, Matches};

use search::Nearest;
use space::Point3f;
use tree::{KdTree, KdTreeView, PointCloud, Refusal};

// The bound under which bounded search finds the points within a limit: a point at exactly the limit is found.
#[tactic(auto, unfolding(crate::specs::Limit::bound_of))]
pub fn max_distance_sq(limit: Option<f32>) -> f32
    ensures { result ≡ bound_of limit }
{
    match limit {
        Some(d) if d < 0.0 => 0.0,
        Some(d) if d >= 0.0 => bits::next_up(d * d),
        _ => f32::INFINITY,
    }
}

// The three numbers of a point, as a part of the cloud itself; the empty part where there is no such point.
#[tactic(auto, unfolding(crate::specs::TargetPoint::part_at, crate::specs::TargetPoint::place_of))]
pub fn target_point(cloud: &[f32], index: u32) -> &[f32]
    ensures { HandsPart cloud.entry.ref_ptr cloud.now index result.ref_ptr result.now }
{
    let n = cloud.len() / 3;
    let i = index as usize;
    if cloud.len() % 3 != 0 || KdTree::MAX_POINTS < n || n <= i {
        return &cloud[..0];
    }
    let a = 3 * i;
    let e = a + 3;
    &cloud[a..e]
}

// How many entries are matched.
fn count_matched(matches: &[u32]) -> usize
    ensures { result ≡ length (pairs matches.now) }
{
    // `filter(..).count()` branches at each entry: the pair list took half as many instructions more.
    let mut n = 0;
    for &m in matches {
        n += usize::from(m != KdTree::NO_CHILD);
    }
    n
}

// Source and target index of each matched entry, written where there is room for all of them.
fn write_pairs(matches: &[u32], sources: &mut [u32], targets: &mut [u32])
    requires { (length matches.now ≤ 1048576) × (length (pairs matches.now) ≤ length sources.old) × (length (pairs matches.now) ≤ length targets.old) }
    ensures { (sources.new ≡ overwrite (sources_of (pairs matches.now)) sources.old) × (targets.new ≡ overwrite (targets_of (pairs matches.now)) targets.old) }
{
    let mut n = 0;
    for (i, &m) in matches.iter().enumerate() {
        if m != KdTree::NO_CHILD {
            sources[n] = i as u32;
            targets[n] = m;
            n += 1;
        }
    }
}

// The pair list: source and target index of each matched entry, in source order. Tells how many pairs it wrote.
#[tactic(auto, unfolding(crate::specs::Pairs::pairs_in))]
pub fn correspondence_pairs(
    matches: &[u32],
    sources: &mut [u32],
    targets: &mut [u32],
) -> Result<usize, Refusal>
    ensures { ListsPairs matches.now sources.old targets.old result sources.new targets.new }
{
    if KdTree::MAX_POINTS < matches.len() {
        return Err(Refusal::TooMany);
    }
    let n = count_matched(matches);
    if sources.len() < n || targets.len() < n {
        return Err(Refusal::ShortOutput);
    }
    write_pairs(matches, sources, targets);
    Ok(n)
}

// The refusals of matching, in their order.
fn check_lent(
    source: &[f32],
    target: &[f32],
    coords: &[f32],
    indices: &[u32],
    matches: &[u32],
) -> Result<(), Refusal>
    ensures { outcome_of result ≡ on_matching source.now target.now coords.now indices.now matches.now (gives tt) }
{
    if source.len() % 3 != 0
        || target.len() % 3 != 0
        || coords.len() != 3 * indices.len()
        || matches.len() != source.len() / 3
    {
        return Err(Refusal::UnfitLengths);
    }
    let n = target.len() / 3;
    if KdTree::MAX_POINTS < source.len() / 3
        || KdTree::MAX_POINTS < n
        || KdTree::MAX_POINTS < indices.len()
        || KdTree::MAX_POINTS < matches.len()
    {
        return Err(Refusal::TooMany);
    }
    if source.len() / 3 == 0 || n == 0 {
        return Err(Refusal::NothingToMatch);
    }
    if tree::any_entry_outside(n, matches) || tree::any_index_outside(n, indices) {
        return Err(Refusal::OutsideIndex);
    }
    Ok(())
}

// What stays while the entries are written.
#[derive(Drop)]
struct Matching<'a> {
    source: PointCloud<'a>,
    target: PointCloud<'a>,
    tree: KdTreeView<'a>,
    bound_sq: f32,
}

impl<'a> Matching<'a> {
    // The seed of a source point with its distance, or none.
    #[tactic(auto, unfolding(crate::specs::Matching::seed_of))]
    fn seed_of(&self, query: Point3f, seed: u32) -> Nearest
        requires { (seed ≡ no_match → ⊥) → seed < count self.now.target }
        ensures { result ≡ seed_of self.now.target query seed }
    {
        if seed == KdTree::NO_CHILD {
            return Nearest::Nothing;
        }
        let point = self.target.point(seed as usize);
        Nearest::Found(seed, point.distance_squared(query))
    }

    // The entry of source point i: from its seed to the index that the search finds, or no match.
    #[tactic(auto, unfolding(crate::specs::Matching::answer_for))]
    fn match_point(&self, i: usize, entry: &mut u32)
        requires point_inside { i < count self.now.source }
        requires seed_inside { (entry.old ≡ no_match → ⊥) → entry.old < count self.now.target }
        ensures { entry.new ≡ match_of (answer_for self.now.source self.now.target self.now.tree.coords self.now.tree.indices self.now.bound_sq i entry.old) }
    {
        let query = self.source.point(i);
        let seed = self.seed_of(query, *entry);
        let Nearest::Found(index, _) = search::nearest_in(&self.tree, query, self.bound_sq, seed)
        else {
            *entry = KdTree::NO_CHILD;
            return;
        };
        *entry = index;
    }

    // Every entry of the match list, in source order.
    #[tactic(auto, unfolding(crate::specs::Matching::match_all))]
    fn match_all(&self, matches: &mut [u32])
        requires { Clear self.now.source self.now.target self.now.tree.coords self.now.tree.indices matches.old }
        ensures { matches.new ≡ match_all self.now.source self.now.target self.now.tree.coords self.now.tree.indices self.now.bound_sq matches.old }
    {
        for (i, entry) in matches.iter_mut().enumerate() {
            self.match_point(i, entry);
        }
    }
}

// Matches every source point in order. The match list lends the seeds, and holds the matches afterwards.
pub fn find_correspondences_seeded(
    source: &[f32],
    target: &[f32],
    coords: &[f32],
    indices: &[u32],
    limit: Option<f32>,
    matches: &mut [u32],
) -> Result<(), Refusal>
    ensures { Matches source.now target.now coords.now indices.now limit matches.old result matches.new }
{
    check_lent(source, target, coords, indices, matches)?;
    let matching = Matching {
        source: PointCloud::new(source),
        target: PointCloud::new(target),
        tree: KdTreeView::new(coords, indices),
        bound_sq: max_distance_sq(limit),
    };
    matching.match_all(matches);
    Ok(())
}
