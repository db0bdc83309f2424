// Bounded and unbounded search on the slots of a tree, which are lent as two slices.
#![tactic(auto)]

ghost use Rattle.std.specs.Prelude.{◌≡◌};
ghost use Rattle.bits.specs.Constants.{infinite};
ghost use Rattle.tree.specs.Refusal.{outcome_of};
ghost use Rattle.search.specs.declared.Nearest.{Nearest};
ghost use Rattle.search.specs.Search.{limit, first_best, searched, bounded, unbounded};
ghost use Rattle.search.specs.Demands.{MeetsDemand2, MeetsDemand3};

use space::Point3f;
use tree::{KdTreeView, Refusal};
use walk::Search;

// An index with its squared distance, or nothing: the answer, the best so far, and the seed. An enum by value, not an `Option`, as 01 says.
#[derive(Clone, Copy, Debug, PartialEq)]
pub enum Nearest {
    Found(u32, f32),
    Nothing,
}

impl Nearest {
    // The distance that a point has to be strictly below.
    fn limit(self, bound_sq: f32) -> f32
        ensures { result ≡ limit bound_sq self }
    {
        match self {
            Nearest::Found(_, d) => d,
            Nearest::Nothing => bound_sq,
        }
    }

    // A seed is the first best only if it is below the bound.
    fn first(self, bound_sq: f32) -> Nearest
        ensures { result ≡ first_best bound_sq self }
    {
        match self {
            Nearest::Found(_, d) if d < bound_sq => self,
            _ => Nearest::Nothing,
        }
    }
}

// The best so far beside the distance that a slot has to be strictly below.
#[derive(Clone, Copy, Debug, PartialEq)]
pub struct Held {
    pub best: Nearest,
    pub limit: f32,
}

// Bounded search while it walks.
#[derive(Drop)]
struct Bounded<'a> {
    indices: &'a [u32],
    held: Held,
}

impl Search for Bounded<'_> {
    ghost use Rattle.search.specs.Bounded.{Asked, rule, Holds};

    ghost Asked = { Asked };

    ghost State = { Nearest };

    ghost rule = { rule };

    ghost Holds = { λ asked room search best. Holds asked search best };

    // A slot replaces the best only when strictly nearer.
    fn visit(&mut self, at: u32, distance_sq: f32) {
        if distance_sq < self.held.limit {
            self.held = Held {
                best: Nearest::Found(self.indices[at as usize], distance_sq),
                limit: distance_sq,
            };
        }
    }

    fn enters(&self, plane_sq: f32) -> bool {
        plane_sq < self.held.limit
    }
}

// The search in a tree whose lengths have been tested.
pub fn nearest_in(tree: &KdTreeView, query: Point3f, bound_sq: f32, seed: Nearest) -> Nearest
    ensures { result ≡ searched tree.now.coords tree.now.indices query bound_sq seed }
{
    let first = seed.first(bound_sq);
    let mut search = Bounded {
        indices: tree.indices(),
        held: Held {
            best: first,
            limit: first.limit(bound_sq),
        },
    };
    walk::pruned_walk(tree, query, &mut search);
    search.held.best
}

// The nearest slot strictly below the bound, or the seed where that is below it and no slot is nearer; or nothing.
pub fn find_nearest_bounded(
    coords: &[f32],
    indices: &[u32],
    query: Point3f,
    bound_sq: f32,
    seed: Nearest,
) -> Result<Nearest, Refusal>
    ensures rule { outcome_of result ≡ bounded coords.now indices.now query bound_sq seed }
    ensures demand2 { MeetsDemand2 coords.now indices.now query bound_sq seed result }
{
    let tree = KdTreeView::of(coords, indices)?;
    Ok(nearest_in(&tree, query, bound_sq, seed))
}

// The nearest slot, whatever its distance below infinity; or nothing.
pub fn find_nearest(coords: &[f32], indices: &[u32], query: Point3f) -> Result<Nearest, Refusal>
    ensures rule { outcome_of result ≡ unbounded coords.now indices.now query }
    ensures demand2 { MeetsDemand2 coords.now indices.now query infinite (Nearest.Nothing) result }
    ensures demand3 { MeetsDemand3 coords.now indices.now query result }
{
    find_nearest_bounded(coords, indices, query, walk::infinity(), Nearest::Nothing)
}
