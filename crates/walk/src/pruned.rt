// The one pruned walk: what a search does at a slot and when it enters a far part is its own; the stack is not.
ghost use Rattle.std.specs.Prelude.{◌≡◌, ℕ, suc, ◌*◌, ◌<◌, ◌≤◌, length};
ghost use Rattle.tree.specs.Slots.{Slot};
ghost use Rattle.walk.specs.Pruned.{Rule, Met, Begins, walked};

use crate::{Group, Waiting};
use space::Point3f;
use tree::{KdTree, KdTreeView};

// A search by the pruned walk.
pub trait Search {
    // What was asked: what stays as it is while the walk goes on.
    ghost Asked: { Type 0 };

    // What is held.
    ghost State: { Type 0 };

    // The search in the words of the tree's `walk`.
    ghost rule: { Asked → Rule State };

    // The search was asked this, holds this, and has room for so many slots more.
    ghost Holds: { Asked → ℕ → Self → State → Type 0 };

    // Looks at the slot at `at`, so far from the query.
    fn visit(&mut self, at: u32, distance_sq: f32)
        requires { (asked : Asked) × (room : ℕ) × (held : State) × (at < length (rule asked).indices) × Holds asked (suc room) self.old held }
        ensures { (asked : Asked) (room : ℕ) (held : State) (n : Slot) → Met (rule asked) at distance_sq n → Holds asked (suc room) self.old held → Holds asked room self.new ((rule asked).visit n held) };

    // Whether a far part is entered, by the squared distance to its plane.
    fn enters(&self, plane_sq: f32) -> bool
        requires { (asked : Asked) × (room : ℕ) × (held : State) × Holds asked room self.now held }
        ensures { (asked : Asked) (room : ℕ) (held : State) → Holds asked room self.now held → result ≡ (rule asked).enters plane_sq held };
}

// The near part is gone into at once, far parts wait, and each is judged when it is put on the stack and again when it is taken off.
pub fn pruned_walk<S: Search>(tree: &KdTreeView, query: Point3f, search: &mut S)
    requires { (asked : S.Asked) × (held : S.State) × Begins S.rule S.Holds (length tree.now.indices) query search.old asked held }
    ensures { (asked : S.Asked) (held : S.State) → Begins S.rule S.Holds (length tree.now.indices) query search.old asked held → (room : ℕ) × S.Holds asked room search.new (walked (S.rule asked) tree.now.coords held) }
{
    let coords = tree.coords();
    let m = tree.len();
    // No more far parts wait than there are levels, as 01 bounds them; those that do stand from free up to places of a list of fixed length.
    let places = KdTree::levels(m) as usize;
    let mut stack = [Waiting::none(); KdTree::MAX_STACK];
    let mut free = places;
    let mut group = Group::whole(m);
    // A walk, not a count: it ends when nothing waits.
    loop {
        if group.len == 0 {
            if free == places {
                return;
            }
            let far = stack[free];
            free += 1;
            if search.enters(far.plane_sq) {
                group = far.group;
            }
        } else {
            let node = group.look(coords, query);
            search.visit(group.start, node.distance_sq);
            group = node.near;
            let far = node.far;
            if far.waits(search.enters(far.plane_sq)) {
                free -= 1;
                stack[free] = far;
            }
        }
    }
}
