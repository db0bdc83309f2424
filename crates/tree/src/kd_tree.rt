// The tree's constants, and its levels.
ghost use Rattle.std.specs.Prelude.{◌≡◌};
ghost use Rattle.tree.specs.Levels.{levels};

// A k-d tree is lent as two slices, three coordinates and one index to a slot (`KdTreeView`); the type holds its constants.
#[derive(Clone, Copy, Debug, PartialEq, Eq)]
pub struct KdTree {
    pub len: u32,
}

impl KdTree {
    // A match entry of this value means no match, and as a seed no seed; the Rust's value for a missing child.
    pub const NO_CHILD: u32 = 4294967295;

    // The most points of a cloud, slots of a tree or entries of a match list.
    pub const MAX_POINTS: usize = 1048576;

    // Places on the stack of far parts that wait.
    pub const MAX_STACK: usize = 32;

    // How many levels a tree of m slots has.
    pub fn levels(m: u32) -> u32
        ensures { result ≡ levels m }
    {
        32 - u32::leading_zeros(m)
    }
}
