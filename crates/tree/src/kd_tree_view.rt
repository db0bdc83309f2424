// A k-d tree as it is lent, once the lengths of its two slices have been tested.
ghost use Rattle.std.specs.Prelude.{◌≡◌, ◌*◌, ◌≤◌, length};
ghost use Rattle.tree.specs.Refuse.{gives, on_tree};
ghost use Rattle.tree.specs.Refusal.{outcome_of};
ghost use Rattle.tree.specs.Lent.{Lent, IsLent};

use crate::{KdTree, Refusal};
use std::marker::Model;

// Three coordinates and one index to a slot, and no more slots than a tree may have.
#[derive(Drop)]
pub struct KdTreeView<'a> {
    coords: &'a [f32],
    indices: &'a [u32],
}

impl<'a> Model for KdTreeView<'a> {
    ghost Value = { Lent };

    ghost view = { λ t. record { coords = t.coords.now; indices = t.indices.now } };

    ghost invariant = { λ t. IsLent t.coords.now t.indices.now };
}

impl<'a> KdTreeView<'a> {
    // Refuses slots whose lengths do not fit one another, or that are too many.
    #[inline]
    pub fn of(coords: &'a [f32], indices: &'a [u32]) -> Result<KdTreeView<'a>, Refusal>
        ensures { outcome_of result ≡ on_tree coords.now indices.now (gives (record { coords = coords.now; indices = indices.now })) }
    {
        if coords.len() != 3 * indices.len() {
            return Err(Refusal::UnfitLengths);
        }
        if KdTree::MAX_POINTS < indices.len() {
            return Err(Refusal::TooMany);
        }
        Ok(KdTreeView { coords, indices })
    }

    // The same of slots whose lengths are known to fit.
    #[inline]
    pub fn new(coords: &'a [f32], indices: &'a [u32]) -> KdTreeView<'a>
        requires even { length coords.now ≡ 3 * length indices.now }
        requires few { length indices.now ≤ 1048576 }
        ensures { result ≡ record { coords = coords.now; indices = indices.now } }
    {
        KdTreeView { coords, indices }
    }

    // How many slots there are.
    #[inline]
    pub fn len(&self) -> u32
        ensures all { result ≡ length self.now.indices }
        ensures few { result ≤ 1048576 }
    {
        self.indices.len() as u32
    }

    // Three coordinates to a slot.
    #[inline]
    pub fn coords(&self) -> &'a [f32]
        ensures held { result.now ≡ self.now.coords }
        ensures even { length result.now ≡ 3 * length self.now.indices }
    {
        self.coords
    }

    // The index of each slot's point.
    #[inline]
    pub fn indices(&self) -> &'a [u32]
        ensures held { result.now ≡ self.now.indices }
        ensures few { length result.now ≤ 1048576 }
    {
        self.indices
    }
}
