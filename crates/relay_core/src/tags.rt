//! A row of tags, in which the places of one tag are looked for.

ghost use Rattle.std.specs.Prelude.{◌≡◌, ◌+◌, ◌-◌, ◌<◌, ◌≤◌, ◌==◌, length, map, drop, slice_index};
ghost use Rattle.std.specs.Simd.Lanes.{chunk, mask_l};
ghost use Rattle.relay_core.specs.Inner.TagRow.{PassesOver, IsSearch};

use std::simd::prelude::*;
use std::snapshot::Snapshot;

/// How many tags are compared at once: as many as a mask has bits. The end of each mask is often a branch misprediction, so there are few
/// of them.
const LANES: usize = 64;

/// Which of the sixty-four tags from a place on are this one: bit k of the answer is 1 if the tag at the k-th place after it is. They are
/// compared at once, as the lanes of a vector: a row has the tags of all boards' followers, of which most are others.
#[inline(always)]
fn marks(tags: &[u32], at: usize, tag: u32) -> u64
    requires { at + LANES ≤ length tags.now }
    ensures { result ≡ mask_l (map (λ t. t == tag) (chunk at LANES tags.now)) }
{
    u32x64::from_slice(&tags[at..])
        .simd_eq(u32x64::splat(tag))
        .to_bitmask()
}

/// The same of the tags from a place on to the last, which are fewer than sixty-four. It is called once in a search at most, so it is not
/// made part of the loops that search.
#[inline(never)]
fn last_marks(tags: &[u32], at: usize, tag: u32) -> u64
    requires inside { at ≤ length tags.now }
    requires few { length tags.now - at < LANES }
    ensures { result ≡ mask_l (map (λ t. t == tag) (drop at tags.now)) }
{
    let mut marks = 0;
    let mut place = tags.len();
    while place > at {
        place -= 1;
        marks = 2 * marks + u64::from(tags[place] == tag);
    }
    marks
}

/// A search for one tag in a row, from its first place on. A block of the row is compared once, and then the places that have the tag are
/// read from the bits of its mask: the next one waits only for the lowest bit to be taken out of a number, and for no compare.
#[derive(Drop)]
pub(crate) struct TagSearch {
    /// The place after the last one that was found. Only clauses read it: it takes no memory.
    from: Snapshot<usize>,
    /// Where the block begins.
    block: usize,
    /// Where the block ends, and the next one begins.
    ahead: usize,
    /// Which places of the block have the tag and have not been found yet: bit k is 1 if the k-th after its beginning is one.
    left: u64,
}

impl TagSearch {
    /// The search before the first place.
    #[inline(always)]
    pub(crate) fn new() -> TagSearch
        ensures from { result.from.value ≡ 0 }
        ensures block { result.block ≡ 0 }
        ensures ahead { result.ahead ≡ 0 }
        ensures left { result.left ≡ 0 }
    {
        TagSearch {
            from: Snapshot::of(&0),
            block: 0,
            ahead: 0,
            left: 0,
        }
    }

    /// Marks the tags of the next block, of which there is one.
    #[inline(always)]
    fn mark(&mut self, tags: &[u32], tag: u32)
        requires search { IsSearch tags.now tag self.old }
        requires empty { self.old.left ≡ 0 }
        requires more { self.old.ahead < length tags.now }
        ensures search { IsSearch tags.now tag self.new }
        ensures from { self.new.from.value ≡ self.old.from.value }
        ensures ahead { self.old.ahead < self.new.ahead }
    {
        self.block = self.ahead;
        if tags.len() - self.block >= LANES {
            self.left = marks(tags, self.block, tag);
            self.ahead = self.block + LANES;
        } else {
            self.left = last_marks(tags, self.block, tag);
            self.ahead = tags.len();
        }
    }

    /// The next place that has this tag, or the number of tags if none has. Whether a block has any is a branch of its own, which is mostly
    /// predicted: one count that gives the block's length for an empty mask would make each block wait for the one before.
    #[inline(always)]
    pub(crate) fn next(&mut self, tags: &[u32], tag: u32) -> usize
        requires { IsSearch tags.now tag self.old }
        ensures behind { self.old.from.value ≤ result }
        ensures bound { result ≤ length tags.now }
        ensures passed { PassesOver tags.now tag self.old.from.value result }
        ensures found { result < length tags.now → slice_index tags.now result ≡ tag }
        ensures search { IsSearch tags.now tag self.new }
        ensures on { result < length tags.now → self.new.from.value ≡ result + 1 }
    {
        while self.left == 0 {
            if self.ahead == tags.len() {
                return self.ahead;
            }
            self.mark(tags, tag);
        }
        let place = self.block + self.left.trailing_zeros() as usize;
        self.left &= self.left - 1;
        self.from = Snapshot::of(&(place + 1));
        place
    }
}
