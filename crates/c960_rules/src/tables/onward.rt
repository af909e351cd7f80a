//! A square and those behind it, square by square.

ghost use Rattle.std.specs.Prelude.{◌≡◌, ◌<◌, ℕ, not};
ghost use Rattle.c960_rules.specs.Inner.Rays.{above};
ghost use Rattle.c960_rules.specs.Inner.Wheres.{where_set};

use crate::tables::table;

/// The square of the index and those with higher numbers.
pub static ONWARD: [u64; 64] = table! {
    0xffffffffffffffff 0xfffffffffffffffe 0xfffffffffffffffc 0xfffffffffffffff8 0xfffffffffffffff0 0xffffffffffffffe0 0xffffffffffffffc0 0xffffffffffffff80
    0xffffffffffffff00 0xfffffffffffffe00 0xfffffffffffffc00 0xfffffffffffff800 0xfffffffffffff000 0xffffffffffffe000 0xffffffffffffc000 0xffffffffffff8000
    0xffffffffffff0000 0xfffffffffffe0000 0xfffffffffffc0000 0xfffffffffff80000 0xfffffffffff00000 0xffffffffffe00000 0xffffffffffc00000 0xffffffffff800000
    0xffffffffff000000 0xfffffffffe000000 0xfffffffffc000000 0xfffffffff8000000 0xfffffffff0000000 0xffffffffe0000000 0xffffffffc0000000 0xffffffff80000000
    0xffffffff00000000 0xfffffffe00000000 0xfffffffc00000000 0xfffffff800000000 0xfffffff000000000 0xffffffe000000000 0xffffffc000000000 0xffffff8000000000
    0xffffff0000000000 0xfffffe0000000000 0xfffffc0000000000 0xfffff80000000000 0xfffff00000000000 0xffffe00000000000 0xffffc00000000000 0xffff800000000000
    0xffff000000000000 0xfffe000000000000 0xfffc000000000000 0xfff8000000000000 0xfff0000000000000 0xffe0000000000000 0xffc0000000000000 0xff80000000000000
    0xff00000000000000 0xfe00000000000000 0xfc00000000000000 0xf800000000000000 0xf000000000000000 0xe000000000000000 0xc000000000000000 0x8000000000000000
};

/// The squares of this number and of the higher ones. A look at a table is one step, where the shift that makes this set, by a number that
/// has just been found, is several.
#[inline(always)]
pub fn onward(first: u32) -> u64
    requires { first < 64 }
    ensures { result ≡ where_set (λ t. not (above first t)) }
{
    ONWARD[first as usize]
}
