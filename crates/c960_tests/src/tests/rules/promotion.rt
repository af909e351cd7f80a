//! Promotion (FIDE Laws, Article 3.7.5).

use crate::tests::rules::lists::assert_list;
use crate::tests::rules::reading::assert_played;

#[test]
fn a_promotion_names_each_of_four_pieces_at_any_counters(rt: HostRuntime) {
    for position in [
        "8/P6k/8/8/8/8/8/K7 w - - 0 1",
        "8/P6k/8/8/8/8/8/K7 w - - 65535 65535",
    ] {
        assert_list(
            &rt,
            rt.alloc(),
            position,
            "a1b1 a1a2 a1b2 a7a8n a7a8b a7a8r a7a8q",
        );
    }
}

#[test]
fn a_promotion_that_takes_a_rook_ends_its_right(rt: HostRuntime) {
    assert_played(
        &rt,
        &[(
            "r3k3/1P6/8/8/8/8/8/4K3 w a - 0 1",
            "b7a8q",
            "Q3k3/8/8/8/8/8/8/4K3 b - - 0 1",
        )],
    );
}
