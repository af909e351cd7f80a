//! The text that describes a board, at bounds that no board of the program reaches. All others are seen on its watch port.

use crate::tests::claims::claim;
use crate::tests::values::{board_of, move_of, position_of};
use relay_messages::{BoardSummary, encode_board};

/// The text.
fn longest() -> &'static str {
    "{\"board\":\"ABCDEFGHIJKLMNOPQRSTUVWXYZ_-0189\",\"fen\":\"Q7/8/8/8/8/8/8/4K2k b - - 0 65535\",\
        \"last\":\"a7a8q\",\"outcome\":null,\"plies\":65535,\"reply\":\"board\",\"start\":65535}"
}

#[test]
fn the_longest_name_and_the_greatest_numbers_are_in_the_text(rt: HostRuntime) {
    let summary = BoardSummary {
        board: board_of(&rt, "ABCDEFGHIJKLMNOPQRSTUVWXYZ_-0189"),
        start: 65535,
        position: position_of(&rt, "Q7/8/8/8/8/8/8/4K2k b - - 0 65535"),
        last: Some(move_of(&rt, "a7a8q")),
        plies: 65535,
        outcome: None,
    };
    let given = encode_board(rt.alloc(), &summary).expect(&rt, "memory");
    claim(&rt, given.as_str() == longest(), "the text");
}
