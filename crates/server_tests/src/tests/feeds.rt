//! Boards that loops are told of, beside the hall where they are played: random games, told in random pieces and taken in at random times.

mod scene;

use crate::tests::claims::claim;
use crate::tests::feeds::scene::Scene;

/// How many halls there are, and how many events in each.
const HALLS: u32 = 40;

const EVENTS: u32 = 2000;

/// As many boards as there may be, each of so many moves, are more news than a loop may have yet to take in.
const MOST: u16 = 256;

const CYCLE: u16 = 16;

#[test]
fn each_loop_shows_a_beginning_of_each_game_and_then_all_of_it(rt: HostRuntime) {
    let (mut late, mut longest) = (0u32, 0u16);
    for seed in 0..HALLS {
        let mut scene = Scene::new(&rt, rt.alloc(), (12, 1, 1, 12), seed);
        for _ in 0..EVENTS {
            scene.happens(&rt);
        }
        late = late.wrapping_add(scene.late);
        longest = longest.max(scene.longest);
        claim(&rt, scene.tells_all(), "all is told");
        claim(&rt, scene.shows_all(), "all is shown");
        drop(scene);
    }
    claim(&rt, late > 0, "some loops were late");
    claim(&rt, longest == 12, "some games were full");
}

#[test]
fn what_a_full_ring_does_not_take_is_told_later(rt: HostRuntime) {
    let mut scene = Scene::new(&rt, rt.alloc(), (MOST, 1, 1, 64), 0);
    for board in 0..MOST {
        scene.opens(&rt, board);
        for place in 0..CYCLE {
            scene.plays(&rt, board, place);
        }
    }
    claim(&rt, !scene.tells_all(), "the rings are full");
    scene.take_in();
    claim(&rt, scene.shows_beginnings(), "beginnings are shown");
    claim(&rt, !scene.shows_all(), "not all is shown yet");
    claim(&rt, scene.tells_all(), "the rest is told");
    claim(&rt, scene.shows_all(), "all is shown");
    drop(scene);
}
