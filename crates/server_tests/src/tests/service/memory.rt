//! Lack of memory, with few random events. If one allocation is refused (`rt try --test --fail-alloc N`, for each N in turn), whoever asked
//! for it is told so, finds nothing changed or the step made, and goes on, unless its connection is lost; the service stays what the plain
//! model is.

use crate::tests::hall::answers::OPENED;
use crate::tests::service::people::people;
use crate::tests::service::scene::Scene;

/// In these a board is opened, played on and followed. If nothing is refused, its end is told to a follower too, and somebody comes back.
const EVENTS: u32 = 800;

#[test]
fn whoever_is_refused_memory_asks_again(rt: HostRuntime) {
    let mut people = people(&rt, rt.alloc());
    let mut scene = Scene::new(&rt, rt.alloc(), 40, 309);
    for _ in 0..EVENTS {
        scene.happens(&rt, people.as_mut_slice());
    }
    for word in [OPENED, "played", "following"] {
        assert!(rt; scene.plain.seen.has(word), "no {word}");
    }
    for word in ["over", "came back"] {
        assert!(rt;
            scene.plain.seen.has(word) || scene.refused > 0,
            "no {word}"
        );
    }
    drop((people, scene));
}
