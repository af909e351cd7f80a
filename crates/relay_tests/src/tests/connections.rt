//! What connections are answered. The rows hold with ample memory, and if one allocation is refused, each in turn (`rt try --test
//! --fail-alloc N`): then the call that needed it says so, and made the whole step that was asked for, or none.

use crate::relay_keeper::RelayKeeper;
use crate::tests::claims::{claim, claim_of};
use crate::tests::connections::Keeping::{Makes, NotAsked, Refuses};
use crate::tests::connections::Who::{Guest, Owner, Stranger};
use crate::tests::fakes::NotingKeeper;
use crate::tests::values::board_of;
use c960_game::{Ending, Outcome};
use relay_core::{BoardName, Reply, Step, Taken};
use relay_pushing::{Conn, Keeper};
use relay960_engines::default_limits;
use std::alloc::{AllocError, Global};
use std::process::Abort;

/// Who speaks: the owner of boards `b1` and `a`, that of board `c`, or a connection that has opened nothing.
#[derive(Clone, Copy)]
enum Who {
    Owner,
    Stranger,
    Guest,
}

/// What the keeper does with a text's step.
#[derive(Clone, Copy)]
enum Keeping {
    /// It is not asked.
    NotAsked,
    /// It refuses the step.
    Refuses,
    /// It makes the step. If the step is made once more, it gets this answer.
    Makes(&'static str),
}

type Row = (Who, &'static str, &'static str, Keeping);

const OPEN_B1: &str = "{\"cmd\":\"open\",\"board\":\"b1\",\"start\":518}";

const OPEN_A: &str = "{\"cmd\":\"open\",\"board\":\"a\",\"start\":0}";

const OPEN_C: &str = "{\"cmd\":\"open\",\"board\":\"c\",\"start\":1}";

const SUBMIT: &str = "{\"cmd\":\"submit\",\"board\":\"b1\",\"move\":\"e2e4\"}";

const END: &str = "{\"cmd\":\"end\",\"board\":\"b1\",\"how\":\"agreed\"}";

const FOLLOW_B1: &str = "{\"cmd\":\"follow\",\"board\":\"b1\",\"spectator\":7}";

const FOLLOW_B9: &str = "{\"cmd\":\"follow\",\"board\":\"b9\",\"spectator\":7}";

const OPENED: &str = "{\"reply\":\"opened\"}";

const PLAYED: &str = "{\"outcome\":null,\"place\":0,\"reply\":\"played\"}";

const FOLLOWING: &str =
    "{\"fen\":\"rnbqkbnr/pppppppp/8/8/4P3/8/PPPP1PPP/RNBQKBNR b HAha e3 0 1\",\"joined\":1,\"reply\":\"following\"}";

const ENDED: &str = "{\"outcome\":\"agreed\",\"reply\":\"ended\"}";

const NO_SUCH: &str = "{\"code\":1,\"name\":\"NoSuchBoard\",\"reply\":\"refused\"}";

const EXISTS: &str = "{\"code\":2,\"name\":\"BoardExists\",\"reply\":\"refused\"}";

const GAME_OVER: &str = "{\"code\":5,\"name\":\"GameOver\",\"reply\":\"refused\"}";

const ILLEGAL: &str = "{\"code\":6,\"name\":\"Illegal\",\"reply\":\"refused\"}";

const FOLLOWS: &str = "{\"code\":10,\"name\":\"FollowerExists\",\"reply\":\"refused\"}";

const NOT_YOURS: &str = "{\"code\":13,\"name\":\"NotYourBoard\",\"reply\":\"refused\"}";

const WRONG_MODE: &str = "{\"code\":14,\"name\":\"WrongMode\",\"reply\":\"refused\"}";

static ROWS: [Row; 26] = [
    // Before any board is there.
    (Stranger, SUBMIT, NO_SUCH, NotAsked),
    (Stranger, END, NO_SUCH, NotAsked),
    (Owner, OPEN_B1, OPENED, Makes(EXISTS)),
    (Stranger, OPEN_C, OPENED, Makes(EXISTS)),
    (Owner, OPEN_A, OPENED, Makes(EXISTS)),
    (Owner, OPEN_C, EXISTS, Refuses),
    (Stranger, OPEN_B1, EXISTS, Refuses),
    // On the board that it opened.
    (Owner, SUBMIT, PLAYED, Makes(ILLEGAL)),
    (Owner, SUBMIT, ILLEGAL, Refuses),
    // On those of others, and on no board.
    (Stranger, SUBMIT, NOT_YOURS, NotAsked),
    (Stranger, END, NOT_YOURS, NotAsked),
    (
        Stranger,
        "{\"cmd\":\"submit\",\"board\":\"b9\",\"move\":\"e2e4\"}",
        NO_SUCH,
        NotAsked,
    ),
    (
        Stranger,
        "{\"cmd\":\"end\",\"board\":\"b9\",\"how\":\"agreed\"}",
        NO_SUCH,
        NotAsked,
    ),
    // What no connection may do, and what one that has opened a board may not do.
    (
        Stranger,
        "{\"cmd\":\"take\",\"spectator\":1}",
        WRONG_MODE,
        NotAsked,
    ),
    (
        Stranger,
        "{\"cmd\":\"leave\",\"spectator\":1}",
        WRONG_MODE,
        NotAsked,
    ),
    (Stranger, FOLLOW_B1, WRONG_MODE, NotAsked),
    (Owner, FOLLOW_B1, WRONG_MODE, NotAsked),
    (Stranger, FOLLOW_B9, WRONG_MODE, NotAsked),
    // Texts that mean nothing.
    (
        Stranger,
        "[",
        "{\"code\":21,\"name\":\"NotJson\",\"reply\":\"refused\"}",
        NotAsked,
    ),
    (
        Stranger,
        "[]",
        "{\"code\":22,\"name\":\"NotObject\",\"reply\":\"refused\"}",
        NotAsked,
    ),
    (
        Stranger,
        "{\"cmd\":\"stop\"}",
        "{\"code\":23,\"name\":\"UnknownCommand\",\"reply\":\"refused\"}",
        NotAsked,
    ),
    (
        Stranger,
        "{\"cmd\":\"open\"}",
        "{\"code\":24,\"name\":\"BadField\",\"reply\":\"refused\"}",
        NotAsked,
    ),
    // A connection that has opened nothing may follow, even if it tried to open.
    (Guest, OPEN_B1, EXISTS, Refuses),
    (Guest, FOLLOW_B9, NO_SUCH, Refuses),
    (Guest, FOLLOW_B1, FOLLOWING, Makes(FOLLOWS)),
    (Owner, END, ENDED, Makes(GAME_OVER)),
];

/// The rows. A test that has them in its own body takes many times as long to prove.
fn rows() -> &'static [Row] {
    &ROWS
}

/// What a text was answered.
#[derive(Clone, Copy, PartialEq)]
enum Said {
    /// What was wanted.
    Wanted,
    /// That there was no memory.
    Want,
    /// Something else.
    Else,
    /// There was no memory for the answer.
    Nothing,
}

/// The answer if there was no memory. A function that has it in its own body takes several times as long to prove.
fn want() -> &'static str {
    "{\"code\":12,\"name\":\"OutOfMemory\",\"reply\":\"refused\"}"
}

/// What a text says, if one of these is wanted.
fn kind_of(text: &str, wanted: [&str; 2]) -> Said {
    if text == want() {
        Said::Want
    } else if text == wanted[0] || text == wanted[1] {
        Said::Wanted
    } else {
        Said::Else
    }
}

/// What an answer says, if one of these is wanted. Behind this no text is kept.
fn said_by(answer: Result<String, AllocError>, wanted: [&str; 2]) -> Said {
    match answer {
        Ok(answer) => kind_of(answer.as_str(), wanted),
        Err(AllocError) => Said::Nothing,
    }
}

/// What a text is answered over a keeper that notes.
fn said_to(conn: &mut Conn, noting: &mut NotingKeeper, text: &str, wanted: &str) -> Said {
    said_by(conn.answer(text.as_bytes(), noting), [wanted, wanted])
}

/// Asserts that a row holds. Returns whether memory was refused; then the text was sent once more.
fn assert_row(rt: &impl Abort, conn: &mut Conn, noting: &mut NotingKeeper, row: &Row) -> bool {
    let (_, text, wanted, keeping) = *row;
    let (asked, accepted) = (noting.steps.len(), noting.accepted);
    let said = said_to(conn, noting, text, wanted);
    let is_asked = noting.steps.len() != asked;
    let is_made = noting.accepted != accepted;
    claim_of(rt, said != Said::Else, wanted, text);
    if said == Said::Wanted {
        let not_asked = matches!(keeping, NotAsked);
        claim_of(rt, is_asked != not_asked, "the step", text);
        return false;
    }
    claim_of(rt, said != Said::Want || !is_made, "the refusal", text);
    let again = match keeping {
        Makes(again) if is_made => again,
        _ => wanted,
    };
    let said = said_to(conn, noting, text, again);
    claim_of(rt, said == Said::Wanted, "the second answer", text);
    true
}

/// A keeper that notes, made again if it was refused; and whether it was.
fn new_noting(rt: &impl Abort, alloc: Global) -> (NotingKeeper, bool) {
    match NotingKeeper::new(alloc) {
        Ok(noting) => (noting, false),
        Err(AllocError) => {
            let noting = NotingKeeper::new(alloc).expect(rt, "one refusal at the most");
            (noting, true)
        }
    }
}

/// A keeper that notes, and the connections over it.
#[derive(Drop)]
struct Scene {
    noting: NotingKeeper,
    owner: Conn,
    stranger: Conn,
    guest: Conn,
}

/// Nobody has said anything yet.
fn scene_of(alloc: Global, noting: NotingKeeper) -> Scene {
    Scene {
        noting,
        owner: Conn::new(alloc),
        stranger: Conn::new(alloc),
        guest: Conn::new(alloc),
    }
}

/// Asserts that a row holds of the connection that speaks in it. Returns whether memory was refused.
fn assert_row_of(rt: &impl Abort, scene: &mut Scene, row: &Row) -> bool {
    match row.0 {
        Owner => assert_row(rt, &mut scene.owner, &mut scene.noting, row),
        Stranger => assert_row(rt, &mut scene.stranger, &mut scene.noting, row),
        Guest => assert_row(rt, &mut scene.guest, &mut scene.noting, row),
    }
}

/// Asserts that behind so many steps each connection ends the boards that it opened and no others, in the order of opening, including one
/// that has ended; and that a game that was agreed drawn before stays a draw.
fn assert_ends(rt: &impl Abort, scene: Scene, asked: usize) {
    let Scene {
        mut noting,
        owner,
        stranger,
        guest,
    } = scene;
    guest.finish(&mut noting);
    stranger.finish(&mut noting);
    let before = outcome_of(&mut noting.keeper, board_of(rt, "a"));
    owner.finish(&mut noting);
    claim(rt, are_ended(rt, &noting, asked), "three boards are ended");
    let a = outcome_of(&mut noting.keeper, board_of(rt, "a"));
    let b1 = outcome_of(&mut noting.keeper, board_of(rt, "b1"));
    claim(rt, before.is_none(), "the others do not end a");
    claim(rt, a == Some(Outcome::Abandoned), "the owner ends a");
    claim(rt, b1 == Some(Outcome::Agreed), "b1 has ended before");
    drop(noting);
}

#[test]
fn a_connection_may_what_its_boards_let_it(rt: HostRuntime) {
    let (noting, was_refused) = new_noting(&rt, rt.alloc());
    let mut scene = scene_of(rt.alloc(), noting);
    let refusals = refusals_in(&rt, &mut scene);
    let is_one = refusals.saturating_add(u32::from(was_refused)) <= 1;
    claim(&rt, is_one, "one refusal at the most");
    let asked = scene.noting.steps.len();
    assert_ends(&rt, scene, asked);
}

/// Asserts that each row holds. Returns how often memory was refused.
fn refusals_in(rt: &impl Abort, scene: &mut Scene) -> u32 {
    let mut refusals = 0u32;
    for row in rows() {
        let was_refused = assert_row_of(rt, scene, row);
        refusals = refusals.saturating_add(u32::from(was_refused));
    }
    refusals
}

/// Whether the steps behind so many end the stranger's board, and then the owner's.
fn are_ended(rt: &impl Abort, noting: &NotingKeeper, asked: usize) -> bool {
    let ends = [
        Step::End(board_of(rt, "c"), Ending::Abandoned),
        Step::End(board_of(rt, "b1"), Ending::Abandoned),
        Step::End(board_of(rt, "a"), Ending::Abandoned),
    ];
    noting.steps.as_slice().get(asked..) == Some(ends.as_slice())
}

/// How the game of a board ended, as a spectator that comes now is told. If there was no memory to follow, it is asked once more.
fn outcome_of(keeper: &mut RelayKeeper, board: BoardName) -> Option<Outcome> {
    let follow = Step::Follow(99, board, None);
    if matches!(reply_of(keeper, &follow), Reply::Refused(_)) {
        let _ = reply_of(keeper, &follow);
    }
    let taken = reply_of(keeper, &Step::Take(99));
    let _ = reply_of(keeper, &Step::Leave(99));
    match taken {
        Reply::Took(Taken::Over(outcome)) => Some(outcome),
        _ => None,
    }
}

/// The reply to a step. Whoever calls this carries no clauses of a keeper along.
fn reply_of(keeper: &mut RelayKeeper, step: &Step) -> Reply {
    keeper.step(*step)
}

/// What a text is answered over a relay; the second answer is wanted too if there was no memory for the first.
fn said_over(keeper: &mut RelayKeeper, conn: &mut Conn, text: &str, wanted: [&str; 2]) -> Said {
    let said = said_by(keeper.answer(conn, text.as_bytes()), [wanted[0]; 2]);
    if matches!(said, Said::Want | Said::Nothing) {
        return said_by(keeper.answer(conn, text.as_bytes()), wanted);
    }
    said
}

/// A keeper over a relay, made again if it was refused.
fn new_keeper(rt: &impl Abort, alloc: Global) -> RelayKeeper {
    match RelayKeeper::new(alloc, default_limits()) {
        Ok(keeper) => keeper,
        Err(AllocError) => {
            RelayKeeper::new(alloc, default_limits()).expect(rt, "one refusal at the most")
        }
    }
}

#[test]
fn a_relay_answers_as_its_history_asks(rt: HostRuntime) {
    let mut keeper = new_keeper(&rt, rt.alloc());
    let mut owner = Conn::new(rt.alloc());
    let opened = said_over(&mut keeper, &mut owner, OPEN_B1, [OPENED, EXISTS]);
    let played = said_over(&mut keeper, &mut owner, SUBMIT, [PLAYED, ILLEGAL]);
    keeper.finish(owner);
    let outcome = outcome_of(&mut keeper, board_of(&rt, "b1"));
    claim(&rt, opened == Said::Wanted, "it opens a board");
    claim(&rt, played == Said::Wanted, "it plays");
    claim(
        &rt,
        outcome == Some(Outcome::Abandoned),
        "it ends its board",
    );
    drop(keeper);
}
