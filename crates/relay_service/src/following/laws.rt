//! Laws of connections that follow, for whoever keeps them beside the hall.

ghost use Rattle.std.specs.Prelude.{◌≡◌, ℕ, Bool, List, [], ◌++◌, Option, Some};
ghost use Rattle.live_board.specs.Seats.{FollowerSeat};
ghost use Rattle.relay_core.specs.declared.reply.Reply.{Reply};
ghost use Rattle.relay_frames.specs.Frames.{text_frame};
ghost use Rattle.relay_frames.specs.Reading.{Reading};
ghost use Rattle.relay_messages.specs.Answers.{answer_text};
ghost use Rattle.relay_messages.specs.declared.answer.Answer.TheVariants as answers;
ghost use Rattle.relay_hall.specs.declared.handed.Handed.{Handed};
ghost use Rattle.relay_hall.specs.declared.owner.Owner.{Owner};
ghost use Rattle.relay_hall.specs.Record.{FloorRecord, HallRecord};
ghost use Rattle.relay_hall.specs.Runs.{HallEvent, HallStep, HallTold, IsOneStep};
ghost use Rattle.relay_hall.specs.Telling.{Tells};
ghost use Rattle.relay_service.specs.Following.Boards.{IsHandedIn, IsIn};
ghost use Rattle.relay_service.specs.Following.Calls.{Answers, Fails, closed_by, gone, pinged, wrote};
ghost use Rattle.relay_service.specs.Following.Record.{ConnectionRecord, DeliveryRecord, newcomer};
ghost use Rattle.relay_service.specs.Following.Served.{IsOpening, IsServed};
ghost use Rattle.relay_service.specs.Following.Shown.{IsShown};

/// What a hall hands out is a follower of the board of its name in that hall, which has taken nothing (`handed`, `untaken`). Bytes of which
/// the last are the frame of the reply that told of it are an opening of its connection (`told`), and that follows the board of its name
/// (`is_in`).
pub fn what_is_handed_out_may_follow()
    ensures handed { (k l : HallRecord) (speaker : Owner) (h : Handed) → IsOneStep k speaker (Some h) l → IsHandedIn l.floor h }
    ensures untaken { (f : FloorRecord) (h : Handed) → IsHandedIn f h → h.follower.part.taken ≡ [] }
    ensures told { (f : FollowerSeat) (reply : Reply) (earlier : List ℕ) → Tells f reply → IsOpening (earlier ++ text_frame (answer_text (answers.Reply reply))) f.part }
    ensures is_in { (f : FloorRecord) (h : Handed) (reading : Reading) (opening : List ℕ) → IsHandedIn f h → IsIn f (newcomer h reading opening).delivery }
{}

/// Whatever happens in the hall, and whatever a connection is sent or says, it follows the board of its name there, or did until it left.
pub fn all_stay_at_their_boards()
    ensures step { (k : HallRecord) (e : HallEvent) (t : HallTold) (l : HallRecord) (c : DeliveryRecord) → HallStep k e t l → IsIn k.floor c → IsIn l.floor c }
    ensures once { (k l : HallRecord) (speaker : Owner) (handed : Option Handed) (c : DeliveryRecord) → IsOneStep k speaker handed l → IsIn k.floor c → IsIn l.floor c }
    ensures sent { (f : FloorRecord) (c : DeliveryRecord) (n : ℕ) → IsIn f c → IsIn f (wrote c n) }
    ensures said { (f : FloorRecord) (some : Bool) (c d : ConnectionRecord) → Answers some c d → IsIn f c.delivery → IsIn f d.delivery }
    ensures unsaid { (f : FloorRecord) (c d : ConnectionRecord) → Fails c d → IsIn f c.delivery → IsIn f d.delivery }
    ensures pinged { (f : FloorRecord) (c : ConnectionRecord) → IsIn f c.delivery → IsIn f (pinged c).delivery }
    ensures closed { (f : FloorRecord) (c : ConnectionRecord) (code : ℕ) → IsIn f c.delivery → IsIn f (closed_by c code).delivery }
    ensures gone { (f : FloorRecord) (c : ConnectionRecord) → IsIn f c.delivery → IsIn f (gone c).delivery }
{}

/// The headline of a server that keeps connections beside its hall.
pub fn what_is_sent_is_of_the_hall()
    ensures { (f : FloorRecord) (c : DeliveryRecord) → IsServed c → IsIn f c → IsShown f c }
{}
