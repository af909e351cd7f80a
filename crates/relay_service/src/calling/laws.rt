//! What a connection is sent, whatever it sends and whatever happens in the hall, and what connections make of the hall.

ghost use Rattle.std.specs.Prelude.{◌≡◌, ℕ, Bool, true, List, [], Option, Some};
ghost use Rattle.relay_core.specs.History.{History};
ghost use Rattle.relay_hall.specs.declared.handed.Handed.{Handed};
ghost use Rattle.relay_hall.specs.declared.owner.Owner.{Owner};
ghost use Rattle.relay_hall.specs.Record.{HallRecord};
ghost use Rattle.relay_hall.specs.Runs.{IsOneStep};
ghost use Rattle.relay_service.specs.Calling.Answering.{AnswersNext, Fails, IsTold, OperatorRecord, is_through, newcomer};
ghost use Rattle.relay_service.specs.Calling.Connections.{ConnectionsRecord, IsOneRun, Turn, Turns, deeds_of};
ghost use Rattle.relay_service.specs.declared.calling.stage.Stage.TheVariants.{HandsOver};
ghost use Rattle.relay_service.specs.Calling.Running.{Deed, IsServed, Runs, causes_of};

/// For any pieces in which the bytes of a connection come, from its first byte on, any halls at which they are answered, and any sizes in
/// which bytes are written, and whatever is put unasked, in any order, also if memory was refused: what was written, and then what is due,
/// are the answer to the request of the bytes up to the end of its head, and if that is accepted then the frames of the answers to the
/// events of the bytes behind it, as far as they were answered, each at the hall as it stood, in order. Between them stand the pings that
/// were put, each where it was, and behind them all a close, if one was put.
pub fn whatever_is_read()
    ensures { (opener : ℕ) (takes_keys : Bool) (deeds : List Deed) (d : OperatorRecord) → Runs (newcomer opener takes_keys) deeds d
        → IsServed opener takes_keys deeds d }
{}

/// A connection that follows or leaves is answered no more, whatever comes, nor sent anything unasked, and stays as far as it has come.
pub fn one_that_is_through_is_never_answered()
    ensures { (c : OperatorRecord) (deeds : List Deed) (d : OperatorRecord) → is_through c.stage ≡ true → Runs c deeds d
        → (causes_of deeds ≡ []) × (d.stage ≡ c.stage) }
{}

/// A connection for which something was handed out was told so, behind all that was due before, and hands over.
pub fn what_is_handed_over_was_told()
    ensures { (c : OperatorRecord) (k : HallRecord) (h : Handed) (l : HallRecord) (d : OperatorRecord) → AnswersNext true c k (Some h) l d
        → IsTold c.due h d.due × (d.stage ≡ HandsOver) }
{}

/// Whatever a connection says, the hall makes one step of its owner at most, as one event, or nothing, also if memory was refused.
pub fn one_step_at_most()
    ensures answered { (some : Bool) (c : OperatorRecord) (k : HallRecord) (handed : Option Handed) (l : HallRecord) (d : OperatorRecord)
        → AnswersNext some c k handed l d → IsOneStep k c.who handed l }
    ensures failed { (c : OperatorRecord) (k : HallRecord) (handed : Option Handed) (l : HallRecord) (d : OperatorRecord)
        → Fails c k handed l d → IsOneStep k c.who handed l }
{}

/// However many connections there are, and whatever happens in the hall between their turns: each is sent what it is sent alone, at the
/// halls as they stood.
pub fn however_many_there_are()
    ensures { (f : ConnectionsRecord) (turns : List Turn) (g : ConnectionsRecord) → Turns f turns g
        → (i : ℕ) (opener : ℕ) (takes_keys : Bool) → f.peers i ≡ newcomer opener takes_keys → IsServed opener takes_keys (deeds_of i turns) (g.peers i) }
{}

/// The turns of any connections over one hall are a run of that hall, from any history on: so what `relay_hall::laws::whatever_happens`
/// says of every run is true of it. The owners of its steps are those as whom the connections ask, and so as whom they leave it.
pub fn all_are_one_run()
    ensures { (f : ConnectionsRecord) (turns : List Turn) (g : ConnectionsRecord) → Turns f turns g → (who : ℕ → Owner) → ((i : ℕ) → (g.peers i).who ≡ who i) → (before : History)
        → IsOneRun f.hall who turns g.hall before }
{}
