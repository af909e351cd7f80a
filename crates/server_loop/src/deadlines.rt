//! How long a connection is waited for. What is counted are the units of the loop's clock, in which the times are given too.

ghost use Rattle.std.specs.Prelude.{◌≡◌, ◌-◌, cond, None, Some};
ghost use Rattle.server_loop.specs.Deadlines.{counted_by, counted_from, has_lasted, kept_waiting, ping_of, slow_verdict, steps_in, tries_by, verdict_of, verdict_talking};

/// How many pings in a row are sent to a connection that stays silent.
const MOST_PINGS: u64 = 2;

/// What one that takes nothing of what is due is granted before it goes.
#[derive(Clone, Copy)]
pub struct SlowReader {
    /// How much time passes between attempts to write to it. The system reports only when a good part of what it keeps was taken, so one
    /// that takes a few bytes now and then would be dropped like one that takes nothing.
    pub tried_after: u64,
    /// How much time it has to take its close, once it took nothing for too long.
    pub close: u64,
}

/// How long connections are waited for.
#[derive(Clone, Copy)]
pub struct Times {
    /// How long a request may take.
    pub request: u64,
    /// How long half a message may take.
    pub half: u64,
    /// How long it may take over what is due.
    pub wait: u64,
    /// After how long a silence one is sent a ping, and then another one.
    pub silent: u64,
    /// How long one that was sent everything may take to end.
    pub leaving: u64,
    /// What one is granted that takes nothing, if it does not go at once.
    pub slow_reader: Option<SlowReader>,
}

impl Times {
    /// Those of the main port, in milliseconds. A clock of whole seconds would end a time up to one too early. Connections are looked at
    /// twice a second, by what was heard half a second before: with a silence of 30,000 a vanished one would be noticed only after more
    /// than 90 seconds.
    pub const MAIN_PORT: Times = Times {
        request: 10_000,
        half: 10_000,
        wait: 30_000,
        silent: 29_650,
        leaving: 10_000,
        slow_reader: None,
    };

    /// Those of the watch port, in seconds. Connections are looked at once a second: with a silence of 30 a vanished one would be noticed
    /// only after more than 90 seconds.
    pub const WATCH_PORT: Times = Times {
        request: 10,
        half: 10,
        wait: 30,
        silent: 29,
        leaving: 10,
        slow_reader: Some(SlowReader {
            tried_after: 5,
            close: 10,
        }),
    };
}

/// What is to be done with a connection.
#[derive(Clone, Copy, PartialEq, Eq)]
pub enum Verdict {
    /// Nothing.
    Stays,
    /// It is sent a ping.
    Ping,
    /// An attempt is made to write to it.
    Tries,
    /// It sent no message for too long.
    Idle,
    /// It took nothing for too long, and has a while to take its close.
    Stuck,
    /// It goes without a close.
    Gone,
}

/// What a connection does.
#[derive(Clone, Copy, PartialEq, Eq)]
pub enum Stage {
    /// It sends its request.
    Comes,
    /// It asks.
    Asks,
    /// It follows or watches, and need not say anything.
    Follows,
    /// It is sent what is due, and then goes.
    Leaves,
    /// Everything was written to it. What it still sends is read for a while.
    Drains,
}

/// Since when the loop has waited for a connection.
#[derive(Clone, Copy)]
pub struct Deadlines {
    /// When it came, shook hands, sent its last message, or was sent everything: each stage has its own time.
    pub stage_began: u64,
    /// When something last came from it.
    pub heard_at: u64,
    /// How many pings it was sent since then.
    pub pings: u64,
    /// Since when it has been in the middle of a message, if it is.
    pub midway_since: Option<u64>,
    /// Since when something has been due that its connection did not take.
    pub waits_since: Option<u64>,
    /// How many attempts to write were made since then.
    pub tries: u64,
    /// Since when it has had to take its close, because it took nothing for too long.
    pub stuck_since: Option<u64>,
}

impl Deadlines {
    /// Of a connection that comes now.
    pub fn new(now: u64) -> Deadlines
        ensures began { result.stage_began ≡ now }
        ensures heard { result.heard_at ≡ now }
        ensures pings { result.pings ≡ 0 }
        ensures midway { result.midway_since ≡ None }
        ensures waits { result.waits_since ≡ None }
        ensures stuck { result.stuck_since ≡ None }
    {
        Deadlines {
            stage_began: now,
            heard_at: now,
            pings: 0,
            midway_since: None,
            waits_since: None,
            tries: 0,
            stuck_since: None,
        }
    }

    /// Another stage begins, or its time begins again.
    pub fn begins(&mut self, now: u64)
        ensures { self.new ≡ record self.old { stage_began = now } }
    {
        self.stage_began = now;
    }

    /// Something came from it; after that it may be in the middle of a message.
    pub fn hears(&mut self, now: u64, is_midway: bool)
        ensures { self.new ≡ record self.old { heard_at = now; pings = 0; midway_since = cond is_midway (kept_waiting self.old.midway_since now) None } }
    {
        self.heard_at = now;
        self.pings = 0;
        let since = self.midway_since.unwrap_or(now);
        self.is_heard_again(since, is_midway);
    }

    /// The rest of a message is not waited for: it has come, and what follows it begins now. Or the connection is not heard for a while.
    pub fn owes_no_rest(&mut self)
        ensures { self.new ≡ record self.old { midway_since = None } }
    {
        self.midway_since = None;
    }

    /// It is heard again, and may be in the middle of a message.
    pub fn is_heard_again(&mut self, now: u64, is_midway: bool)
        ensures { self.new ≡ record self.old { midway_since = cond is_midway (Some now) None } }
    {
        self.midway_since = if is_midway { Some(now) } else { None };
    }

    /// Its connection took what was due, or enough of it to be waited for anew.
    pub fn is_served(&mut self)
        ensures { self.new ≡ record self.old { waits_since = None; tries = 0; stuck_since = None } }
    {
        self.waits_since = None;
        self.tries = 0;
        self.stuck_since = None;
    }

    /// Its connection did not take what is due.
    pub fn is_kept_waiting(&mut self, now: u64)
        ensures { self.new ≡ record self.old { waits_since = kept_waiting self.old.waits_since now } }
    {
        if self.waits_since.is_none() {
            self.waits_since = Some(now);
        }
    }

    /// How long its stage has lasted.
    fn staged(&self, now: u64) -> u64
        ensures { result ≡ now - self.now.stage_began }
    {
        now.saturating_sub(self.stage_began)
    }

    /// What is to be done with a connection at this stage now. One that asks and sends no message is waited for `most_idle`, or for ever
    /// without that.
    pub fn verdict(
        &mut self,
        times: &Times,
        now: u64,
        stage: Stage,
        most_idle: Option<u64>,
    ) -> Verdict
        ensures verdict { result ≡ verdict_of times.now self.old now stage most_idle }
        ensures counted { self.new ≡ counted_by times.now now result self.old }
    {
        let is_gone = match stage {
            Stage::Comes => self.staged(now) >= times.request,
            Stage::Drains => self.staged(now) >= times.leaving,
            Stage::Leaves => is_over(self.waits_since, now, times.wait),
            Stage::Asks => return self.verdict_if_it_talks(times, now, most_idle),
            Stage::Follows => return self.verdict_if_it_talks(times, now, None),
        };
        if is_gone {
            Verdict::Gone
        } else {
            Verdict::Stays
        }
    }

    /// What is to be done with one that may say something.
    fn verdict_if_it_talks(&mut self, times: &Times, now: u64, most_idle: Option<u64>) -> Verdict
        ensures verdict { result ≡ verdict_talking times.now self.old now most_idle }
        ensures counted { self.new ≡ counted_by times.now now result self.old }
    {
        if is_over(self.midway_since, now, times.half) {
            return Verdict::Gone;
        }
        let tries = tries_by(times.slow_reader, self.waits_since, now);
        if tries > self.tries {
            self.tries = tries;
            return Verdict::Tries;
        }
        if is_over(self.waits_since, now, times.wait) {
            return self.verdict_if_it_is_slow(times, now);
        }
        match most_idle {
            Some(most) if self.staged(now) >= most => Verdict::Idle,
            _ => self.ping_if_due(times, now),
        }
    }

    /// What is to be done with one that did not take what is due for too long.
    fn verdict_if_it_is_slow(&mut self, times: &Times, now: u64) -> Verdict
        ensures verdict { result ≡ slow_verdict times.now.slow_reader self.old.stuck_since now }
        ensures counted { self.new ≡ counted_by times.now now result self.old }
    {
        match times.slow_reader {
            Some(slow) if !is_over(self.stuck_since, now, slow.close) => {
                if self.stuck_since.is_none() {
                    self.stuck_since = Some(now);
                }
                Verdict::Stuck
            }
            _ => Verdict::Gone,
        }
    }

    /// What is to be done with one that may be silent. If it does not take what is due, it is sent no ping: that would come behind it.
    fn ping_if_due(&mut self, times: &Times, now: u64) -> Verdict
        ensures verdict { result ≡ ping_of times.now self.old now }
        ensures counted { self.new ≡ counted_by times.now now result self.old }
    {
        let silent = steps_in(now.saturating_sub(self.heard_at), times.silent);
        if silent <= self.pings {
            return Verdict::Stays;
        }
        if self.pings >= MOST_PINGS {
            return Verdict::Gone;
        }
        if self.waits_since.is_some() {
            return Verdict::Stays;
        }
        self.pings += 1;
        self.heard_at = self.counted_from(now, times.silent);
        Verdict::Ping
    }

    /// Since when a silence counts, of one that is sent its last ping now. Each ping has a whole time of silence before the next thing is
    /// done: one that comes late, since output waited or the program was suspended, is waited for as long as any other.
    fn counted_from(&self, now: u64, silent: u64) -> u64
        ensures { result ≡ counted_from self.now now silent }
    {
        if self.pings < steps_in(now.saturating_sub(self.heard_at), silent) {
            now.saturating_sub(self.pings.saturating_mul(silent))
        } else {
            self.heard_at
        }
    }
}

/// How many attempts to write are due by now.
fn tries_by(slow: Option<SlowReader>, since: Option<u64>, now: u64) -> u64
    ensures { result ≡ tries_by slow since now }
{
    match (slow, since) {
        (Some(slow), Some(since)) => steps_in(now.saturating_sub(since), slow.tried_after),
        _ => 0,
    }
}

/// How many whole steps there are in a span; of no length there are none.
fn steps_in(span: u64, step: u64) -> u64
    ensures { result ≡ steps_in span step }
{
    if step == 0 { 0 } else { span / step }
}

/// Whether so much time has passed since then.
fn is_over(since: Option<u64>, now: u64, most: u64) -> bool
    ensures { result ≡ has_lasted since now most }
{
    match since {
        Some(since) => now.saturating_sub(since) >= most,
        None => false,
    }
}
