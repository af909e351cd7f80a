//! The codes of closes.

ghost use Rattle.std.specs.Prelude.{◌≡◌, true, false, IfSome, IfNone};
ghost use Rattle.relay_frames.specs.Codes.{may_be_sent};

use websocket::protocol::CloseCode;

/// The code of a close, one that may be sent (RFC 6455, section 7.4).
#[derive(Clone, Copy, Debug)]
pub struct Code {
    pub number: u16,
    ghost allowed: { may_be_sent number ≡ true },
}

impl Code {
    /// Everything is done.
    pub const NORMAL: Code = Code { number: 1000 };
    /// The server goes away.
    pub const AWAY: Code = Code { number: 1001 };
    /// The peer broke the protocol.
    pub const PROTOCOL: Code = Code { number: 1002 };
    /// A text was not UTF-8.
    pub const NO_UTF8: Code = Code { number: 1007 };
    /// The peer broke a rule of the server's own.
    pub const POLICY: Code = Code { number: 1008 };
    /// A message was too big.
    pub const TOO_BIG: Code = Code { number: 1009 };
    /// The server could not continue.
    pub const ERROR: Code = Code { number: 1011 };
    /// There is no room now: the peer may try again later.
    pub const AGAIN: Code = Code { number: 1013 };

    /// The code with this number, if it may be sent.
    #[tactic(auto, unfolding(crate::specs::Codes::may_be_sent))]
    pub fn new(number: u16) -> Option<Code>
        ensures some { IfSome result (λ code. (code.number ≡ number) × (may_be_sent number ≡ true)) }
        ensures none { IfNone result (may_be_sent number ≡ false) }
    {
        if CloseCode::from(number).is_allowed() {
            Some(Code { number })
        } else {
            None
        }
    }
}
