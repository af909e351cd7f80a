//! The bounds of a script: the limits of the relay, and how many lines and bytes an input may have.

ghost use Rattle.std.specs.Prelude.{◌≡◌, ◌↔◌, IsSome, IfSome};
ghost use Rattle.relay960_engines.specs.Limits.{AreBounds, ScriptNumbers, greatest_bounds};

use crate::bounds::Bounds;
use c960_game::Limits;
use std::marker::Model;

/// The greatest bounds of an input: a million lines, a gibibyte.
const GREATEST: Bounds = Bounds {
    lines: 1_000_000,
    bytes: 1_073_741_824,
};

/// The limits of a relay by default: 16 boards, 64 followers a board, queues of 64 moves and 1,024 plies a game.
pub fn default_limits() -> Limits
    ensures { result ≡ record { boards = 16; followers = 64; capacity = 64; plies = 1024 } }
{
    // Each number is in its range.
    let Some(limits) = Limits::new(16, 64, 64, 1024) else {
        unreachable!();
    };
    limits
}

/// The limits of the relay, and how many lines and bytes an input may have. Contracts see a `ScriptNumbers`.
#[derive(Clone, Copy, PartialEq, Eq, Debug)]
pub struct ScriptLimits {
    limits: Limits,
    bounds: Bounds,
}

impl Model for ScriptLimits {
    ghost use Rattle.relay960_engines.specs.Limits.{AreBounds, ScriptNumbers};

    ghost Value = { ScriptNumbers };

    ghost view = { λ l. record { limits = l.limits; bounds = l.bounds } };

    ghost invariant = { λ l. AreBounds l.bounds };

    ghost inverse = { λ v. record { limits = v.limits; bounds = v.bounds } };
}

impl ScriptLimits {
    /// The bounds, or None exactly if a number is outside its range: 1 to 1,000,000 lines, 1 to 1,073,741,824 bytes.
    pub fn new(limits: Limits, lines: u64, bytes: u64) -> Option<ScriptLimits>
        ensures some { IsSome result ↔ AreBounds (record { lines = lines; bytes = bytes }) }
        ensures value { IfSome result (λ l. l ≡ record { limits = limits; bounds = record { lines = lines; bytes = bytes } }) }
    {
        let fit = (1..=GREATEST.lines).contains(&lines) && (1..=GREATEST.bytes).contains(&bytes);
        if fit {
            let bounds = Bounds { lines, bytes };
            Some(ScriptLimits { limits, bounds })
        } else {
            None
        }
    }

    /// The greatest bounds.
    pub fn greatest(limits: Limits) -> ScriptLimits
        ensures { result ≡ record { limits = limits; bounds = greatest_bounds } }
    {
        ScriptLimits {
            limits,
            bounds: GREATEST,
        }
    }

    /// The limits of the relay.
    pub fn limits(&self) -> Limits
        ensures { result ≡ self.now.limits }
    {
        self.limits
    }

    /// How many lines and bytes an input may have.
    pub fn bounds(&self) -> Bounds
        ensures value { result ≡ self.now.bounds }
        ensures valid { AreBounds self.now.bounds }
    {
        self.bounds
    }
}
