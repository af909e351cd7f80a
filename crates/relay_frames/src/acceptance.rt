//! How a request is accepted.

ghost use Rattle.std.specs.Prelude.{◌≡◌, ◌++◌, ◌-◌, true, vec_capacity, vec_len, OnOk, OnErr};
ghost use Rattle.websocket.specs.Handshake.{LacksRoom};
ghost use Rattle.websocket.specs.Headers.{is_graphic_text};
ghost use Rattle.relay_frames.specs.Requests.{acceptance_text};

use std::alloc::AllocError;
use websocket::handshake::server::write_response;

/// How a request is accepted: with the value of `Sec-WebSocket-Accept` that answers its key (RFC 6455, section 4.2.2).
#[derive(Clone, Copy, Debug, PartialEq, Eq)]
pub struct Acceptance {
    pub value: [u8; 28],
    ghost graphic: { is_graphic_text value ≡ true },
}

impl Acceptance {
    /// Appends the answer. The peer's frames follow it, and so do those that the peer is sent.
    ///
    /// # Errors
    ///
    /// There was no memory. Then the output is as it was.
    pub fn write(&self, output: &mut Vec<u8>) -> Result<(), AllocError>
        ensures ok { OnOk result (output.new.items ≡ output.old.items ++ acceptance_text self.now.value) }
        ensures err { OnErr result (output.new.items ≡ output.old.items) }
        ensures memory { OnErr result (LacksRoom (vec_capacity output.old - vec_len output.old) (acceptance_text self.now.value)) }
    {
        match write_response(&self.value, &[], output) {
            Ok(()) => Ok(()),
            Err(_) => Err(AllocError),
        }
    }
}
