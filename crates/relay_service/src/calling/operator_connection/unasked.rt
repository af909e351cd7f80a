//! What a connection is sent unasked, as time passes. Before its request is answered there is no WebSocket, so no frame may be sent; and
//! one that follows is sent frames by whoever goes on with it. So only one that asks is sent something.

ghost use Rattle.std.specs.Prelude.{◌≡◌, OnErr, OnOk};
ghost use Rattle.relay_service.specs.Calling.Answering.{pinged, sent_away};

use crate::calling::operator_connection::OperatorConnection;
use crate::calling::stage::Stage;
use relay_frames::Code;
use std::alloc::AllocError;

impl OperatorConnection {
    /// Puts a ping behind what is due, if the connection asks: by its pong a silent peer shows that it is there (RFC 6455, section 5.5.2).
    /// Otherwise nothing is done.
    ///
    /// # Errors
    ///
    /// There was no memory. Then nothing has changed.
    pub fn ping(&mut self) -> Result<(), AllocError>
        ensures ok { OnOk result (self.new ≡ pinged self.old) }
        ensures err { OnErr result (self.new ≡ self.old) }
    {
        if self.stage.asks() {
            self.output.ping()
        } else {
            Ok(())
        }
    }

    /// Puts a close with this code behind what is due and leaves, if the connection asks. Otherwise nothing is done. One that leaves has
    /// had its close, or the answer that refused its request. Before the request is answered a close would be no frame to the peer (RFC
    /// 6455, section 4.1), so whoever wants such a connection to end just closes it.
    ///
    /// # Errors
    ///
    /// There was no memory. Then nothing has changed.
    pub fn send_away(&mut self, code: Code) -> Result<(), AllocError>
        ensures ok { OnOk result (self.new ≡ sent_away self.old code.number) }
        ensures err { OnErr result (self.new ≡ self.old) }
    {
        if !self.stage.asks() {
            return Ok(());
        }
        self.output.close(Some(code))?;
        self.stage = Stage::Leaves;
        Ok(())
    }
}
