//! How a request is refused.

ghost use Rattle.std.specs.Prelude.{◌≡◌};
ghost use Rattle.relay_frames.specs.Requests.{answer_text, status_of};

/// How a request is refused, and with which status (RFC 9110, section 15).
#[derive(Clone, Copy, Debug, PartialEq, Eq)]
pub enum RequestRefusal {
    /// It is not a request of HTTP/1.1, has no `Host` or several (RFC 9112, section 3.2), asks for no WebSocket, or has no key or one that
    /// is not the base64 of 16 bytes (RFC 6455, section 4.2.1): 400.
    BadRequest,
    /// Its method is not `GET`: 405.
    MethodNotAllowed,
    /// It asks for a version of the protocol other than 13, or for none (RFC 6455, section 4.4): 426.
    UpgradeRequired,
    /// Its head has too many bytes or fields (RFC 6585, section 5): 431.
    HeadTooLarge,
}

impl RequestRefusal {
    /// The status of the answer.
    pub fn status(self) -> u16
        ensures { result ≡ status_of self }
    {
        match self {
            RequestRefusal::BadRequest => 400,
            RequestRefusal::MethodNotAllowed => 405,
            RequestRefusal::UpgradeRequired => 426,
            RequestRefusal::HeadTooLarge => 431,
        }
    }

    /// The bytes of the answer. The connection ends after it.
    pub fn answer(self) -> &'static [u8]
        ensures { result.now ≡ answer_text self }
    {
        match self {
            RequestRefusal::BadRequest => {
                b"HTTP/1.1 400 Bad Request\r\nConnection: close\r\nContent-Length: 0\r\n\r\n"
            }
            RequestRefusal::MethodNotAllowed => {
                b"HTTP/1.1 405 Method Not Allowed\r\nAllow: GET\r\nConnection: close\r\nContent-Length: 0\r\n\r\n"
            }
            RequestRefusal::UpgradeRequired => {
                b"HTTP/1.1 426 Upgrade Required\r\nUpgrade: websocket\r\nConnection: Upgrade, close\r\nSec-WebSocket-Version: 13\r\nContent-Length: 0\r\n\r\n"
            }
            RequestRefusal::HeadTooLarge => {
                b"HTTP/1.1 431 Request Header Fields Too Large\r\nConnection: close\r\nContent-Length: 0\r\n\r\n"
            }
        }
    }
}
