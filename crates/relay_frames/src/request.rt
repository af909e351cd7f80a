//! Where the head of a request ends, and whether it is answered with a WebSocket (RFC 9112, sections 2 to 5; RFC 6455, section 4.2.1).

ghost use Rattle.std.specs.Prelude.{◌≡◌, ◌==◌, ◌≤◌, length, codes, take, None, Some, All, IfOk, IfErr, IfSome};
ghost use Rattle.httparse.specs.Spans.{IsHeaderWithin, IsRequestWithin, span_bytes};
ghost use Rattle.websocket.specs.Headers.{eq_ignore_case, fields_of};
ghost use Rattle.relay_frames.specs.Heads.{head_end_behind};
ghost use Rattle.relay_frames.specs.Requests.{Accepts, IsAcceptance, IsAnswered, IsJudged, count_of_hosts};
ghost use Rattle.relay_frames.specs.declared.request.TheConstants.{MOST_HEAD_BYTES};

use crate::acceptance::Acceptance;
use crate::request_refusal::RequestRefusal;
use httparse::spans::{EMPTY_HEADER_SPAN, HeaderSpan, RequestSpans, parse_request};
use httparse::{Error, Status};
use websocket::handshake::HandshakeError;
use websocket::handshake::server::check_request;

/// How many fields a head may have: a browser behind two proxies sends some 25.
pub const MOST_FIELDS: usize = 64;

/// How many bytes a head may have.
pub const MOST_HEAD_BYTES: usize = 8192;

/// The bytes that end a head.
const BLANK_LINE: &[u8; 4] = b"\r\n\r\n";

/// The end of the head: after the first blank line, which does not end within the bytes seen before. An end beyond the
/// greatest number of bytes does not count.
pub fn end_of_head(bytes: &[u8], seen: usize) -> Option<usize>
    ensures end { result ≡ head_end_behind seen bytes.now }
    ensures bound { IfSome result (λ end. end ≤ MOST_HEAD_BYTES) }
    ensures within { IfSome result (λ end. end ≤ length bytes.now) }
{
    for at in seen.max(3)..bytes.len().min(MOST_HEAD_BYTES) {
        if &bytes[at - 3..at + 1] == BLANK_LINE.as_slice() {
            return Some(at + 1);
        }
    }
    None
}

/// How the request with this head is accepted. The bytes end where the head ends.
///
/// # Errors
///
/// The request is refused.
pub fn acceptance_of(head: &[u8]) -> Result<Acceptance, RequestRefusal>
    ensures let_in { IfOk result (λ _. IsAnswered head.now None) }
    ensures accepted { IfOk result (λ acceptance. Accepts head.now acceptance.value) }
    ensures refused { IfErr result (λ refusal. IsAnswered head.now (Some refusal)) }
{
    let mut spans = [EMPTY_HEADER_SPAN; MOST_FIELDS];
    match parse_request(head, &mut spans) {
        Ok(Status::Complete(found)) => judged(head, &found, &spans),
        Ok(Status::Partial) => Err(RequestRefusal::BadRequest),
        Err(Error::TooManyHeaders) => Err(RequestRefusal::HeadTooLarge),
        Err(_) => Err(RequestRefusal::BadRequest),
    }
}

/// How the request with this head is refused, if it is. The bytes end where the head ends.
pub fn refusal_of(head: &[u8]) -> Option<RequestRefusal>
    ensures { IsAnswered head.now result }
{
    match acceptance_of(head) {
        Ok(_) => None,
        Err(refusal) => Some(refusal),
    }
}

/// How a request with these parts is accepted, or how it is refused.
fn judged(
    head: &[u8],
    found: &RequestSpans,
    spans: &[HeaderSpan],
) -> Result<Acceptance, RequestRefusal>
    requires { IsRequestWithin head.now spans.now found.now }
    ensures let_in { IfOk result (λ _. IsJudged (span_bytes head.now found.now.method) found.now.version (fields_of head.now (take found.now.headers spans.now)) None) }
    ensures accepted { IfOk result (λ acceptance. IsAcceptance (span_bytes head.now found.now.method) found.now.version (fields_of head.now (take found.now.headers spans.now)) acceptance.value) }
    ensures refused { IfErr result (λ refusal. IsJudged (span_bytes head.now found.now.method) found.now.version (fields_of head.now (take found.now.headers spans.now)) (Some refusal)) }
{
    if !has_one_host(head, &spans[..found.headers]) {
        return Err(RequestRefusal::BadRequest);
    }
    match check_request(head, found, spans) {
        Ok(value) => Ok(Acceptance { value }),
        Err(HandshakeError::WrongHttpMethod) => Err(RequestRefusal::MethodNotAllowed),
        Err(HandshakeError::MissingSecWebSocketVersionHeader) => Err(
            RequestRefusal::UpgradeRequired,
        ),
        Err(_) => Err(RequestRefusal::BadRequest),
    }
}

/// Whether there is exactly one `Host` (RFC 9112, section 3.2).
fn has_one_host(head: &[u8], spans: &[HeaderSpan]) -> bool
    requires { All (IsHeaderWithin (length head.now)) spans.now }
    ensures { result ≡ (count_of_hosts (fields_of head.now spans.now) == 1) }
{
    spans.iter().filter(|span| is_host(head, span)).count() == 1
}

/// Whether this field is a `Host`.
fn is_host(head: &[u8], span: &HeaderSpan) -> bool
    requires { IsHeaderWithin (length head.now) span.now }
    ensures { result ≡ eq_ignore_case (span_bytes head.now span.now.name) (codes "Host") }
{
    is_name_of_host(span.name.of(head))
}

/// Whether a field of this name is a `Host`: case does not matter (RFC 9110, section 5.1).
fn is_name_of_host(name: &[u8]) -> bool
    ensures { result ≡ eq_ignore_case name.now (codes "Host") }
{
    name.eq_ignore_ascii_case(b"Host")
}
