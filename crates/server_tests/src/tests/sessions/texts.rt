//! Commands that several tests send.

use crate::tests::sessions::frames::{CLOSE, NORMAL, TEXT};
use crate::tests::sessions::rows::Frame;

pub const OPEN_B1: &[u8] = b"{\"cmd\":\"open\",\"board\":\"b1\",\"start\":518}";

pub const FOLLOW_B1: &[u8] = b"{\"cmd\":\"follow\",\"board\":\"b1\",\"spectator\":1}";

pub const FOLLOW_B1_FROM_0: &[u8] =
    b"{\"cmd\":\"follow\",\"board\":\"b1\",\"spectator\":1,\"from\":0}";

pub const SUBMIT_E2E4: &[u8] = b"{\"cmd\":\"submit\",\"board\":\"b1\",\"move\":\"e2e4\"}";

pub const SUBMIT_E7E5: &[u8] = b"{\"cmd\":\"submit\",\"board\":\"b1\",\"move\":\"e7e5\"}";

/// What an owner sends: two commands and a close.
static OWNER: [Frame; 3] = [(TEXT, OPEN_B1), (TEXT, SUBMIT_E2E4), (CLOSE, NORMAL)];

/// These frames.
pub fn owner_frames() -> &'static [Frame] {
    &OWNER
}
