//! Bytes on their way between the socket of a connection and the service.

ghost use Rattle.std.specs.Prelude.{◌≡◌};
ghost use Rattle.main_port.specs.Passing.{IsRead, IsSentTo};

use crate::client::Client;
use chained_lines::StableFile;
use relay_durable::DurableService;
use server_loop::{Delivery, Intake, receive, send};
use std::alloc::AllocError;

/// Reads once from the socket of a connection, and hands the service what was read, under the number of this connection and no other.
///
/// # Errors
///
/// There was no memory. What was read is lost.
pub(crate) fn receive_from(
    client: &mut Client,
    service: &mut DurableService<StableFile>,
    piece: &mut [u8],
) -> Result<Intake, AllocError>
    ensures read { IsRead service.old.service client.old.number piece.new result service.new.service }
    ensures scribe { service.new.scribe ≡ service.old.scribe }
    ensures client { client.new ≡ record client.old { stream = client.new.stream } }
{
    let intake = receive(&mut client.stream, piece);
    if let Intake::Bytes(n) = intake {
        service.receive(client.number(), &piece[..n])?;
    }
    Ok(intake)
}

/// Writes what is due to a connection to its socket, as far as that takes it: just this is sent, as the service has it. Before all that
/// boards have is on the disk nothing is sent, as if the connection had failed.
pub(crate) fn send_to(client: &Client, service: &mut DurableService<StableFile>) -> Delivery
    ensures { IsSentTo service.old client.now.number result service.new }
{
    if !service.is_settled() {
        return Delivery::Failed;
    }
    let (n, delivery) = send(&client.stream, service.output(client.number()));
    service.sent(client.number(), n);
    delivery
}
