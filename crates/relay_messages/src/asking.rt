//! What the members of an object ask for, on the main port and on the watch port.

ghost use Rattle.std.specs.Prelude.{◌≡◌, Result};
ghost use Rattle.serde_json.specs.Data.{Data};
ghost use Rattle.relay_messages.specs.Commands.{boards_in, command_in, command_named, watch_command_in};

use crate::commands::{end_of, follow_of, leave_of, open_of, submit_of, take_of};
use crate::fault::MessageFault;
use crate::object::Object;
use crate::watch_command::WatchCommand;
use relay_core::Step;

/// What can be asked on a port.
pub trait Asked: Sized {
    ghost use Rattle.std.specs.Prelude.{None, Err};
    ghost use Rattle.serde_json.specs.Find.{as_object};
    ghost use Rattle.relay_messages.specs.declared.fault.MessageFault.{MessageFault};
    ghost use Rattle.relay_messages.specs.declared.fault.MessageFault.TheVariants.{NotObject};

    /// What a JSON value asks for there, or its fault.
    ghost says: { Data → Result Self MessageFault };

    /// What a value asks for.
    ///
    /// # Errors
    ///
    /// `NotObject`, `UnknownCommand` and `BadField`.
    fn of<O: Object>(object: &O) -> Result<Self, MessageFault>
        ensures { result ≡ says (O.said object.now) };

    /// A value that is not an object asks for nothing.
    ghost others: { (d : Data) → as_object d ≡ None → says d ≡ Err NotObject };
}

impl Asked for Step {
    ghost use Rattle.relay_messages.specs.Commands.{command_in};
    ghost use Rattle.relay_messages.specs.Others.{command_in-other};

    ghost says = { command_in };

    ghost others = { command_in-other };

    fn of<O: Object>(object: &O) -> Result<Step, MessageFault> {
        command_of(object)
    }
}

impl Asked for WatchCommand {
    ghost use Rattle.relay_messages.specs.Commands.{watch_command_in};
    ghost use Rattle.relay_messages.specs.Others.{watch_command_in-other};

    ghost says = { watch_command_in };

    ghost others = { watch_command_in-other };

    fn of<O: Object>(object: &O) -> Result<WatchCommand, MessageFault> {
        watch_command_of(object)
    }
}

/// The command whose name is in `cmd`.
#[tactic(auto, unfolding(crate::specs::Commands::command_named))]
fn command_of_name<O: Object>(object: &O, name: &str) -> Result<Step, MessageFault>
    ensures { result ≡ command_named (O.said object.now) name.now }
{
    let command = match name {
        "open" => open_of(object),
        "submit" => submit_of(object),
        "end" => end_of(object),
        "follow" => follow_of(object),
        "take" => take_of(object),
        "leave" => leave_of(object),
        _ => return Err(MessageFault::UnknownCommand),
    };
    command.ok_or(MessageFault::BadField)
}

/// The command that a value gives.
#[tactic(auto, unfolding(crate::specs::Commands::command_in))]
fn command_of<O: Object>(object: &O) -> Result<Step, MessageFault>
    ensures { result ≡ command_in (O.said object.now) }
{
    if !object.is_object() {
        return Err(MessageFault::NotObject);
    }
    match object.text("cmd") {
        Some(name) => command_of_name(object, name),
        None => Err(MessageFault::UnknownCommand),
    }
}

/// Asks for all boards: there is no key but `cmd`.
fn boards_of<O: Object>(object: &O) -> Option<WatchCommand>
    ensures { result ≡ boards_in (O.said object.now) }
{
    if object.count() != 1 {
        return None;
    }
    Some(WatchCommand::Boards)
}

/// The command that a value gives on the watch port.
#[tactic(auto, unfolding(crate::specs::Commands::watch_command_in))]
fn watch_command_of<O: Object>(object: &O) -> Result<WatchCommand, MessageFault>
    ensures { result ≡ watch_command_in (O.said object.now) }
{
    match object.text("cmd") {
        Some("boards") => boards_of(object).ok_or(MessageFault::BadField),
        _ => Ok(WatchCommand::Step(command_of(object)?)),
    }
}
