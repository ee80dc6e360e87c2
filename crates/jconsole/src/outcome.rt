//! How a session of the program ends.
ghost use Rattle.std.specs.Prelude.{◌≡◌};
ghost use Rattle.std.specs.Option.{option_copied};
ghost use Rattle.jconsole.specs.Statuses.{exit_code_of, message_of};

use jsession::Status;

/// What a session answers.
#[derive(Clone, Copy, Debug, PartialEq, Eq)]
pub struct Outcome {
    pub status: Status,
}

/// The exit status of the program.
pub fn exit_code(status: Status) -> u8
    ensures { result ≡ exit_code_of status }
{
    match status {
        Status::Done => 0,
        Status::Usage => 1,
        Status::ReadFault => 2,
        Status::WriteFault => 3,
        Status::NoMemory => 4,
        Status::TooLong => 7,
    }
}

/// What standard error says of it, behind the program's name.
pub fn message(status: Status) -> Option<&'static str>
    ensures { option_copied result ≡ message_of status }
{
    match status {
        Status::Done => None,
        Status::Usage => Some("usage"),
        Status::ReadFault => Some("read fault"),
        Status::WriteFault => Some("write fault"),
        Status::NoMemory => Some("no memory"),
        Status::TooLong => Some("script too long"),
    }
}
