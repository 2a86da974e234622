// How a call of the desk ends.
ghost use Rattle.std.specs.Prelude.{◌≡◌};
ghost use Rattle.mig_messages.specs.Statuses as spec;

use mig_store::CallsFault;
use mig_syntax::TextFault;

/// How a call of the desk ends. Their numbers begin at 0, in this order; a search, a check and a verdict have some of their own.
#[derive(Clone, Copy, Debug, PartialEq, Eq)]
pub enum Status {
    /// What the words ask for is done.
    Done,
    /// The words are no command.
    Words,
    /// A text is not in its grammar, or breaks a typing rule.
    Text,
    /// The search came to its end without an answer.
    Exhausted,
    /// The search spent its budget without an answer.
    Spent,
    /// The checker rejected an answer.
    Rejected,
    /// A file could not be read.
    File,
    /// A sink failed.
    Sink,
    /// Memory ran out.
    Memory,
    /// The store failed.
    Store,
    /// A file is too long, or passes a limit.
    Limit,
    /// A record is no call of the program.
    Calls,
}

impl Status {
    /// The number that a program ends with, 0 to 11; no two statuses have one.
    pub fn number(self) -> u8
        ensures { result ≡ spec.number self }
    {
        match self {
            Status::Done => 0,
            Status::Words => 1,
            Status::Text => 2,
            Status::Exhausted => 3,
            Status::Spent => 4,
            Status::Rejected => 5,
            Status::File => 6,
            Status::Sink => 7,
            Status::Memory => 8,
            Status::Store => 9,
            Status::Limit => 10,
            Status::Calls => 11,
        }
    }
}

/// The status of a fault of a text.
pub fn fault_status(fault: TextFault) -> Status
    ensures { result ≡ spec.fault_status fault }
{
    match fault {
        TextFault::Memory => Status::Memory,
        TextFault::At { .. } | TextFault::Typing(_) => Status::Text,
        TextFault::Limit { .. } => Status::Limit,
    }
}

/// The status of calls that are refused.
pub fn calls_status(fault: CallsFault) -> Status
    ensures { result ≡ spec.calls_status fault }
{
    match fault {
        CallsFault::Memory => Status::Memory,
        CallsFault::Unknown { .. } | CallsFault::Arity { .. } | CallsFault::Value { .. } =>
            Status::Calls,
        CallsFault::Limit => Status::Limit,
    }
}
