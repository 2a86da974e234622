// Why a file of calls is refused, as a text.
use mig_store::CallsFault;
use std::alloc::{AllocError, Global};

/// The cause, and where the record stands.
pub(crate) fn fault_text(alloc: Global, fault: CallsFault) -> Result<String, AllocError> {
    match fault {
        CallsFault::Memory => format!(in alloc; "memory"),
        CallsFault::Unknown { at } => format!(in alloc; "record {at}: unknown"),
        CallsFault::Arity { at } => format!(in alloc; "record {at}: arity"),
        CallsFault::Value { at, field } => format!(in alloc; "record {at}: value {field}"),
        CallsFault::Limit => format!(in alloc; "limit"),
    }
}

/// Whether it is this fault.
pub(crate) fn is_fault(alloc: Global, fault: CallsFault, want: &str) -> Result<bool, AllocError> {
    let text = fault_text(alloc, fault)?;
    Ok(text.as_str() == want)
}
