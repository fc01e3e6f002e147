use std::alloc::{AllocError, AllocFailed, Global};

/// Why a transcript stops: it differs, or can't be read, or there was no memory.
#[derive(Drop)]
pub enum Fault {
    Differs(String),
    Memory,
}

impl From<AllocError> for Fault {
    fn from(_e: AllocError) -> Fault {
        Fault::Memory
    }
}

impl<T: Drop> From<AllocFailed<T>> for Fault {
    fn from(_e: AllocFailed<T>) -> Fault {
        Fault::Memory
    }
}

/// A transcript that can't be read.
pub fn unreadable(alloc: Global, why: &str) -> Fault {
    match String::from_str(alloc, why) {
        Ok(text) => Fault::Differs(text),
        Err(_) => Fault::Memory,
    }
}

/// What was expected of this, beside what came; nothing where they agree.
pub fn compare(alloc: Global, what: &str, expected: &str, came: &str) -> Result<(), Fault> {
    if expected == came {
        return Ok(());
    }
    Err(Fault::Differs(format!(in alloc; "{what}\n  expected: {expected}\n  came:     {came}")?))
}
