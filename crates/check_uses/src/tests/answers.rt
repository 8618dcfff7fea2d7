//! What a call answers, as one condition, with nothing left to drop.

use std::alloc::Global;
use std::fmt::Display;

/// Whether a call gives this value.
pub fn gives<T: PartialEq + Drop, E: Drop>(answer: Result<T, E>, wanted: T) -> bool {
    match answer {
        Ok(given) => given == wanted,
        Err(_) => false,
    }
}

/// Whether a call gives these bytes.
pub fn gives_bytes<E: Drop>(answer: Result<Vec<u8>, E>, wanted: &[u8]) -> bool {
    match answer {
        Ok(given) => given.as_slice() == wanted,
        Err(_) => false,
    }
}

/// Whether a call fails.
pub fn fails<T: Drop, E: Drop>(answer: Result<T, E>) -> bool {
    answer.is_err()
}

/// Whether a call fails with this error.
pub fn fails_with<T: Drop, E: PartialEq + Drop>(answer: Result<T, E>, wanted: E) -> bool {
    match answer {
        Ok(_) => false,
        Err(error) => error == wanted,
    }
}

/// Whether a call fails with an error that prints this.
pub fn fails_as<T: Drop, E: Display + Drop>(
    alloc: Global,
    answer: Result<T, E>,
    wanted: &str,
) -> bool {
    match answer {
        Ok(_) => false,
        Err(error) => prints(alloc, &error, wanted),
    }
}

/// Whether something prints this.
pub fn prints<D: Display>(alloc: Global, shown: &D, wanted: &str) -> bool {
    match format!(in alloc; "{shown}") {
        Ok(text) => text.as_str() == wanted,
        Err(_) => false,
    }
}
