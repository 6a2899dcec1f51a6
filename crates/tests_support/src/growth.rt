use std::alloc::{AllocError, Global};
use std::io::Print;

// None of these has a contract, since a test's own proof is dearer the more its calls promise.

/// Appends bytes, once more where memory was refused. Refused where that was too.
pub fn append(bytes: &mut Vec<u8>, more: &[u8]) -> Result<(), AllocError> {
    match bytes.extend_from_slice(more) {
        Ok(()) => Ok(()),
        Err(_) => bytes.extend_from_slice(more),
    }
}

/// Copies bytes, once more where memory was refused. Refused where that was too.
pub fn copy(alloc: Global, bytes: &[u8]) -> Result<Vec<u8>, AllocError> {
    match Vec::from_slice(alloc, bytes) {
        Ok(copy) => Ok(copy),
        Err(_) => Vec::from_slice(alloc, bytes),
    }
}

/// Puts an item last, once more where memory was refused. Refused where that was too.
pub fn push<T: Drop>(items: &mut Vec<T>, item: T) -> Result<(), AllocError> {
    match items.push(item) {
        Ok(()) => Ok(()),
        Err(refused) => match items.push(refused.value) {
            Ok(()) => Ok(()),
            Err(_) => Err(AllocError),
        },
    }
}

/// Writes on standard output which call was refused memory, and answers whether the line was taken whole.
pub fn tell(rt: &impl Print, name: &str) -> bool {
    println!(rt; "refused: {name}").is_ok()
}
