use crate::answer::SystemAnswer;
use std::fs::{self, Files};
use std::io;

/// Opens the file at this path, to be read. It fails where the system does not open it.
pub fn opened<R: Files>(rt: &R, path: &str) -> SystemAnswer<io::Result<R::File>> {
    SystemAnswer {
        given: fs::open(rt, path),
    }
}
