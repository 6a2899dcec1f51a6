use std::fs::{File, Files, OpenOptions};
use std::io;
use std::os::fd::{AsRawFd, IntoRawFd};

/// Where standard input, output and error lead to nothing.
const NOWHERE: &str = "/dev/null";

/// The number of standard error, the last of the three.
const LAST: i32 = 2;

/// Opens each of the three standard descriptors that is closed, so that nothing else takes its place: a connection in the place of
/// standard output would get what is printed. The system gives the lowest number that is free.
pub(crate) fn fill_standard<R>(rt: &R) -> io::Result<()>
where
    R: Files<File = File>,
{
    // Standard input comes first, and is the only one that is read.
    let input = rt.open_file(OpenOptions::new().read(true), NOWHERE)?;
    if input.as_raw_fd() == 0 {
        let _kept = input.into_raw_fd();
    } else {
        drop(input);
    }
    for _output in 0..LAST {
        let output = rt.open_file(OpenOptions::new().write(true), NOWHERE)?;
        if output.as_raw_fd() > LAST {
            break;
        }
        let _kept = output.into_raw_fd();
    }
    Ok(())
}
