// The program over memory: what it is asked for, and what it leaves.
use crate::machine::*;
use hub_program::{Counting, program};
use tests_support::{Input, Output};

/// The file of the program that fails at its first call.
#[derive(Clone, Copy, Debug, PartialEq)]
pub(crate) enum Broken {
    /// No file.
    Nothing,
    /// Standard input.
    Input,
    /// Standard output.
    Output,
    /// Standard error.
    Errors,
}

/// The things that the program left: its status, standard output, standard error.
#[derive(Drop)]
struct Left {
    status: u8,
    output: Counting<Output>,
    errors: Output,
}

/// Makes a writer that takes all, or fails at its first call.
pub(crate) fn output_of(alloc: Global, is_broken: bool) -> Result<Output, AllocError> {
    Output::new(alloc, usize::MAX, usize::from(is_broken))
}

/// Makes a string of each of these words.
fn strings(alloc: Global, words: &[&str]) -> Result<Vec<String>, AllocError> {
    let mut strings = Vec::with_capacity(alloc, words.len())?;
    for word in words {
        strings.push(String::from_str(alloc, word)?)?;
    }
    Ok(strings)
}

/// Runs the program with a greeting for its input.
fn attempt<T: ProgramMachine>(rt: &T, words: &[&str], broken: Broken) -> Result<Left, AllocError> {
    let words = strings(rt.alloc(), words)?;
    let mut input = Input::of(b"HSUP ADBASE ADTIGR\n", usize::MAX);
    input.bad = usize::from(broken == Broken::Input);
    let mut input = Counting::new(input);
    let mut output = Counting::new(output_of(rt.alloc(), broken == Broken::Output)?);
    let mut errors = output_of(rt.alloc(), broken == Broken::Errors)?;
    let status = program(rt, &words, &mut input, &mut output, &mut errors);
    Ok(Left {
        status,
        output,
        errors,
    })
}

/// Runs the program, and once more where memory was refused, as it then says.
fn run<T: ProgramMachine>(rt: &T, words: &[&str], broken: Broken) -> Left {
    if let Ok(left) = attempt(rt, words, broken) {
        if left.status != 4 {
            return left;
        }
        let said = left.errors.got.as_slice();
        assert!(rt; broken == Broken::Errors || said == b"adc_hub: memory\n".as_slice());
    }
    again!(rt; attempt(rt, words, broken))
}

/// Stops the test unless the program, asked like this, leaves just that. Where it says nothing, it does not try to.
pub(crate) fn asks<T: ProgramMachine>(
    rt: &T,
    words: &[&str],
    broken: Broken,
    status: u8,
    output: &[u8],
    errors: &[u8],
) {
    let left = run(rt, words, broken);
    let got = left.output.get_ref().got.as_slice();
    for (is_so, what) in [
        (left.status == status, "status"),
        (got == output, "standard output"),
        (left.errors.got.as_slice() == errors, "standard error"),
        (status != 0 || left.errors.calls == 0, "calls"),
    ] {
        assert!(rt; is_so, "{what} of {words:?}, {broken:?}");
    }
}
