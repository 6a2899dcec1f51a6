ghost use Rattle.std.specs.Prelude.{◌↔◌, IsOk};

use std::io;

/// The word that each task has ended. Only a run that did not fail gives it.
#[derive(Drop)]
pub struct TasksEnded(());

impl TasksEnded {
    /// Gives the word, where this run did not fail.
    pub(crate) fn by(run: io::Result<()>) -> io::Result<TasksEnded>
        ensures { IsOk result ↔ IsOk run }
    {
        run?;
        Ok(TasksEnded(()))
    }
}
