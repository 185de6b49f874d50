// The tasks on a sheet or its code: the word that names each, and with how many words after that it can be done.
ghost use Rattle.std.specs.Prelude.{◌≡◌};
ghost use Rattle.tasks.specs.SheetTasks.{sheet_task_named, takes_of};

#[derive(Clone, Copy)]
pub enum SheetTask {
    Check,
    Screen,
    Compile,
    List,
}

impl SheetTask {
    // An `Option`, and no `FromStr`, as for the tasks that need no sheet: what no word names is for the caller to say.
    pub fn named(word: &str) -> Option<SheetTask>
        ensures { result ≡ sheet_task_named word.now }
    {
        match word {
            "check" => Some(SheetTask::Check),
            "screen" => Some(SheetTask::Screen),
            "compile" => Some(SheetTask::Compile),
            "list" => Some(SheetTask::List),
            _ => None,
        }
    }

    // Whether the task can be given so many words after its own.
    pub fn takes(self, words: usize) -> bool
        ensures { result ≡ takes_of self words }
    {
        match self {
            SheetTask::Check => words == 2 || words == 3,
            SheetTask::Screen => words >= 2,
            SheetTask::Compile => words == 3,
            SheetTask::List => words == 1 || words == 3,
        }
    }
}
