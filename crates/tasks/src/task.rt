// The tasks that need no sheet: the word that names each, and how many words it takes after that.
ghost use Rattle.std.specs.Prelude.{◌≡◌};
ghost use Rattle.tasks.specs.Tasks.{task_named, operands_of};

#[derive(Clone, Copy)]
pub enum Task {
    Help,
    Version,
    Names,
}

impl Task {
    // A word that names none is no error yet, since it may name a task on a sheet: so an `Option`, and no `FromStr`.
    pub fn named(word: &str) -> Option<Task>
        ensures { result ≡ task_named word.now }
    {
        match word {
            "--help" => Some(Task::Help),
            "--version" => Some(Task::Version),
            "names" => Some(Task::Names),
            _ => None,
        }
    }

    pub fn operands(self) -> usize
        ensures { result ≡ operands_of self }
    {
        match self {
            Task::Help | Task::Version => 0,
            Task::Names => 1,
        }
    }
}
