//! What holds of the meaning itself.
ghost use Rattle.std.specs.Prelude.{◌≡◌, Some, None, List};
ghost use Rattle.clap.specs.Words.{Text};
ghost use Rattle.dali_arguments.specs.declared.task.Task.{Task};
ghost use Rattle.dali_arguments.specs.Meaning.{meaning, usage};
ghost use Rattle.dali_arguments.specs.Laws.{IsInRange};
ghost use Rattle.dali_arguments.specs.Questions.{question_in};
ghost use Rattle.dali_arguments.specs.declared.help.Question.{Question};

use crate::USAGE;

/// In a task that words mean each number is in its range.
pub fn meanings_are_in_range()
    ensures { (words : List Text) (task : Task) → meaning words ≡ Some task → IsInRange task }
{}

/// The text that is printed where words mean no task.
pub fn usage_is_told()
    ensures { USAGE.now ≡ usage }
{}

/// Words that ask of the program itself mean no task.
pub fn questions_mean_no_task()
    ensures { (words : List Text) (question : Question) → question_in words ≡ Some question → meaning words ≡ None }
{}
