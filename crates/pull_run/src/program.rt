// From the arguments and the input to the exit status.
ghost use Rattle.std.specs.Prelude.{◌≡◌, ◌↔◌, None};
ghost use Rattle.pull_run.specs.Complete.{EndsComplete};
ghost use Rattle.pull_run.specs.Program.{TaskStatusMeans, CommandStatusMeans, StatusMeans, EndsUnread, EndsLong, EndsPast};
ghost use Rattle.pull_run.specs.Task.{task_by, task_of};
ghost use Rattle.pull_run.specs.Command.{command_of, CountsWell};

use crate::MirrorInput;
use crate::command::{Command, command_of};
use crate::generated::serve_generated;
use crate::input::read_input;
use crate::output::deliver;
use crate::status::Status;
use crate::task::Task;
use crate::word::Word;
use byte_streams::{Sink, Source};
use json_values::{Json, Text};
use locked_cases::{ChainInput, CheckInput, LockInput};
use pull_admit::ReviewInput;
use recorded_case::Case;
use std::alloc::Global;

// Reads the input, computes the task's output, and writes it.
fn serve<T: Task + Drop, S: Source, K: Sink>(alloc: Global, source: &mut S, sink: &mut K) -> Status
    ensures { TaskStatusMeans (task_by T.reads T.Gives) result
        (S.state source.old) (S.state source.new) (K.state sink.old) (K.state sink.new) }
{
    let input: T = match read_input(alloc, source) {
        Ok(input) => input,
        Err(status) => return status,
    };
    match input.make(alloc) {
        Ok(report) => deliver(sink, &report),
        Err(_) => Status::WantOfMemory,
    }
}

fn serve_word<S: Source, K: Sink>(alloc: Global, word: Word, source: &mut S, sink: &mut K) -> Status
    ensures { TaskStatusMeans (task_of word) result
        (S.state source.old) (S.state source.new) (K.state sink.old) (K.state sink.new) }
{
    match word {
        Word::Pull => serve::<Case, S, K>(alloc, source, sink),
        Word::Canon => serve::<Json, S, K>(alloc, source, sink),
        Word::Check => serve::<ChainInput, S, K>(alloc, source, sink),
        Word::Lock => serve::<LockInput, S, K>(alloc, source, sink),
        Word::LockCheck => serve::<CheckInput, S, K>(alloc, source, sink),
        Word::Review => serve::<ReviewInput, S, K>(alloc, source, sink),
        Word::Mirror => serve::<MirrorInput, S, K>(alloc, source, sink),
    }
}

fn serve_command<S: Source, K: Sink>(
    alloc: Global,
    command: Option<Command>,
    source: &mut S,
    sink: &mut K,
) -> Status
    requires { CountsWell command }
    ensures { CommandStatusMeans command result
        (S.state source.old) (S.state source.new) (K.state sink.old) (K.state sink.new) }
{
    match command {
        Some(Command::Reads(word)) => serve_word(alloc, word, source, sink),
        Some(Command::Generates(layers)) => serve_generated(alloc, layers, sink),
        None => Status::Usage,
    }
}

/// Runs the program: performs the command that the arguments select, and returns the exit status of the process.
pub fn run<S: Source, K: Sink>(alloc: Global, words: &[Text], source: &mut S, sink: &mut K) -> u8
    ensures status { StatusMeans words.now result
        (S.state source.old) (S.state source.new) (K.state sink.old) (K.state sink.new) }
    ensures usage { command_of words.now ≡ None ↔ result ≡ 2 }
    ensures unread { EndsUnread words.now result (S.state source.old) (S.state source.new) }
    ensures long { EndsLong words.now result (S.state source.old) (S.state source.new) }
    ensures past { EndsPast result (S.state source.old) (S.state source.new) }
    ensures completes { EndsComplete words.now result
        (S.state source.old) (S.state source.new) (K.state sink.old) (K.state sink.new) }
{
    serve_command(alloc, command_of(words), source, sink).code()
}
