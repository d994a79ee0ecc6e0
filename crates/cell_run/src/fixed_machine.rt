//! A machine of which the answers are given.

ghost use Rattle.std.specs.Prelude.{◌≡◌, false, true, None, Err, IsOk, OnOk};
ghost use Rattle.cell_run.specs.Fixed.{Gives, IsFirst, tells_nothing};
ghost use Rattle.cell_run.specs.Machine.{HasAnswered};

use crate::machine::Machine;
use cell_system::{Command, Fail, File, Refusal, Reply};
use std::alloc::{AllocError, Global};
use std::collections::VecDeque;
use std::marker::Model;

/// How a command is answered.
#[derive(Drop)]
pub enum Answer {
    Done(Reply),
    Refused(Refusal),
}

/// A double for tests, which contracts see as the list of the answers that it has still to give. It is
/// always started, tells no world, and takes no memory.
#[derive(Drop)]
pub struct FixedMachine {
    answers: VecDeque<Answer>,
}

impl Model for FixedMachine {
    ghost use Rattle.std.specs.Prelude.{List};
    ghost use Rattle.cell_run.specs.declared.fixed_machine.Answer.{Answer};

    ghost Value = { List Answer };

    ghost view = { λ machine. machine.answers.items };
}

impl FixedMachine {
    /// A machine that gives these answers, the first first.
    pub fn new(answers: Vec<Answer>) -> FixedMachine
        ensures { result ≡ answers.items }
    {
        FixedMachine {
            answers: VecDeque::from(answers),
        }
    }

    /// The next answer, whatever the command. Want of memory is the answer where none is left.
    pub fn next(&mut self) -> Result<Reply, Fail>
        ensures { Gives self.old result self.new }
    {
        match self.answers.pop_front() {
            Some(Answer::Done(reply)) => Ok(reply),
            Some(Answer::Refused(refusal)) => Err(Fail::Refused(refusal)),
            None => Err(Fail::OutOfMemory),
        }
    }
}

impl Machine for FixedMachine {
    ghost tells = { false };

    ghost told = { λ machine. None };

    ghost is_started = { λ machine. true };

    ghost begun = { λ old base pages files new. new ≡ old };

    ghost acts = { λ old command answer new. IsFirst answer old new };

    ghost begins_empty = { λ e. tells_nothing e };

    ghost acts_plainly = { λ e. tells_nothing e };

    /// Changes nothing, and never fails.
    fn start(
        &mut self,
        _alloc: Global,
        _base: u64,
        _pages: u32,
        _files: Vec<File>,
    ) -> Result<(), AllocError>
        ensures begun { OnOk result (self.new ≡ self.old) }
        ensures started { OnOk result (true ≡ true) }
        ensures always { IsOk result }
    {
        Ok(())
    }

    fn act(&mut self, _command: &Command) -> Result<Reply, Fail>
        ensures acts { HasAnswered (λ answer new. IsFirst answer self.old new × (true ≡ true)) result self.new }
        ensures given { Gives self.old result self.new }
    {
        self.next()
    }
}
