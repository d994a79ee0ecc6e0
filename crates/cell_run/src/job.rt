//! What a machine is to do in a run.

ghost use Rattle.std.specs.Prelude.{◌≡◌, ◌≢◌, ◌≤◌, Err, Ok, IfOk, IsErrOf, Some, true};
ghost use Rattle.cell_arguments.specs.Arguments.{IsInRange, IsTask, said, task_said};
ghost use Rattle.cell_io.specs.Causes.{HasCause};
ghost use Rattle.cell_io.specs.Within.{Gives, IfTold};
ghost use Rattle.cell_input.specs.Taking.{commands_of};
ghost use Rattle.cell_gen.specs.Generated.{generated_files, generated_script};
ghost use Rattle.cell_script.specs.Script.{are_said};
ghost use Rattle.cell_run.specs.Driven.{IsReady};
ghost use Rattle.cell_run.specs.Machine.{MayStart};
ghost use Rattle.cell_run.specs.Run.{IsMade, input_for, job_in, script_named, shows_for};

use cell_arguments::{Arguments, Task};
use cell_gen::generate;
use cell_input::{Input, Reason, take_from};
use cell_io::{Host, Stop};
use cell_num::Listed;
use cell_script::{Script, ScriptFail, read_script};
use cell_world::File;
use std::alloc::{AllocError, Global};

/// What is written of the answers.
#[derive(Clone, Copy, Debug, PartialEq, Eq)]
pub enum Shows {
    /// The lines of each answer.
    Transcript,
    /// One line of what all answers come to.
    Totals,
}

/// A machine's memory and object files, the commands that it is to do, and what is written of its answers.
#[derive(Drop)]
pub struct Job {
    pub shows: Shows,
    pub base: u64,
    pub pages: u32,
    pub files: Listed<File>,
    pub script: Script,
}

/// The name of the task's script; what the generator makes has none.
pub fn script_name<'a>(task: Task<'a>) -> &'a str
    ensures { result.now ≡ script_named (task_said task.entry) }
{
    match task {
        Task::Script { script, .. } => script,
        Task::Generated { .. } => "",
    }
}

fn shows_for(task: Task<'_>) -> Shows
    ensures { result ≡ shows_for (task_said task.entry) }
{
    match task {
        Task::Script { .. } => Shows::Transcript,
        Task::Generated { .. } => Shows::Totals,
    }
}

/// Reads the task's folder, or has everything made.
pub fn job_of<H: Host>(
    alloc: Global,
    arguments: &Arguments<'_>,
    host: &mut H,
) -> Result<Job, Stop<Reason>>
    requires range { IsInRange arguments.now.base arguments.now.pages }
    requires task { IsTask (task_said arguments.now.task) }
    ensures job { IfTold (H.files host.old) (λ all. Gives (λ job. job) result (job_in (said arguments.now) all)) }
    ensures ready { IfOk result IsReady }
    ensures untouched { IsMade (task_said arguments.now.task) → host.new ≡ host.old }
    ensures no_read { IsMade (task_said arguments.now.task) → result ≢ Err Stop.ReadFault }
    ensures files { H.files host.new ≡ H.files host.old }
    ensures cause { HasCause (H.faults host.old) (H.faults host.new) (IsErrOf result Stop.ReadFault) }
{
    let input = input_for(alloc, arguments.task, host)?;
    Ok(Job {
        shows: shows_for(arguments.task),
        base: arguments.base,
        pages: arguments.pages,
        files: input.files,
        script: input.script,
    })
}

fn input_for<H: Host>(alloc: Global, task: Task<'_>, host: &mut H) -> Result<Input, Stop<Reason>>
    requires { IsTask (task_said task) }
    ensures input { IfTold (H.files host.old) (λ all. Gives (λ input. input) result (input_for (task_said task.entry) all)) }
    ensures may_start { IfOk result (λ input. MayStart input.files) }
    ensures said { IfOk result (λ input. are_said input.script ≡ true) }
    ensures untouched { IsMade (task_said task.entry) → host.new ≡ host.old }
    ensures no_read { IsMade (task_said task.entry) → result ≢ Err Stop.ReadFault }
    ensures files { H.files host.new ≡ H.files host.old }
    ensures cause { HasCause (H.faults host.old) (H.faults host.new) (IsErrOf result Stop.ReadFault) }
{
    match task {
        Task::Script { dir, script } => take_from(alloc, dir, script, host),
        Task::Generated { crates, seed } => Ok(made(alloc, crates, seed)?),
    }
}

/// The files and the commands that the generator makes.
fn made(alloc: Global, crates: u32, seed: u64) -> Result<Input, AllocError>
    requires some { 1 ≤ crates }
    requires few { crates ≤ 400 }
    ensures files { IfOk result (λ input. input.files ≡ generated_files crates seed) }
    ensures script { IfOk result (λ input. commands_of (generated_script crates) ≡ Ok input.script) }
    ensures may_start { IfOk result (λ input. MayStart input.files) }
    ensures said { IfOk result (λ input. are_said input.script ≡ true) }
{
    let generated = generate(alloc, crates, seed)?;
    match read_script(alloc, generated.script.as_slice()) {
        Ok(script) => Ok(Input {
            files: Listed::from_vec(generated.files),
            script,
        }),
        Err(ScriptFail::Bad { .. }) => unreachable!(),
        Err(ScriptFail::OutOfMemory) => Err(AllocError),
    }
}
