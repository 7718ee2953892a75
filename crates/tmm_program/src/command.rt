// What the words of the command line ask for.
ghost use Rattle.tmm_program.specs.Program.{IsFor};

use crate::demo::demo_number;
use crate::modes::mode_of;
use tmm_model::Mode;

/// What the program is to do.
#[derive(Clone, Copy)]
pub enum Command {
    /// To answer the script that it reads, in this mode or without one.
    Script(Option<Mode>),
    /// To answer the generated script of this number.
    Demo(u32),
    /// To write how it is used.
    Usage,
}

/// What these words ask for.
pub fn command_of(words: &[String]) -> Command
    ensures { IsFor words.now result }
{
    if words.is_empty() {
        return Command::Script(None);
    }
    if let Some(mode) = mode_of(words) {
        return Command::Script(Some(mode));
    }
    match demo_number(words) {
        Some(n) => Command::Demo(n),
        None => Command::Usage,
    }
}
