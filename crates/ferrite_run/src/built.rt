ghost use Rattle.std.specs.Prelude.{MatchBool};
ghost use Rattle.ferrite_run.specs.Built.{IsBuilt};

use command_line::Command;

/// Whether the command is built.
pub fn is_built(command: &Command) -> bool
    ensures built { MatchBool result (IsBuilt command.now) (IsBuilt command.now → ⊥) }
{
    match command {
        Command::Check { .. }
        | Command::Repair { .. }
        | Command::Verify { .. }
        | Command::Replay { .. }
        | Command::Events { .. }
        | Command::Show { .. }
        | Command::Models
        | Command::Work { .. } => true,
        _ => false,
    }
}
