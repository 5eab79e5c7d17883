ghost use Rattle.std.specs.Prelude.{◌≡◌, ℕ, List};
ghost use Rattle.command_line.specs.declared.commands.Command.{Command};
ghost use Rattle.command_line.specs.Commands.{IsCommandLine};

/// Words are one command at most.
pub fn one_command()
    ensures one { (words choices : List (List ℕ)) (c d : Command) → IsCommandLine words choices c → IsCommandLine words choices d → c ≡ d }
{}
