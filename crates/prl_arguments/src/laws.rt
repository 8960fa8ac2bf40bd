//! What holds of every command.

ghost use Rattle.std.specs.Prelude.{◌≡◌, ℕ, List, Some};
ghost use Rattle.prl_arguments.specs.Arguments.{AreInRange, command_of};
ghost use Rattle.prl_arguments.specs.declared.arguments.Command.{Command as AnyCommand};

/// The numbers of each command that words ask for are in the ranges of its mode.
pub fn commands_are_in_range()
    ensures { (words : List (List ℕ)) (c : AnyCommand) → command_of words ≡ Some c → AreInRange c.mode c.until c.workers c.size }
{}
