//! Laws of command lines.
ghost use Rattle.std.specs.Prelude.{◌≡◌, ℕ, List, Option};
ghost use Rattle.command_line.specs.declared.command.Command.{Command};
ghost use Rattle.command_line.specs.Words.{Means, IsMeaning};

/// A list of words means one command at most.
pub fn one_command()
    ensures { (words : List (List ℕ)) (command other : Command) → Means words command → Means words other → command ≡ other }
{}

/// Each list of words means a command, or it means none.
pub fn every_list_is_decided()
    ensures { (words : List (List ℕ)) → (meaning : Option Command) × IsMeaning words meaning }
{}
