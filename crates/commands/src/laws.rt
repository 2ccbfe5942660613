//! The law of the command line: it is the contract of a function that does nothing.
ghost use Rattle.std.specs.Prelude.{◌≡◌, List, String, string_bytes, map};
ghost use Rattle.std.specs.Option.{option_and_then};
ghost use Rattle.std.specs.declared.alloc.Global.{Global};
ghost use Rattle.rt_plain.specs.runs.Commands.{command_of as defined_command_of};
ghost use Rattle.commands.specs.Command.{command_of, if_built};

/// Words are `run`, `trace` or `show` of a file, or `replay` of two, exactly where the definitions read them as that command of them.
/// Where they are no command here, the definitions read none, or one that isn't built.
pub fn words_are_read_as_defined()
    ensures { (words : List (String Global)) → command_of words ≡ option_and_then if_built (defined_command_of (map string_bytes words)) }
{}
