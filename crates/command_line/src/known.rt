//! Words that are written out, with what `clap` states for them.
ghost use Rattle.command_line.specs.Known.{KnownFaults, KnownRows};

/// Worked examples of clap's answers.
pub fn known_words()
    ensures faults { KnownFaults }
    ensures rows { KnownRows }
{}
