//! What holds of the words of the commands.

ghost use Rattle.command_words.specs.Defaults.{DefaultsAreAsked};

/// Words of the commands that read a feed, where they give no option, ask for the default options,
/// for one service day, for four workers and for plans with up to four rides.
pub fn defaults_are_asked()
    ensures { DefaultsAreAsked }
{}
