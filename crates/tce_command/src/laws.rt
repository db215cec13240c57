// Laws of commands.
ghost use Rattle.tce_command.specs.Laws.{WordsAreOneCommand};

/// Words are those of one command at most.
pub fn words_are_one_command()
    ensures { WordsAreOneCommand }
{}
