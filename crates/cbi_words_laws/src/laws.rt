//! Laws of the definitions, each on a function of its own without a body.
ghost use Rattle.cbi_words_laws.specs.Laws.{
  BadValuesAreNoCommand,
  CommandStays,
  CommandsTakeWhatIsSaid,
  EndEndsOptions,
  JoinedReadsAlike,
  OptionsChangePlaces,
  OptionsStandAnywhere,
  ReadInOrder,
};

/// What stands first is read first: words that are whole give what they give by themselves, before what the others give.
pub fn words_are_read_in_order()
    ensures { ReadInOrder }
{}

/// Behind `--` each word is a positional.
pub fn the_end_ends_options()
    ensures { EndEndsOptions }
{}

/// `--name=value` reads as `--name value`, wherever it stands.
pub fn joined_reads_alike()
    ensures { JoinedReadsAlike }
{}

/// An option with its value may stand behind a positional or before it.
pub fn options_stand_anywhere()
    ensures { OptionsStandAnywhere }
{}

/// Two options may change places: the command has the same positionals, and each of its options the same value.
pub fn options_change_places()
    ensures { OptionsChangePlaces }
{}

/// A command goes by its positionals and the values of its options, and by nothing else of its words.
pub fn commands_take_what_is_said()
    ensures { CommandsTakeWhatIsSaid }
{}

/// The command stays the same where two options change places.
pub fn command_stays()
    ensures { CommandStays }
{}

/// Words of which it is told that a value alone is bad are no command.
pub fn bad_values_are_no_command()
    ensures { BadValuesAreNoCommand }
{}
