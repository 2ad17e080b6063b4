//! Laws of the definitions, each on a function of its own without a body.
ghost use Rattle.flow.specs.Laws.{
  ConversionsAreCounted,
  EachSiteIsCounted,
  MovesUndo,
  OneEnding,
  PlainFormatsStand,
  StaticsHaveRoom,
  StringsArePrinted,
  WritesJoin,
};

/// The machine ends a run in one way alone.
pub fn one_ending()
    ensures { OneEnding }
{}

/// A format without `%` writes its own bytes.
pub fn plain_formats_stand()
    ensures { PlainFormatsStand }
{}

/// A format has as many conversions as were counted.
pub fn conversions_are_counted()
    ensures { ConversionsAreCounted }
{}

/// Bytes that are written one part after another are written as a whole.
pub fn writes_join()
    ensures { WritesJoin }
{}

/// The bytes of a string are what is printed of it.
pub fn strings_are_printed()
    ensures { StringsArePrinted }
{}

/// A pointer that is moved and moved back is itself.
pub fn moves_undo()
    ensures { MovesUndo }
{}

/// Each site has its own counters.
pub fn each_site_is_counted()
    ensures { EachSiteIsCounted }
{}

/// The globals and the texts of a program always have room.
pub fn statics_have_room()
    ensures { StaticsHaveRoom }
{}
