//! Laws of the reader.

ghost use Rattle.pws_mark.specs.Outcome.{EndsBuild, EndsMean, EndsTell, LeastTells, StopsTell};
ghost use Rattle.pws_mark.specs.ReaderLaws.{DocumentsAreFollowed, PlacesCount, RunsArePlaced, RunsBegin, WritesSpell};
ghost use Rattle.pws_mark.specs.Stopping.{BeyondTells, SharedTells};
ghost use Rattle.pws_mark.specs.TokenLaws.{CommentsAreTaken, EndsAreTaken, StartsAreTaken, HollowsAreTaken, PiecesAreTaken, SectionsAreTaken, HeadsAreTaken};

/// The characters of a document spell it.
fn writes_spell()
    ensures { WritesSpell }
{}

/// The place is the number of bytes that were read.
fn places_count()
    ensures { PlacesCount }
{}

/// A comment is taken.
fn comments_are_taken()
    ensures { CommentsAreTaken }
{}

/// An end tag is taken.
fn ends_are_taken()
    ensures { EndsAreTaken }
{}

/// A start tag is taken.
fn starts_are_taken()
    ensures { StartsAreTaken }
{}

/// The tag of an element without content is taken.
fn hollows_are_taken()
    ensures { HollowsAreTaken }
{}

/// A character, or a reference, in content is taken.
fn pieces_are_taken()
    ensures { PiecesAreTaken }
{}

/// A section of character data is taken.
fn sections_are_taken()
    ensures { SectionsAreTaken }
{}

/// The head of a document is taken.
fn heads_are_taken()
    ensures { HeadsAreTaken }
{}

/// The reader takes each document whole, notes its faults and builds what it means.
fn documents_are_followed()
    ensures { DocumentsAreFollowed }
{}

/// What was read begins a document.
fn runs_begin()
    ensures { RunsBegin }
{}

/// Where the reader is, is where it stands in each document that begins so.
fn runs_are_placed()
    ensures { RunsArePlaced }
{}

/// A text that the reader takes whole stands for the tree that it builds.
fn ends_mean()
    ensures { EndsMean }
{}

/// What the reader builds of a text without faults is a lawful tree.
fn ends_build()
    ensures { EndsBuild }
{}

/// The least of all that refuses a text is what is told.
fn least_tells()
    ensures { LeastTells }
{}

/// What refuses a text that the reader takes to its end.
fn ends_tell()
    ensures { EndsTell }
{}

/// What refuses a text in which the reader stops.
fn stops_tell()
    ensures { StopsTell }
{}

/// Which characters beyond ASCII the reader takes.
fn beyond_tells()
    ensures { BeyondTells }
{}

/// How many bytes of a character that it doesn't take begin one that it takes.
fn shared_tells()
    ensures { SharedTells }
{}
