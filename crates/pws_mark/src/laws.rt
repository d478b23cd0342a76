//! Laws of the canonical text, and of what texts stand for. The functions do nothing: their contracts are the laws.

ghost use Rattle.pws_mark.specs.Answered.{TextsAreAnswered};
ghost use Rattle.pws_mark.specs.CanonicalTexts.{CanonicalStands, CanonicalMayBeRead, CanonicalTellsApart, TextsAreUtf8};
ghost use Rattle.pws_mark.specs.LawfulMeanings.{MeaningsAreLawful};
ghost use Rattle.pws_mark.specs.TreeOf.{TreesAreMeant, ReadingGivesTheTree, OneRefusal};

/// The canonical text of a lawful tree stands for that tree: a document of the grammar is spelled so, has no fault, and
/// stands for the tree. The text has fewer than 2^64 bytes, as every text in memory has.
pub fn canonical_stands()
    ensures { CanonicalStands }
{}

/// Reading may answer the tree of which a text is the canonical one, where it has at most 32,768 bytes.
pub fn canonical_may_be_read()
    ensures { CanonicalMayBeRead }
{}

/// Two lawful trees have one canonical text exactly where they are the same.
pub fn canonical_tells_apart()
    ensures { CanonicalTellsApart }
{}

/// Each text of the grammar is UTF-8.
pub fn texts_are_utf8()
    ensures { TextsAreUtf8 }
{}

/// A document of the grammar that has no faults stands for a lawful tree.
pub fn meanings_are_lawful()
    ensures { MeaningsAreLawful }
{}

/// The tree of a text is the one that the text stands for, where it stands for one; so it stands for one at most.
pub fn trees_are_meant()
    ensures { TreesAreMeant }
{}

/// Reading answers the tree of a text, and refuses a text that has none.
pub fn reading_gives_the_tree()
    ensures { ReadingGivesTheTree }
{}

/// Reading refuses a text in one way.
pub fn one_refusal()
    ensures { OneRefusal }
{}

/// Reading has an answer for each text that is no want of memory: its tree, or its refusal.
pub fn texts_are_answered()
    ensures { TextsAreAnswered }
{}
