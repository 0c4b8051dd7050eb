//! What the definitions of pieces and gesture lines say. The contracts are the laws.
ghost use Rattle.cl_gesture.specs.Lines.{AreTheBytes, AreWellCut, IsTheOnlyCut};
ghost use Rattle.cl_gesture.specs.Gesture.{AreSpelled};

/// Cutting loses no byte and puts none in: the pieces that end in some bytes, each with its line
/// feed, and then what is held of a line without one, are these bytes.
pub fn cutting_keeps_the_bytes()
    ensures { AreTheBytes }
{}

/// A line holds no line feed and at most 4,096 bytes, and a long piece 4,097 bytes without a line
/// feed.
pub fn pieces_are_well_cut()
    ensures { AreWellCut }
{}

/// Bytes that are such pieces, each with its line feed, and then at most 4,096 bytes without one,
/// are cut into just these pieces: there is one way to cut.
pub fn there_is_one_cut()
    ensures { IsTheOnlyCut }
{}

/// A line does a gesture exactly where it is a spelling of that gesture: a text that is typed is 1
/// or more bytes from 32 to 126, and a name 1 or more bytes without a space. Where a place is pointed
/// at, the gesture's name stands in any case of its letters, and the column and the row are each an
/// optional `-` and 1 to 6 decimal digits. Each other gesture has one spelling.
pub fn gestures_are_spelled()
    ensures { AreSpelled }
{}
