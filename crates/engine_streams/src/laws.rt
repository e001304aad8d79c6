// The concatenation of a stream's pieces, as contracts of an empty function.
ghost use Rattle.engine_streams.specs.Joined.{PiecesArePrefix, PiecesAreWhole};

/// The concatenation of the pieces that successive calls of `next` return is a prefix of the body that was left. Once a
/// `next` returns `None`, it is that whole body, and the digests that are compared name it.
pub fn pieces_are_the_body()
    ensures prefix { PiecesArePrefix }
    ensures whole { PiecesAreWhole }
{}
