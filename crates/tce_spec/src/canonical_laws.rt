//! Laws of the definitions. These functions do nothing: their contracts are the laws.

ghost use Rattle.tce_spec.specs.RoundTrip.{
  AcceptedTextsHaveCanonicalTexts,
  CanonicalTextsAreShort,
  CanonicalTextsSpecifyTheSame,
  CanonicalTextsTellSpecifications,
  TextsSpecifyWhatCanBeWritten,
};

/// Whatever a text specifies can be written: it keeps the rules of specifications, and its tensors have names.
pub fn texts_specify_what_can_be_written()
    ensures { TextsSpecifyWhatCanBeWritten }
{}

/// The canonical text of a specification has at most 65,536 bytes.
pub fn canonical_texts_are_short()
    ensures { CanonicalTextsAreShort }
{}

/// The canonical text of a specification is read as that specification.
pub fn canonical_texts_specify_the_same()
    ensures { CanonicalTextsSpecifyTheSame }
{}

/// The canonical text of what an accepted text specifies is accepted, and specifies the same.
pub fn accepted_texts_have_canonical_texts()
    ensures { AcceptedTextsHaveCanonicalTexts }
{}

/// Two specifications with one canonical text are the same.
pub fn canonical_texts_tell_specifications()
    ensures { CanonicalTextsTellSpecifications }
{}
