//! A law of the definitions. The function does nothing: its contract is the law.

ghost use Rattle.tce_top.specs.Laws.{WrittenIsVerified};

/// The certificate that is written for a specification is accepted for it.
pub fn written_is_verified()
    ensures { WrittenIsVerified }
{}
