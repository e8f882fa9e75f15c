//! The laws of contraction. Each function does nothing; its clauses are the laws.
ghost use Rattle.contraction.specs.PassLaws.{SyzygyIsThreeTerms, SyzygyHasThreeTerms, PassKeepsValue};
ghost use Rattle.contraction.specs.PassLaws.{PassTakesAway, PassKeepsClasses, PassMakesFewer};
ghost use Rattle.contraction.specs.PassLaws.{ContractionContracts, ContractionEndsAlike};

/// The syzygy of a pass is minus a three-term sum. Of different points it has at most three terms, each with the
/// integer 1 or -1. So a pass keeps the value. It takes two terms away, makes the terms fewer, and keeps the rank and
/// the classes of the keys.
pub fn passes()
    ensures sum { SyzygyIsThreeTerms }
    ensures terms { SyzygyHasThreeTerms }
    ensures value { PassKeepsValue }
    ensures takes { PassTakesAway }
    ensures classes { PassKeepsClasses }
    ensures fewer { PassMakesFewer }
{}

/// The run of the passes of a polynomial keeps the value, the rank and the classes of the keys, and leaves no pass
/// where nothing stopped it. With and without it, runs of turns that nothing stops end alike.
pub fn runs()
    ensures contracts { ContractionContracts }
    ensures ends { ContractionEndsAlike }
{}
