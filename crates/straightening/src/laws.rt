//! The laws of turns and of runs. Each function does nothing; its clauses are the laws.
ghost use Rattle.straightening.specs.RunLaws.{TurnsWhereNotNormal, TurnIsAtGreatest, TurnRewritesGreatest, RunKeepsValue, RunEndsWell, RunKeepsClasses, NoTurnOfNormal};
ghost use Rattle.straightening.specs.Bounds.{RunIsBounded, TurnableKeys, RunTakesAtMost};

/// A polynomial has a turn exactly where it is not normal. The turn is the use that takes the term with the greatest key that
/// is not standard away, at the first place where its rows fall; else it changes only smaller keys.
pub fn turns()
    ensures where_not_normal { TurnsWhereNotNormal }
    ensures at { TurnIsAtGreatest }
    ensures greatest { TurnRewritesGreatest }
{}

/// A run keeps the value. What it leaves has the rank of what it began with, and the classes of its keys, and is normal
/// where nothing stopped the run. On a normal polynomial there is no turn.
pub fn runs()
    ensures value { RunKeepsValue }
    ensures ends { RunEndsWell }
    ensures classes { RunKeepsClasses }
    ensures normal { NoTurnOfNormal }
{}

/// A run takes at most as many turns as there are keys that are not standard in the classes of the terms that it begins
/// with, and with a budget of so many it never stops for its turns. The list of these keys can be computed.
pub fn bounds()
    ensures turns { RunIsBounded }
    ensures listed { TurnableKeys }
    ensures most { RunTakesAtMost }
{}
