//! The laws of runs. Each function does nothing; its clauses are the laws.
ghost use Rattle.cayley_run.specs.Alike.{RunsEndAlike};
ghost use Rattle.cayley_run.specs.Bounds.{RunIsWithin};
ghost use Rattle.cayley_run.specs.ObjectMeaning.{ObjectMeans};
ghost use Rattle.cayley_run.specs.Objects.{NextIsByItself, RunIsByObjects};
ghost use Rattle.cayley_run.specs.RunLaws.{RunMeans};
ghost use Rattle.cayley_run.specs.TurnBounds.{RunTakesFewTurns};

/// Each section of a run ends with a normal polynomial that has the value of its start. Where nothing stopped the run,
/// the values have the coordinates of the program's objects, and the last section ends with the value of the
/// conclusion. The points and parameters of a run are those of the program, and its rows and exponents at most those of
/// its objects. Each section takes at most as many turns as there are keys that are not standard in the classes of the
/// terms of its start, and with a budget of as many as these are in all sections together the run never stops for its
/// turns. Runs that nothing stops, with contraction and without, have the same starts and the same ends.
pub fn runs()
    ensures means { RunMeans }
    ensures within { RunIsWithin }
    ensures turns { RunTakesFewTurns }
    ensures alike { RunsEndAlike }
{}

/// Each instruction of a run is run by itself, from the values of the earlier ones, with the turns that they have left.
/// So the run of a program is that of its objects one after another. From values that have the coordinates of the
/// objects of the first instructions, and with any options, the run of the next object ends each section with a normal
/// polynomial that has the value of its start, and where nothing stopped it, its value has the coordinates of the object.
pub fn objects()
    ensures next { NextIsByItself }
    ensures all { RunIsByObjects }
    ensures means { ObjectMeans }
{}
