//! Laws over the definitions.
ghost use Rattle.made_script.specs.Made.{MakesOne, MakesSome};

/// The words of a run make one list of events.
pub fn makes_one()
    ensures { MakesOne }
{}

/// The words of a run make a script of as many events as have times in range.
pub fn makes_some()
    ensures { MakesSome }
{}
