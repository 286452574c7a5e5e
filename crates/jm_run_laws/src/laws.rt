//! Laws of the model's runs, each the contract of a function that does nothing.

ghost use Rattle.jm_run_laws.specs.ExceptionsOfRuns.{EventsThrowThrowables, RunsThrowThrowables};
ghost use Rattle.jm_run_laws.specs.InstructionsOfRuns.{EventsStayInCode, RunsStayInCode};
ghost use Rattle.jm_run_laws.specs.LocalsOfRuns.{EventsKeepLocals, RunsHaveLocals};
ghost use Rattle.jm_run_laws.specs.ObjectsOfRuns.{EventsKeepFields, RunsHaveFields, RunsHavePlaces};
ghost use Rattle.jm_run_laws.specs.StoresOfPrograms.{ProgramsStoreOwn};

/// An event keeps it so that each method frame has as many local variables as its method's
/// max_locals (JVMS 2.6.1), in a world of a program that loads.
pub fn events_keep_locals()
    ensures { EventsKeepLocals }
{}

/// And so it is in every world that a load and a list of events make.
pub fn runs_have_locals()
    ensures { RunsHaveLocals }
{}

/// An event keeps it so that the number of each method frame's instruction is below the length of
/// its method's code, and of a thread's top frame at most that length (JVMS 2.6, 4.9.1), in a world
/// of a program that loads.
pub fn events_stay_in_code()
    ensures { EventsStayInCode }
{}

/// And so it is in every world that a load and a list of events make.
pub fn runs_stay_in_code()
    ensures { RunsStayInCode }
{}

/// An event keeps it so that each object is an array, or an instance of a class of the program or of
/// a built-in one, with as many values as its class has instance fields (JVMS 2.4, 2.7), in a world
/// of a program that loads.
pub fn events_keep_fields()
    ensures { EventsKeepFields }
{}

/// And so it is in every world that a load and a list of events make.
pub fn runs_have_fields()
    ensures { RunsHaveFields }
{}

/// In every such world the place of a field in an object, which getfield and putfield ask for, is
/// one of the object's values (JVMS 5.4.3.2).
pub fn runs_have_places()
    ensures { RunsHavePlaces }
{}

/// An event keeps it so that the pending exception of each thread is an object whose class is
/// Throwable or below it (JVMS 2.10, 6.5 athrow), in a world of a program that loads.
pub fn events_throw_throwables()
    ensures { EventsThrowThrowables }
{}

/// And so it is in every world that a load and a list of events make.
pub fn runs_throw_throwables()
    ensures { RunsThrowThrowables }
{}

/// A putstatic of a program that loads names a static field of one of the program's own classes, and
/// of no built-in one (JVMS 6.5 putstatic).
pub fn programs_store_own()
    ensures { ProgramsStoreOwn }
{}
