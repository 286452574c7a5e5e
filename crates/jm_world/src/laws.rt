//! Laws of the definitions, each the contract of a function that does nothing.

ghost use Rattle.jm_values.specs.Shape.{IsShape};
ghost use Rattle.jm_world.specs.Frames.{Frame, frame_shape};
ghost use Rattle.jm_world.specs.FramesOfRuns.{EventsKeepFrames, RunsKeepFrames};
ghost use Rattle.jm_world.specs.NamesOfRuns.{
  EventsKeepCode,
  EventsKeepNames,
  RunsHaveCode,
  RunsHaveWhatIsNamed,
};
ghost use Rattle.jm_world.specs.Renaming.{thread_shape, static_shape, monitor_shape, literal_shape};
ghost use Rattle.jm_world.specs.World.{World, Thread, Static, Monitor, Literal};
ghost use Rattle.jm_world.specs.Making.{OneIsAList, ObjectsAreNumbered};
ghost use Rattle.jm_world.specs.Matched.{WorldsAreMatched};
ghost use Rattle.jm_world.specs.Matches.{Parts, Matches, ReachesAlike};
ghost use Rattle.jm_world.specs.Reaching.{ReachIsLeast};
ghost use Rattle.jm_world.specs.TwoThreads.{PlainStepsCommute, StepsAreApart};
ghost use Rattle.jm_world.specs.UpToNumbers.{EventsAgree, OnesTellTheSame, RunsAgree, WorldsAreThemselves};
ghost use Rattle.jm_world.specs.WellFormed.{EventsKeepForm, RunsAreWellFormed};

/// The computed list of reachable objects is the least set that has the roots and is closed under
/// fields and elements, each number once (JVMS 2.5.3).
pub fn reach_is_the_least_set()
    ensures { ReachIsLeast }
{}

/// Objects that are made at once have the numbers that follow, in their order, and each one before
/// keeps its number. Making one object is making a list of one.
pub fn objects_are_made_together()
    ensures one { OneIsAList }
    ensures numbers { ObjectsAreNumbered }
{}

/// An event leaves a well-formed world well formed: references are numbers of objects, ended
/// threads have no frames, each held monitor is one thread's and stands once.
pub fn events_keep_form()
    ensures { EventsKeepForm }
{}

/// A world from a load is well formed after all lists of events, and what it reaches has objects.
pub fn runs_are_well_formed()
    ensures { RunsAreWellFormed }
{}

/// An event keeps the frames of a world: of each method frame the operands fit in max_stack and
/// longs are whole (JVMS 2.6.1, 2.6.2), a thread has at most 512 frames (JVMS 2.5.2), and a class
/// in progress is initialized by a frame of the thread that owns it (JVMS 5.5).
pub fn events_keep_frames()
    ensures { EventsKeepFrames }
{}

/// In every world that a load and a list of events make, frames are so.
pub fn runs_keep_frames()
    ensures { RunsKeepFrames }
{}

/// An event keeps the program, the literals and the fields of statics of a world.
pub fn events_keep_names()
    ensures { EventsKeepNames }
{}

/// In every world that a load of a program of classes and a list of events make, what the program
/// names is there: the classes of its instructions and catch types, the fields, the statics of its
/// getstatic and putstatic, the methods, static ones exactly at invokestatic, whose code, and that
/// of each class's initializer, and the literals (JVMS 5.4.3).
pub fn runs_have_what_is_named()
    ensures { RunsHaveWhatIsNamed }
{}

/// An event keeps it so that the method of each method frame is one of the program's and has code.
pub fn events_keep_code()
    ensures { EventsKeepCode }
{}

/// And so it is in every world that a load and a list of events make.
pub fn runs_have_code()
    ensures { RunsHaveCode }
{}

/// Each well-formed world is one with itself, so what the next laws ask for can be met.
pub fn worlds_are_themselves()
    ensures { WorldsAreThemselves }
{}

/// Worlds that are one but for the numbers of their objects and for the objects that neither
/// reaches answer an event alike, and are so again behind it.
pub fn events_agree()
    ensures { EventsAgree }
{}

/// And so they do all events of a list.
pub fn runs_agree()
    ensures { RunsAgree }
{}

/// What was written, the stop, and the numbers of threads are the same in such worlds.
pub fn worlds_up_to_numbers_tell_the_same()
    ensures { OnesTellTheSame }
{}

/// A step of a thread neither reads nor changes another thread, but for its object and for the
/// cells of what it reaches.
pub fn steps_are_apart()
    ensures { StepsAreApart }
{}

/// A plain instruction that goes on, and that leaves as many cells reachable, commutes with each
/// step of another thread that goes on.
pub fn plain_steps_commute()
    ensures { PlainStepsCommute }
{}

/// Frames, threads, statics, monitors and literals have shapes: renaming, listing and refilling
/// their references keep to the laws that all shapes keep to.
pub fn parts_have_shapes()
    ensures frames { IsShape Frame frame_shape }
    ensures threads { IsShape Thread thread_shape }
    ensures statics { IsShape Static static_shape }
    ensures monitors { IsShape Monitor monitor_shape }
    ensures literals { IsShape Literal literal_shape }
{}

/// A machine that matches a world reaches the objects that the world reaches, in as many cells.
pub fn a_machine_reaches_what_its_world_does<T>()
    ensures { (m : Parts T) (w : World) → Matches m w → ReachesAlike m w }
{}

/// Every well-formed world is matched: by the machine whose heap has all objects, each at the
/// place one above its number. So what matching asks for can be met.
pub fn worlds_are_matched()
    ensures { WorldsAreMatched }
{}
