// Laws of what a schedule is, and of its text.

ghost use Rattle.std.specs.Prelude.{◌≡◌, ◌<◌, ◌≤◌, ◌^◌, ℕ, List, Ok, length, map};
ghost use Rattle.std.specs.List.{All};
ghost use Rattle.jm_world.specs.Schedules.{schedule};
ghost use Rattle.jm_world.specs.declared.event.Event.TheVariants.{Step};
ghost use Rattle.jm_explore.specs.ScheduleTexts.{schedule_text};
ghost use Rattle.jm_explore.specs.Schedulings.{ListsAll, ListsNoOther, ListsOnce, MoreSwitches, NoneLeftOut, SameEnd};

/// Whatever events are made, also blocked ones, those of ended threads and collections, they lead where
/// those among them lead that go.
pub fn events_that_do_not_go_change_nothing()
    ensures { SameEnd }
{}

/// With as many switches as steps no schedule is left out, and more switches leave none out.
pub fn switches_enough_leave_none_out()
    ensures none { NoneLeftOut }
    ensures more { MoreSwitches }
{}

/// The list of all schedules has each of them, each once, and nothing else.
pub fn all_schedules_are_listed()
    ensures each { ListsAll }
    ensures other { ListsNoOther }
    ensures once { ListsOnce }
{}

/// The text of a schedule of a million events at most is a file of a schedule, which spells its very
/// events: a step of each of its threads, one after the other.
pub fn a_schedule_is_spelled_by_its_text()
    ensures { (ts : List ℕ) → All (λ t. t < 2 ^ 64) ts → length ts ≤ 1000000 → schedule (schedule_text ts) ≡ Ok (map (λ t. Step t) ts) }
{}
