// A law of what a thread asks for that is blocked.

ghost use Rattle.std.specs.Prelude.{◌≡◌, ℕ, Some};
ghost use Rattle.jm_world.specs.Run.{after};
ghost use Rattle.jm_world.specs.World.{World, Thread, thread_at};
ghost use Rattle.jm_world.specs.declared.event.Event.TheVariants.{Step};
ghost use Rattle.jm_world.specs.declared.reply.ReplyKind.TheVariants.{Blocked};
ghost use Rattle.jm_blocked_threads.specs.Waits.{Waits};

/// A step that is blocked changes nothing, and what its thread asks for is what keeps it back: the object whose
/// monitor another thread holds, or the class whose initialization another thread makes. Of a thread that has not
/// begun nothing is told.
pub fn blocked_threads_wait_for_what_they_ask()
    ensures { (w : World) (n : ℕ) (t : Thread) → thread_at w n ≡ Some t → (after w (Step n)).reply.kind ≡ Blocked
        → Waits w n t × ((after w (Step n)).world ≡ w) }
{}
