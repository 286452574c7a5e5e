// A law of what is told of a thread that is blocked.

ghost use Rattle.std.specs.Prelude.{◌≡◌, ℕ, Some};
ghost use Rattle.jm_world.specs.Run.{after};
ghost use Rattle.jm_world.specs.World.{World, Thread, thread_at};
ghost use Rattle.jm_world.specs.declared.event.Event.TheVariants.{Step};
ghost use Rattle.jm_world.specs.declared.reply.ReplyKind.TheVariants.{Blocked};
ghost use Rattle.jm_why.specs.Waits.{WaitsTold};

/// Of a thread whose step is blocked is told what keeps it back in the model: the object whose monitor another thread
/// holds, and that thread, or the class whose initialization another thread makes.
pub fn blocked_threads_are_told_with_what_keeps_them_back()
    ensures { (w : World) (n : ℕ) (t : Thread) → thread_at w n ≡ Some t → (after w (Step n)).reply.kind ≡ Blocked → WaitsTold w n t }
{}
