// Laws of what the data say.

ghost use Rattle.std.specs.Prelude.{◌≡◌, ◌++◌, ℕ, List};
ghost use Rattle.jm_page.specs.Escapes.{IsHarmless};
ghost use Rattle.jm_page.specs.Sections.{IsSameView, Part, apply, delta};
ghost use Rattle.jm_page.specs.Data.{row_text};
ghost use Rattle.jm_page.specs.Filming.{FilmView, Moment, all_told, events_told, last_view, replayed};

use crate::row::Row;

/// What leads from a view to another one, made to the first, gives one that shows what the other shows.
pub fn changes_lead_on()
    ensures { (old new : List Part) → IsSameView (apply old (delta old new)) new }
{}

/// Whoever begins with what a film shows, and makes the change of each event to it, sees what is shown
/// behind the last one; so behind each one, since every run is one whose end is left out.
pub fn readers_see_each_view()
    ensures { (seen : List Part) (film : FilmView) (moments : List Moment) → IsSameView seen film.view → IsSameView (replayed seen film moments) (last_view film moments) }
{}

/// What is written of a run, with the row of its end, is written of no other one: the data tell of each
/// event who made it, the kind of its reply, the output that it added and the change, and how the film
/// ends.
pub fn data_tell_one_run()
    ensures { (film another : FilmView) (moments others : List Moment) (how end : List ℕ)
        → all_told film moments ++ row_text Row.End how ≡ all_told another others ++ row_text Row.End end
        → (events_told film moments ≡ events_told another others) × (how ≡ end) }
{}

/// No `<` stands in what is written of a run.
pub fn runs_are_harmless()
    ensures { (film : FilmView) (moments : List Moment) → IsHarmless (all_told film moments) }
{}
