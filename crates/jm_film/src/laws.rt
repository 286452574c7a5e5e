// A law of what a page holds.

ghost use Rattle.std.specs.Prelude.{◌++◌, List};
ghost use Rattle.jm_world.specs.World.{World};
ghost use Rattle.jm_world.specs.declared.event.Event.{Event};
ghost use Rattle.jm_page.specs.Escapes.{IsHarmless};
ghost use Rattle.jm_page.specs.declared.source.Source.{Source};
ghost use Rattle.jm_film.specs.FilmPages.{still_rows};
ghost use Rattle.jm_film.specs.Shots.{shots_from};
ghost use Rattle.jm_film.specs.declared.window.Window.{Window};

/// No `<` stands in a page between the template's text above the data and that below.
pub fn data_are_harmless()
    ensures { (w : World) (events : List Event) (window : Window) (sources : List Source)
        → IsHarmless (still_rows w.program sources ++ shots_from w window.from window.steps events) }
{}
