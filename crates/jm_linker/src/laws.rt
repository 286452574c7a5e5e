// What the findings of a program say of its loading.

ghost use Rattle.std.specs.Prelude.{◌≡◌, [], List, None, option_map};
ghost use Rattle.jm_program.specs.declared.class.ClassParts.{ClassParts};
ghost use Rattle.jm_world.specs.Loads.{refusal};
ghost use Rattle.jm_linker.specs.Findings.{findings, first_fault, load_fault};

/// The first finding of a program is what linking answers.
pub fn the_first_finding_is_why()
    ensures { (program : List ClassParts) → first_fault (findings program) ≡ option_map load_fault (refusal program) }
{}

/// Nothing is found exactly where the program loads.
pub fn nothing_is_found_where_a_program_loads()
    ensures none { (program : List ClassParts) → findings program ≡ [] → refusal program ≡ None }
    ensures loads { (program : List ClassParts) → refusal program ≡ None → findings program ≡ [] }
{}
