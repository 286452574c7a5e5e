// What the lines of a program say of its loading.

ghost use Rattle.std.specs.Prelude.{◌≡◌, [], List, None};
ghost use Rattle.jm_program.specs.declared.class.ClassParts.{ClassParts};
ghost use Rattle.jm_world.specs.Loads.{refusal};
ghost use Rattle.jm_findings.specs.Lines.{finding_lines};
ghost use Rattle.jm_findings.specs.declared.main_class.MainClass.TheVariants as main_class;

/// Where the first class is the main class there is no line exactly where the program loads.
pub fn no_line_exactly_where_a_program_loads()
    ensures none { (program : List ClassParts) → finding_lines main_class.First program ≡ [] → refusal program ≡ None }
    ensures loads { (program : List ClassParts) → refusal program ≡ None → finding_lines main_class.First program ≡ [] }
{}
