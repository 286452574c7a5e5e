// Sections that are put behind one another.

ghost use Rattle.std.specs.Prelude.{◌≡◌, ◌++◌, ◌∷◌, [], OnOk};
ghost use Rattle.std.specs.List.{flat_map};
ghost use Rattle.jm_debug.specs.Views.{Lines};
ghost use Rattle.jm_debug.specs.Session.{ended};
ghost use Rattle.jm_film.specs.Shown.{section, section_of};

use jm_page::Section;
use std::alloc::AllocError;

/// Puts a section behind the others, also where it has no lines.
pub fn put(view: &mut Vec<Section>, key: String, text: String) -> Result<(), AllocError>
    ensures { (lines : Lines) → text.bytes.items ≡ flat_map ended lines → OnOk result (view.new.items ≡ view.old.items ++ section key.bytes.items lines ∷ []) }
{
    view.push(Section::new(key, text))?;
    Ok(())
}

/// Puts a section behind the others, if it has lines.
pub fn put_if_any(view: &mut Vec<Section>, key: String, text: String) -> Result<(), AllocError>
    ensures { (lines : Lines) → text.bytes.items ≡ flat_map ended lines → OnOk result (view.new.items ≡ view.old.items ++ section_of key.bytes.items lines) }
{
    if text.is_empty() {
        return Ok(());
    }
    put(view, key, text)
}
