// A film that is being written.

ghost use Rattle.std.specs.Prelude.{◌≡◌, ◌++◌, IfOk, OnErr, OnOk, drop, length};
ghost use Rattle.jm_page.specs.Data.{view_text};
ghost use Rattle.jm_page.specs.Filming.{FilmView, told};

use crate::event::{write_event, write_view};
use crate::section::Section;
use std::alloc::AllocError;
use std::marker::Model;

/// A film that is being written: the view behind the last event, and how much of the output was told.
#[derive(Drop)]
pub struct Film {
    view: Vec<Section>,
    printed: usize,
}

impl Model for Film {
    ghost use Rattle.jm_page.specs.Filming.{FilmView};

    ghost Value = { FilmView };

    ghost view = { λ f. record { view = f.view.items; printed = f.printed } };
}

// What of the output was not told yet.
#[tactic(auto, using(std::proofs::lemmas::List::drop_all))]
fn added(output: &[u8], printed: usize) -> &[u8]
    ensures { result.now ≡ drop printed output.now }
{
    if printed < output.len() {
        &output[printed..]
    } else {
        &[]
    }
}

impl Film {
    /// Begins a film with the whole view behind the event of a number, where the program has printed
    /// such an output. `AllocError`: a growth was refused; a part of it may be written then.
    pub fn begin(
        out: &mut Vec<u8>,
        number: &str,
        output: &[u8],
        view: Vec<Section>,
    ) -> Result<Film, AllocError>
        ensures written { OnOk result (out.new.items ≡ out.old.items ++ view_text number.now view.items) }
        ensures film { IfOk result (λ f. f ≡ record { view = view.items; printed = length output.now }) }
    {
        write_view(out, number, &view)?;
        let printed = output.len();
        Ok(Film { view, printed })
    }

    /// Writes an event, as [`write_event`] does: who made it, the kind of its reply, what it added to
    /// the output, and what leads from the view before it to the one behind it. `AllocError`: a growth
    /// was refused; the film is as it was, and a part of the event may be written.
    pub fn event(
        &mut self,
        out: &mut Vec<u8>,
        who: &str,
        kind: &str,
        output: &[u8],
        view: Vec<Section>,
    ) -> Result<(), AllocError>
        ensures written { OnOk result (out.new.items ≡ out.old.items ++ told self.old who.now kind.now output.now view.items) }
        ensures film { OnOk result (self.new ≡ record { view = view.items; printed = length output.now }) }
        ensures refused { OnErr result (self.new ≡ self.old) }
    {
        let told = added(output, self.printed);
        write_event(out, who, kind, told, &self.view, &view)?;
        self.view = view;
        self.printed = output.len();
        Ok(())
    }
}
