// What stands above the events.

ghost use Rattle.std.specs.Prelude.{◌≡◌, ◌++◌, [], IfOk, OnOk};
ghost use Rattle.std.specs.List.{flat_map};
ghost use Rattle.jm_page.specs.Data.{row_text};
ghost use Rattle.jm_page.specs.declared.row.Row.TheVariants.{Title};
ghost use Rattle.jm_page.specs.Listings.{class_rows, source_rows};
ghost use Rattle.jm_page.specs.Writing.{Puts};
ghost use Rattle.jm_page.specs.declared.page.TheConstants.{ABOVE};
ghost use Rattle.jm_film.specs.FilmPages.{still_rows, title_of};

use jm_page::{
    ABOVE, PageFault, PageWriter, Row, Source, put_piece, write_class, write_row, write_source,
};
use jm_program::Class;
use std::alloc::{AllocError, Global};

// The title: the main class's name.
fn title_of(alloc: Global, program: &[Class]) -> Result<String, AllocError>
    ensures { IfOk result (λ text. text.bytes.items ≡ title_of program.now) }
{
    match program.first() {
        Some(class) => {
            let name = &class.parts().name;
            format!(in alloc; "{name}")
        }
        None => Ok(String::new(alloc)),
    }
}

// Writes the template's text above the data, and the title.
fn write_top(alloc: Global, piece: &mut Vec<u8>, program: &[Class]) -> Result<(), AllocError>
    ensures { OnOk result (piece.new.items ≡ piece.old.items ++ ABOVE.now ++ row_text Title (title_of program.now)) }
{
    let title = title_of(alloc, program)?;
    piece.extend_from_slice(ABOVE.as_bytes())?;
    write_row(piece, Row::Title, title.as_bytes())
}

// Writes the methods of a program's classes.
fn put_classes<P: PageWriter>(
    alloc: Global,
    program: &[Class],
    piece: &mut Vec<u8>,
    page: &mut P,
) -> Result<(), PageFault>
    requires { piece.old.items ≡ [] }
    ensures put { Puts P.wrote P.broke result page.old (flat_map class_rows program.now) page.new }
    ensures empty { OnOk result (piece.new.items ≡ []) }
{
    for class in program {
        write_class(alloc, piece, class)?;
        put_piece(page, piece)?;
    }
    Ok(())
}

// Writes the sources.
fn put_sources<P: PageWriter>(
    alloc: Global,
    sources: &[Source],
    piece: &mut Vec<u8>,
    page: &mut P,
) -> Result<(), PageFault>
    requires { piece.old.items ≡ [] }
    ensures put { Puts P.wrote P.broke result page.old (flat_map source_rows sources.now) page.new }
    ensures empty { OnOk result (piece.new.items ≡ []) }
{
    for source in sources {
        write_source(alloc, piece, source)?;
        put_piece(page, piece)?;
    }
    Ok(())
}

/// Writes the template's text above the data and the rows that stand still: the title, the methods of a program's
/// classes, and the sources. `OutOfMemory`: a growth was refused; `WriteFailed`: a write failed.
pub fn put_front<P: PageWriter>(
    alloc: Global,
    program: &[Class],
    sources: &[Source],
    piece: &mut Vec<u8>,
    page: &mut P,
) -> Result<(), PageFault>
    requires { piece.old.items ≡ [] }
    ensures put { Puts P.wrote P.broke result page.old (ABOVE.now ++ still_rows program.now sources.now) page.new }
    ensures empty { OnOk result (piece.new.items ≡ []) }
{
    write_top(alloc, piece, program)?;
    put_piece(page, piece)?;
    put_classes(alloc, program, piece, page)?;
    put_sources(alloc, sources, piece, page)
}
