// What a record's text says.

ghost use Rattle.std.specs.Prelude.{◌≡◌, ◌≤◌, List, Ok, length};
ghost use Rattle.std.specs.List.{All};
ghost use Rattle.jm_world.specs.Schedules.{record_entries};
ghost use Rattle.jm_shared.specs.Records.{IsReadable, numbered, record_text};
ghost use Rattle.jm_shared.specs.declared.entry.Entry.{Entry};

/// The text of a journal's entries is a record, whose lines spell these very entries, each in the
/// line of its place: where there are 160 million at most, each made by one of 16 seats.
pub fn a_record_reads_back()
    ensures { (entries : List Entry) → All IsReadable entries → length entries ≤ 160000000 → record_entries (record_text entries) ≡ Ok (numbered 1 entries) }
{}
