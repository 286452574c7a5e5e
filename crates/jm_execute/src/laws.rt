// What a class file that was written says of its text, and a text of its class, what the status of files says, what is told of
// files that are looked at without a run, what a session answers to texts, and what is shown when a journal's events are run again.

ghost use Rattle.std.specs.Prelude.{◌≡◌, ◌≢◌, ◌+◌, ◌≤◌, ◌⊎◌, ℕ, [], Bool, List, Err, Ok, None, Option, Result, Some, Vec, false, length, map, true, vec_capacity, vec_len};
ghost use Rattle.std.specs.List.{concat};
ghost use Rattle.std.specs.declared.alloc.Global.{Global};
ghost use Rattle.jm_class_format.specs.ClassFile.{Spells, class_file};
ghost use Rattle.jm_class_writer.specs.ClassParts.{written};
ghost use Rattle.jm_program.specs.declared.class.ClassParts.{ClassParts};
ghost use Rattle.jm_jasmin.specs.Text.{denoted};
ghost use Rattle.jm_disassembler.specs.Unsaid.{first_unsaid};
ghost use Rattle.jm_debug.specs.Answering.{Answers, DebuggerView};
ghost use Rattle.jm_debug.specs.Session.{Session, answers, session_of};
ghost use Rattle.jm_debug.specs.declared.fault.DebugFault.{DebugFault};
ghost use Rattle.jm_debug.specs.declared.fault.DebugFault.TheVariants.{OutOfMemory};
ghost use Rattle.jm_shared.specs.Legal.{world_after};
ghost use Rattle.jm_shared.specs.declared.entry.Entry.{Entry};
ghost use Rattle.jm_world.specs.World.{World, live_among};
ghost use Rattle.jm_explore.specs.Outcomes.{end_of, how_ended};
ghost use Rattle.jm_explore.specs.declared.outcome.HowEnded.TheVariants as how;
ghost use Rattle.jm_explore.specs.OutcomeTexts.{outcome_lines};
ghost use Rattle.jm_explore.specs.Statuses.{outcome_status};
ghost use Rattle.jm_execute.specs.CallEnds.{vec_ends};
ghost use Rattle.jm_execute.specs.Checks.{LoadFrom, all_told, is_one_line};
ghost use Rattle.jm_execute.specs.Reports.{report, status_of};
ghost use Rattle.jm_execute.specs.Endings.{Allows, Ending, IsDone, Leaves, assembled, disassembled, lines_after, output_of};
ghost use Rattle.jm_execute.specs.ProgramFiles.{FileFault, text_class};
ghost use Rattle.jm_execute.specs.Reasons.{file_fault_text, not_read};
ghost use Rattle.jm_execute.specs.Talks.{printed_for};
ghost use Rattle.jm_execute.specs.Verdicts.{because, class_of, verdict};
ghost use Rattle.jm_execute.specs.ViewsAgain.{told};
ghost use Rattle.jm_execute.specs.Written.{Watch, reads, words};
ghost use Rattle.jm_job.specs.declared.job.AssembleJob.{AssembleJob};
ghost use Rattle.jm_job.specs.declared.job.Contents.TheVariants as contents;
ghost use Rattle.jm_job.specs.declared.job.DisassembleJob.{DisassembleJob};
ghost use Rattle.jm_job.specs.declared.job.InputFile.{InputFile};
ghost use Rattle.jm_job.specs.declared.job.Job.{Job};
ghost use Rattle.jm_job.specs.declared.job.Job.TheVariants as job;
ghost use Rattle.jm_explain.specs.declared.status.Status.{Status};
ghost use Rattle.jm_explain.specs.declared.status.Status.TheVariants as status;

use crate::readable::Readable;
use crate::watchable::Watchable;

/// The bytes that an assembly leaves in its output are those that are written for the class that its
/// text denotes; they spell that class, and reading them as a class file gives it back.
pub fn class_of_its_text()
    ensures { (assembly : AssembleJob) (text : Vec ℕ Global) (bytes : List ℕ) → assembly.text.contents ≡ contents.Bytes text
        → Allows (verdict (job.Assemble assembly)) (assembled bytes)
        → (class : ClassParts) × (text_class text.items ≡ Ok class) × (written class ≡ Ok bytes) × Spells bytes class × (class_file.read bytes ≡ Ok class) }
{}

/// The text that a disassembly leaves in its output is of the class that the file holds, and denotes
/// that very class where there is no part that its text cannot say.
pub fn text_of_its_class()
    ensures { (asked : DisassembleJob) (name : List ℕ) (commented : Bool) (class : ClassParts)
        → Allows (verdict (job.Disassemble asked)) (disassembled name commented class)
        → (class_of asked.file ≡ Ok class) × (first_unsaid class ≡ None → denoted (output_of (disassembled name commented class)) ≡ Ok class) }
{}

/// What a search tells of an outcome that was not cut is what a run says that comes to its world: the
/// output and the lines; and of any outcome the status.
pub fn an_outcome_is_that_of_its_run()
    ensures output { (w : World) (cut : Bool) → how_ended w.stop (live_among w.threads) cut ≢ how.Cut → (end_of w cut).output ≡ w.output }
    ensures lines { (w : World) (cut : Bool) → how_ended w.stop (live_among w.threads) cut ≢ how.Cut → outcome_lines (end_of w cut) ≡ report w }
    ensures status { (w : World) (cut : Bool) → outcome_status (end_of w cut) ≡ status_of w }
{}

/// A job that ends with the status of files, and whose output did not fail, has a file that could not
/// be read, or its reader failed. (Where the output or the reader failed, what the job leaves names
/// the call that did.)
pub fn status_of_files<R: Readable, O: Watchable, E: Watchable>()
    ensures { (asked : Job) (reader new_reader : Watch R) (out new_out : Watch O) (err new_err : Watch E) → new_out.failed ≡ false
        → IsDone (reads R.remaining R.fails) (words O.contents O.ends) (words E.contents E.ends) (verdict asked)
        status.Files reader new_reader out new_out err new_err
        → ((name : List ℕ) × (verdict asked ≡ Err (because (not_read name)))) ⊎ (new_reader.failed ≡ true) }
{}

/// The fault of a file that holds no class is one line.
pub fn a_fault_of_a_file_is_one_line()
    ensures { (fault : FileFault) → is_one_line (file_fault_text fault) ≡ true }
{}

/// Nothing is told of files that are looked at without a run exactly where each holds a class and the
/// program of these loads.
pub fn nothing_is_told_where_files_load()
    ensures none { (files : List InputFile) → all_told files ≡ [] → LoadFrom files }
    ensures loads { (files : List InputFile) → LoadFrom files → all_told files ≡ [] }
{}

/// An output in memory that has room for what is written to it does not fail.
pub fn room_for_the_output<E: Watchable>()
    ensures { (contents : Vec ℕ Global → Option (List ℕ)) (e : Ending) (ended : Status) (out new_out : Watch (Vec ℕ Global)) (err new_err : Watch E)
        → vec_len out.inner + length (output_of e) ≤ vec_capacity out.inner
        → Leaves (words contents vec_ends) (words E.contents E.ends) e ended out new_out err new_err
        → new_out.failed ≡ false }
{}

/// Standard error in memory that has room for its lines does not fail, where the output was written.
pub fn room_for_the_lines<O: Watchable>()
    ensures { (contents : Vec ℕ Global → Option (List ℕ)) (e : Ending) (ended : Status) (out new_out : Watch O) (err new_err : Watch (Vec ℕ Global))
        → new_out.failed ≡ false → vec_len err.inner + length (lines_after e) ≤ vec_capacity err.inner
        → Leaves (words O.contents O.ends) (words contents vec_ends) e ended out new_out err new_err
        → new_err.failed ≡ false }
{}

/// What is printed for lines that are texts are the session's answers to them, one after the other.
pub fn answers_to_texts()
    ensures { (s : Session) (texts : List (List ℕ)) → printed_for s (map (λ text. Some text) texts) ≡ concat (answers s texts) }
{}

/// A journal's events run again give equal views. A debugger of the journal's machine and one of a machine
/// of any heap that has run the events again (`Journal::run_again` of `jm_shared`) are both at the session
/// of the world to which these events lead (`Debugger::new` of `jm_debug`); what they answer to a line is
/// the same, unless one of them is refused memory.
pub fn equal_views<G, H>()
    ensures { (first : World) (entries : List Entry) (line : List ℕ) (d : DebuggerView G) (e : DebuggerView H) (r q : Result (Vec ℕ Global) DebugFault)
        → Answers (λ v. v.items) d (session_of (world_after first entries)) line r
        → Answers (λ v. v.items) e (session_of (world_after first entries)) line q
        → told r ≢ Err OutOfMemory → told q ≢ Err OutOfMemory → told r ≡ told q }
{}
