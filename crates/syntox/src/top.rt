//! All that the program does, over any shelf, source and sinks.
ghost use Rattle.std.specs.Prelude.{◌≡◌, ◌≢◌, ◌↔◌, ◌⊎◌, ◌≤◌, ℕ, Bool, List, length, codes, Ok, Some, None, IfOk, OnErr};
ghost use Rattle.px_base.specs.Bytes.{Adds};
ghost use Rattle.px_base.specs.Faults.{Rose};
ghost use Rattle.syntox.specs.Analysis.{CanBeAnalysed, IsReport, TellsCells};
ghost use Rattle.syntox.specs.Answers.{Cuts, ForCommand, ForRun, IsDue, outside};
ghost use Rattle.syntox.specs.Command.{Asked, analysis_of, run_of, asked, file_of};
ghost use Rattle.syntox.specs.Files.{HasProgram, HasTree, IsFaultless, TellsFault, TellsRule};
ghost use Rattle.syntox.specs.Lines.{large_input_line, max_input, unreadable_line, usage_line};
ghost use Rattle.syntox.specs.Running.{IsLargeInput, IsRun, IsRunStatus, input_of};
ghost use Rattle.syntox.specs.Sinks.{Takes, at, sinks};

use crate::analyse::analyse;
use crate::command::{Command, command_of};
use crate::due::{Due, deliver, usage};
use crate::run::run;
use crate::status::Status;
use pas_check::{a_fault_and_a_program_exclude_each_other, a_tree_has_one_program};
use pas_lexer::a_text_has_one_covering;
use px_base::{Shelf, Sink, Source};
use std::alloc::{AllocError, Global};

/// What is due for the words.
fn due_for<P: Shelf, D: Source>(
    alloc: Global,
    words: &Vec<String>,
    shelf: &mut P,
    given: &mut D,
) -> Result<Due, AllocError>
    requires may_ask { (asks : Asked) → asked words.now ≡ Some asks → P.may_ask shelf.old (file_of asks) }
    ensures due { IfOk result (λ due. IsDue
        (outside (P.file shelf.old) (P.faults shelf.old) (P.faults shelf.new) (input_of (D.left given.old) (D.faults given.old) (D.faults given.new)))
        (asked words.now) due.to due.text.items due.status) }
    ensures names { (n : List ℕ) → P.may_ask shelf.new n ↔ P.may_ask shelf.old n }
    ensures files { (n : List ℕ) → P.file shelf.new n ≡ P.file shelf.old n }
    ensures given { (given.new ≡ given.old) ⊎ ForRun (asked words.now) (λ file steps. IsFaultless (P.file shelf.old file)) }
{
    match command_of(words) {
        Some(Command::Analyse { file, points }) => analyse(alloc, file, points, shelf),
        Some(Command::Run { file, steps }) => run(alloc, file, steps, shelf, given),
        None => usage(alloc),
    }
}

/// Carries out a command. `analyse FILE` writes to `out` what holds of the program in a file, and `analyse FILE --points` also what is
/// known at each of its points. `run FILE` and `run FILE --steps N` run the program on the bytes of `given`, N or 1,000,000 steps at most,
/// and write to `out` what it writes, and a line that says how it ended.
///
/// # Errors
///
/// Want of memory; then `out` and `err` are as they were. Every other failure is a status, told by a line on `err`.
pub fn top<P: Shelf, D: Source, O: Sink, E: Sink>(
    alloc: Global,
    words: &Vec<String>,
    shelf: &mut P,
    given: &mut D,
    out: &mut O,
    err: &mut E,
) -> Result<Status, AllocError>
    requires may_ask { (asks : Asked) → asked words.now ≡ Some asks → P.may_ask shelf.old (file_of asks) }

    // The text is whole: a report, or that of a run.
    ensures done { result ≡ Ok Status.Done → ForCommand (asked words.now)
        (λ file points. Takes (O.taken out.old) (O.taken out.new) (IsReport file points (P.file shelf.old file)))
        (λ file steps. Takes (O.taken out.old) (O.taken out.new) (IsRun (P.file shelf.old file) (D.left given.old) steps Status.Done)) }
    ensures run_error { result ≡ Ok Status.RunError → ForRun (asked words.now)
        (λ file steps. Takes (O.taken out.old) (O.taken out.new) (IsRun (P.file shelf.old file) (D.left given.old) steps Status.RunError)) }
    ensures out_of_steps { result ≡ Ok Status.OutOfSteps → ForRun (asked words.now)
        (λ file steps. Takes (O.taken out.old) (O.taken out.new) (IsRun (P.file shelf.old file) (D.left given.old) steps Status.OutOfSteps)) }

    // Why there is none, and the line that says so.
    ensures refused { result ≡ Ok Status.Refused → ForCommand (asked words.now)
        (λ file points. Takes (E.taken err.old) (E.taken err.new)
        (λ line. TellsFault file (P.file shelf.old file) line ⊎ TellsCells file (P.file shelf.old file) line))
        (λ file steps. Takes (E.taken err.old) (E.taken err.new) (TellsFault file (P.file shelf.old file))) }
    ensures read_fault { result ≡ Ok Status.ReadFault → ForCommand (asked words.now)
        (λ file points. Rose (P.faults shelf.old) (P.faults shelf.new) × Adds (E.taken err.old) (E.taken err.new) (unreadable_line file))
        (λ file steps. (Rose (P.faults shelf.old) (P.faults shelf.new) × Adds (E.taken err.old) (E.taken err.new) (unreadable_line file))
        ⊎ (IsFaultless (P.file shelf.old file) × Rose (D.faults given.old) (D.faults given.new)
        × Adds (E.taken err.old) (E.taken err.new) (unreadable_line (codes "input")))) }
    ensures data_too_large { result ≡ Ok Status.DataTooLarge → ForRun (asked words.now)
        (λ file steps. IsFaultless (P.file shelf.old file) × IsLargeInput (D.left given.old)
        × Adds (E.taken err.old) (E.taken err.new) large_input_line) }
    ensures usage { result ≡ Ok Status.Usage →
        (asked words.now ≡ None) × Adds (E.taken err.old) (E.taken err.new) usage_line }

    // A sink failed, and has a prefix of what was due to it.
    ensures write_fault { result ≡ Ok Status.WriteFault → Cuts
        (outside (P.file shelf.old) (P.faults shelf.old) (P.faults shelf.new) (input_of (D.left given.old) (D.faults given.old) (D.faults given.new)))
        (asked words.now) (sinks
        (at (O.taken out.old) (O.faults out.old)) (at (O.taken out.new) (O.faults out.new))
        (at (E.taken err.old) (E.faults err.old)) (at (E.taken err.new) (E.faults err.new))) }

    // A source with a flow whose unfolding isn't too large is analysed, and a program is run. What has a tree and is no program is refused
    // by a rule of names, types, labels or control variables.
    ensures complete { (file bytes : List ℕ) (points : Bool) → asked words.now ≡ Some (analysis_of file points) → P.file shelf.old file ≡ Some (Some bytes)
        → CanBeAnalysed bytes → ¬ Rose (P.faults shelf.old) (P.faults shelf.new) → ¬ Rose (O.faults out.old) (O.faults out.new)
        → IfOk result (λ status. status ≡ Status.Done) }
    ensures complete_run { (file bytes input : List ℕ) (steps : ℕ) → asked words.now ≡ Some (run_of file steps)
        → P.file shelf.old file ≡ Some (Some bytes) → HasProgram bytes → D.left given.old ≡ Some input → length input ≤ max_input
        → ¬ Rose (P.faults shelf.old) (P.faults shelf.new) → ¬ Rose (D.faults given.old) (D.faults given.new)
        → ¬ Rose (O.faults out.old) (O.faults out.new) → IfOk result (λ status. IsRunStatus status) }
    ensures complete_check { (file bytes input : List ℕ) (steps : ℕ) → asked words.now ≡ Some (run_of file steps)
        → P.file shelf.old file ≡ Some (Some bytes) → HasTree bytes → D.left given.old ≡ Some input → length input ≤ max_input
        → ¬ Rose (P.faults shelf.old) (P.faults shelf.new) → ¬ Rose (D.faults given.old) (D.faults given.new)
        → ¬ Rose (O.faults out.old) (O.faults out.new) → ¬ Rose (E.faults err.old) (E.faults err.new)
        → IfOk result (λ status. IsRunStatus status
        ⊎ ((status ≡ Status.Refused) × Takes (E.taken err.old) (E.taken err.new) (TellsRule file bytes))) }

    // What stays as it was: a sink to which nothing is written, with its count of faults, and what the shelf tells of files, so that
    // this can be called again. The input is read only for the run of a source without fault.
    ensures out_kept { result ≢ Ok Status.Done → result ≢ Ok Status.RunError → result ≢ Ok Status.OutOfSteps → result ≢ Ok Status.WriteFault
        → out.new ≡ out.old }
    ensures err_kept { (result ≡ Ok Status.Done) ⊎ ((result ≡ Ok Status.RunError) ⊎ (result ≡ Ok Status.OutOfSteps))
        → err.new ≡ err.old }
    ensures one_kept { (out.new ≡ out.old) ⊎ (err.new ≡ err.old) }
    ensures untouched { OnErr result ((out.new ≡ out.old) × (err.new ≡ err.old)) }
    ensures names { (n : List ℕ) → P.may_ask shelf.new n ↔ P.may_ask shelf.old n }
    ensures files { (n : List ℕ) → P.file shelf.new n ≡ P.file shelf.old n }
    ensures given { (given.new ≡ given.old) ⊎ ForRun (asked words.now) (λ file steps. IsFaultless (P.file shelf.old file)) }
{
    a_text_has_one_covering();
    a_fault_and_a_program_exclude_each_other();
    a_tree_has_one_program();
    let due = due_for(alloc, words, shelf, given)?;
    Ok(deliver(&due, out, err))
}
