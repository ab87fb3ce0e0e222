//! The command `analyse`.
ghost use Rattle.std.specs.Prelude.{◌≡◌, ◌<◌, ◌≤◌, ◌↔◌, ◌⊎◌, ℕ, Bool, List, Option, Some, length, IfOk};
ghost use Rattle.activations.specs.Drawn.{IsUnfolding};
ghost use Rattle.alternation.specs.Analysed.{flow_of, graph_of, plain_of};
ghost use Rattle.alternation.specs.Solved.{IsPlain};
ghost use Rattle.syntox.specs.Analysis.{IsAnalysed, IsReport, TellsCells};
ghost use Rattle.syntox.specs.Files.{HasFlow, IsUnopened, TellsFault};
ghost use Rattle.syntox.specs.Lines.{max_source};

use crate::due::{Due, Stream};
use crate::opening::{Opening, open_file, refuse};
use crate::status::Status;
use activations::{Graph, UnfoldFault, unfold};
use alternation::{Analysis, reserve};
use control_points::Flow;
use lattice::Steps;
use pas_check::{a_fault_and_a_program_exclude_each_other, a_tree_has_one_program};
use pas_lexer::a_text_has_one_covering;
use px_base::Shelf;
use report::{SourceFault, report};
use std::alloc::{AllocError, Global};
use std::marker::Brand;
use std::sync::ledger::{Blank, Ledger};

/// Solves the systems of an analysis in one round.
fn solve<G: Ledger>(analysis: &mut Analysis<'_>, blank: Blank)
    requires name { blank.name ≡ G.name }
    requires parts { blank.parts ≡ G.parts }
    requires some { 0 < G.parts }
    ensures flow { flow_of analysis.new ≡ flow_of analysis.old }
    ensures graph { graph_of analysis.new ≡ graph_of analysis.old }
    ensures plain { IsPlain (flow_of analysis.old) (graph_of analysis.old) (plain_of analysis.new) }
{
    let mut count = Steps::<G>::new(blank);
    analysis.run(1, &mut count);
}

/// What is due for a flow over its unfolding: the report of its analysis.
fn report_of(
    alloc: Global,
    file: &str,
    text: &[u8],
    flow: &Flow,
    graph: &Graph,
    points: bool,
) -> Result<Due, AllocError>
    requires small { length text.now ≤ max_source }
    requires graph { IsUnfolding flow.now graph.now }
    ensures stream { IfOk result (λ due. due.to ≡ Stream.Answers) }
    ensures report { (told : Option (Option (List ℕ))) → HasFlow told text.now flow.now
        → IfOk result (λ due. IsReport file.now points told due.text.items) }
    ensures status { IfOk result (λ due. due.status ≡ Status.Done) }
{
    let mut analysis = reserve(alloc, flow, graph)?;
    solve::<Brand>(&mut analysis, Blank::new(1));
    let text = report(
        alloc,
        text,
        file,
        flow,
        graph,
        analysis.plain(),
        analysis.way(),
        points,
    )?;
    let to = Stream::Answers;
    let status = Status::Done;
    Ok(Due { to, text, status })
}

/// What is due for the analysis of a source: the report, or the line that its unfolding is too large.
fn analyse_flow(
    alloc: Global,
    file: &str,
    text: &[u8],
    flow: &Flow,
    points: bool,
) -> Result<Due, AllocError>
    requires { length text.now ≤ max_source }
    ensures { (told : Option (Option (List ℕ))) → HasFlow told text.now flow.now
        → IfOk result (λ due. IsAnalysed file.now points told due.to due.text.items due.status) }
{
    match unfold(alloc, flow) {
        Ok(graph) => report_of(alloc, file, text, flow, &graph, points),
        Err(UnfoldFault::TooMany { cells }) => {
            refuse(alloc, file, text, &SourceFault::Cells(cells))
        }
        Err(UnfoldFault::Memory(error)) => Err(error),
    }
}

/// What is due for the analysis of the program in a file, with or without what is known at each point.
pub fn analyse<P: Shelf>(
    alloc: Global,
    file: &str,
    points: bool,
    shelf: &mut P,
) -> Result<Due, AllocError>
    requires { P.may_ask shelf.old file.now }
    ensures due { IfOk result (λ due.
        IsAnalysed file.now points (P.file shelf.old file.now) due.to due.text.items due.status
        ⊎ IsUnopened file.now (P.file shelf.old file.now) (P.faults shelf.old) (P.faults shelf.new) due.to due.text.items due.status) }
    ensures names { (n : List ℕ) → P.may_ask shelf.new n ↔ P.may_ask shelf.old n }
    ensures files { (n : List ℕ) → P.file shelf.new n ≡ P.file shelf.old n }
{
    match open_file(alloc, file, shelf)? {
        Opening::Source { text, flow } => analyse_flow(alloc, file, &text, &flow, points),
        Opening::Line(due) => Ok(due),
    }
}

/// A law: a file that is refused, for a fault or for too many cells, has no report.
pub fn a_report_and_a_refusal_exclude_each_other()
    ensures fault { (file bytes text line : List ℕ) (points : Bool) → IsReport file points (Some (Some bytes)) text → TellsFault file (Some (Some bytes)) line → ⊥ }
    ensures cells { (file bytes text line : List ℕ) (points : Bool) → IsReport file points (Some (Some bytes)) text → TellsCells file (Some (Some bytes)) line → ⊥ }
{
    a_text_has_one_covering();
    a_fault_and_a_program_exclude_each_other();
    a_tree_has_one_program();
}
