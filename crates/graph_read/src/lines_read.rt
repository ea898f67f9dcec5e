// The lines of a text of edges that were read.
ghost use Rattle.std.specs.Prelude.{◌≡◌, ◌+◌, ◌≤◌, ◌++◌, ℕ, List, [], length, drop, None, IfOk};
ghost use Rattle.std.proofs.Props.{props};
ghost use Rattle.row_model.specs.Rows.{RowList};
ghost use Rattle.row_model.specs.declared.TheConstants.{MAX_FILE_BYTES};
ghost use Rattle.graph_model.specs.declared.TheConstants.{LEFT_BOUND};
ghost use Rattle.text_lines.specs.Lines.{lines_of, filled_lines};
ghost use Rattle.graph_model.specs.Graphs.{IsBigraph, IsGraph};
ghost use Rattle.graph_read.specs.Placed.{lists_then};
ghost use Rattle.graph_read.specs.Headings.{left_limit, AreEdgesOf, IsShapeOf};

use crate::edge_lines::is_blank;
use crate::headings::{Heading, shape_in};
use crate::heads::refusal;
use crate::read_lists::{EdgePlaces, push_lines};
use graph_model::LEFT_BOUND;
use row_model::{MAX_FILE_BYTES, Matrix, NoMemory, Read, code};
use std::alloc::Global;
use text_lines::line_from;

/// What was read of the lines of a text.
#[derive(Drop)]
pub struct LinesRead {
    /// What the first line that is not blank gives.
    pub heading: Heading,
    /// How many lines were read, unless there is a refusal.
    pub passed: u32,
    /// The edges, or the first refusal, once a line was not blank.
    pub edges: Option<Read<EdgePlaces>>,
    ghost limit: { left_limit heading ≤ LEFT_BOUND },
    ghost shape: { AreEdgesOf heading edges } by { Prim.hlevel props },
}

impl LinesRead {
    ghost use Rattle.graph_read.specs.Pieces.{lines_then, lists_headed};

    /// No line.
    pub fn new(heading: Heading) -> Self
        requires { left_limit heading ≤ LEFT_BOUND }
        ensures heading { result.heading ≡ heading }
        ensures passed { result.passed ≡ 0 }
        ensures edges { result.edges ≡ None }
    {
        LinesRead {
            heading,
            passed: 0,
            edges: None,
        }
    }

    /// These lines, and behind them those of a text.
    ///
    /// # Errors
    ///
    /// [`NoMemory`] where memory is refused.
    pub fn with_lines(self, alloc: Global, text: &[u8]) -> Result<Self, NoMemory>
        requires { self.passed + length text.now ≤ MAX_FILE_BYTES }
        ensures lines { IfOk result (λ new. (later : List (List ℕ)) → lines_then new later ≡ lines_then self (lines_of text.now ++ later)) }
        ensures few { IfOk result (λ new. new.passed ≤ self.passed + length text.now) }
        ensures heading { IfOk result (λ new. new.heading ≡ self.heading) }
    {
        let LinesRead {
            heading,
            passed,
            edges,
        } = self;
        match edges {
            None => Self::first_lines(alloc, heading, text, passed),
            Some(Read::Ok(edges)) => Self::further_lines(heading, edges, text, 0, passed),
            Some(Read::Refused(refusal)) => Ok(LinesRead {
                heading,
                passed,
                edges: Some(Read::Refused(refusal)),
            }),
        }
    }

    /// The lists of the edges of these lines, or the first refusal.
    ///
    /// # Errors
    ///
    /// [`NoMemory`] where memory is refused.
    pub fn lists(self, alloc: Global) -> Result<Read<Matrix>, NoMemory>
        ensures lists { IfOk result (λ read. read ≡ lines_then self []) }
        ensures sides { IfOk result (λ read. (lists : RowList) → read ≡ Read.Ok lists
            → IsBigraph (record { left = length lists.rows; right = lists.columns; neighbours = lists.rows })) }
        ensures vertices { self.heading ≡ Heading.Vertices → IfOk result (λ read. (lists : RowList) → read ≡ Read.Ok lists
            → IsGraph (record { vertices = lists.columns; neighbours = lists.rows })) }
    {
        let LinesRead { edges, .. } = self;
        match edges {
            None => Ok(Read::Refused(refusal(code::EMPTY, 0))),
            Some(Read::Ok(edges)) => Ok(Read::Ok(edges.lists(alloc)?)),
            Some(Read::Refused(refusal)) => Ok(Read::Refused(refusal)),
        }
    }

    // The lines of a text behind blank ones, so many.
    fn first_lines(
        alloc: Global,
        heading: Heading,
        text: &[u8],
        passed: u32,
    ) -> Result<LinesRead, NoMemory>
        requires limit { left_limit heading ≤ LEFT_BOUND }
        requires few { passed + length text.now ≤ MAX_FILE_BYTES }
        ensures lines { IfOk result (λ new. (later : List (List ℕ)) → lines_then new later
            ≡ lists_headed heading (filled_lines (passed + 1) (lines_of text.now ++ later))) }
        ensures few { IfOk result (λ new. new.passed ≤ passed + length text.now) }
        ensures heading { IfOk result (λ new. new.heading ≡ heading) }
    {
        let mut number = passed;
        let mut at = 0;
        while at < text.len() {
            let span = line_from(text, at);
            number += 1;
            at = span.next;
            let line = &text[span.start..span.end];
            if !is_blank(line) {
                return match shape_in(heading, line) {
                    Err(code) => Ok(LinesRead {
                        heading,
                        passed: number,
                        edges: Some(Read::Refused(refusal(code, number))),
                    }),
                    Ok(shape) => {
                        Self::further_lines(
                            heading,
                            EdgePlaces::new(alloc, shape, text.len())?,
                            text,
                            at,
                            number,
                        )
                    }
                };
            }
        }
        Ok(LinesRead {
            heading,
            passed: number,
            edges: None,
        })
    }

    // The lines of a text from a place on, behind so many lines and their edges.
    fn further_lines(
        heading: Heading,
        edges: EdgePlaces,
        text: &[u8],
        at: usize,
        passed: u32,
    ) -> Result<LinesRead, NoMemory>
        requires limit { left_limit heading ≤ LEFT_BOUND }
        requires shape { IsShapeOf heading edges.shape }
        requires at { at ≤ length text.now }
        requires few { passed + length text.now ≤ at + MAX_FILE_BYTES }
        ensures lines { IfOk result (λ new. (later : List (List ℕ)) → lines_then new later
            ≡ lists_then edges.shape edges.places.items (filled_lines (passed + 1) (lines_of (drop at text.now) ++ later))) }
        ensures few { IfOk result (λ new. new.passed + at ≤ passed + length text.now) }
        ensures heading { IfOk result (λ new. new.heading ≡ heading) }
    {
        let EdgePlaces { shape, mut places } = edges;
        match push_lines(shape, text, at, passed, &mut places)? {
            Read::Ok(passed) => Ok(LinesRead {
                heading,
                passed,
                edges: Some(Read::Ok(EdgePlaces { shape, places })),
            }),
            Read::Refused(refusal) => Ok(LinesRead {
                heading,
                passed,
                edges: Some(Read::Refused(refusal)),
            }),
        }
    }
}
