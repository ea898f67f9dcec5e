// The tests of what a yes on clones adds.
ghost use Rattle.std.specs.Prelude.{◌≡◌, ◌↔◌, IfOk, IsTrue};
ghost use Rattle.verdict_text.specs.Value.{yes_value};
ghost use Rattle.instance_model.specs.Instance.{plain};
ghost use Rattle.verdict_judge.specs.Tests.{kind_tests};
ghost use Rattle.verdict_judge.specs.YesTests.{PassesOrder, PassesYes};
ghost use Rattle.verdict_judge.specs.Found.{Finds};

use crate::outcome::Reason;
use clone_map::{place, place_laws};
use row_model::{Kind, Matrix, NoMemory, Place, Span};
use std::alloc::Global;
use verdict_text::YesPart;

/// The first of the two tests on places and contigs that fails, where the order is a valid order of the clones.
///
/// # Errors
///
/// `NoMemory`.
pub fn clones_fault(alloc: Global, m: &Matrix, yes: &YesPart) -> Result<Option<Reason>, NoMemory>
    requires { PassesOrder (plain Kind.Clones m.now) (yes_value yes.now) 1 }
    ensures { IfOk result (Finds (PassesYes (plain Kind.Clones m.now) (yes_value yes.now)) (kind_tests Kind.Clones)) }
{
    // An order has one list of places and one of contigs.
    place_laws();
    let placed = place(alloc, m, yes.order(1))?;
    if !same_places(yes.places(), placed.places.as_slice()) {
        return Ok(Some(Reason::Places));
    }
    if !same_contigs(yes.contigs(), placed.contigs.as_slice()) {
        return Ok(Some(Reason::Contigs));
    }
    Ok(None)
}

// Whether the places are the same, clone by clone.
fn same_places(places: &[Place], others: &[Place]) -> bool
    ensures { IsTrue result ↔ (places.now ≡ others.now) }
{
    places == others
}

// Whether the contigs are the same, from left to right.
fn same_contigs(contigs: &[Span], others: &[Span]) -> bool
    ensures { IsTrue result ↔ (contigs.now ≡ others.now) }
{
    contigs == others
}
