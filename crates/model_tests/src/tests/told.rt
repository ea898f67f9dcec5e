// What a text gives, in words.
ghost use Rattle.instance_model.specs.Instance.{IsInstance};
ghost use Rattle.instance_model.specs.Value.{instance_value};

use crate::tests::clones::placed_told;
use crate::tests::graphs::{Rule, model_told};
use crate::tests::kinds::{derived_told, sizes_told};
use crate::tests::proper::fits_told;
use crate::tests::unit::{unit_fits_told, unit_text_told};
use commands::instance_in;
use instance_model::Instance;
use row_model::{Interval, Kind, NoMemory, Read};
use std::alloc::Global;
use std::process::Abort;
use std::test::Fail;

// What is asked about a text.
#[derive(Clone, Copy, Debug)]
pub enum Question<'a> {
    // The kind, the number of sides and the columns of each, of an instance of this kind.
    Sizes(Kind),
    // The derived matrices of all sides of an instance of this kind.
    Derived(Kind),
    // The places and the contigs in an order of the columns of rows.
    Placed(&'a [u32]),
    // The intervals by an order of the vertices of a graph.
    Model(Rule, &'a [u32]),
    // Whether these are the intervals of a model of a graph of four vertices.
    Fits([Interval; 4]),
    // Whether these are the left ends and the length of a unit model of a graph.
    UnitFits(&'a [u64], u64),
    // What the text of a unit model says.
    UnitText,
}

// Asserts of each text what the answer is.
pub fn assert_told(
    rt: &impl Abort,
    alloc: Global,
    cases: &[(&str, Question, &str)],
) -> Result<(), Fail> {
    for case in cases {
        let (text, question, wanted) = *case;
        let told = told_in(alloc, text.as_bytes(), question)?;
        assert_eq!(rt; told.as_str(), wanted, "{case:?}");
    }
    Ok(())
}

fn told_in(alloc: Global, text: &[u8], question: Question) -> Result<String, NoMemory> {
    match question {
        Question::UnitText => unit_text_told(alloc, text),
        Question::Sizes(kind) | Question::Derived(kind) => told_of(alloc, kind, text, question),
        Question::Placed(_) => told_of(alloc, Kind::Rows, text, question),
        Question::Model(_, _) | Question::Fits(_) | Question::UnitFits(_, _) => {
            told_of(alloc, Kind::Proper, text, question)
        }
    }
}

// What is told of the instance of a kind.
fn told_of(alloc: Global, kind: Kind, text: &[u8], question: Question) -> Result<String, NoMemory> {
    match instance_in(alloc, kind, text)? {
        Read::Ok(instance) => instance_told(alloc, &instance, question),
        Read::Refused(_) => String::from_str(alloc, "refused"),
    }
}

fn instance_told(alloc: Global, instance: &Instance, question: Question) -> Result<String, NoMemory>
    requires { IsInstance (instance_value instance.now) }
{
    match (question, instance) {
        (Question::Sizes(_), _) => sizes_told(alloc, instance),
        (Question::Derived(_), _) => derived_told(alloc, instance),
        (Question::Placed(order), Instance::Plain(_, matrix)) => placed_told(alloc, matrix, order),
        (Question::Model(rule, order), Instance::Proper(g)) => model_told(alloc, g, rule, order),
        (Question::Fits(list), Instance::Proper(g)) => fits_told(alloc, g, &list),
        (Question::UnitFits(lefts, length), Instance::Proper(g)) => {
            unit_fits_told(alloc, g, lefts, length)
        }
        _ => String::from_str(alloc, "not of this kind"),
    }
}
