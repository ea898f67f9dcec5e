// What is read from a file, in words: a value by its rows, or the code and the line of a refusal.
use crate::tests::same::assert_same;
use graph_model::{Bigraph, Distances, Graph};
use graph_read::{LEFT_BOUND, read_bigraph, read_distances, read_graph};
use matrix_read::{read_clones, read_dense, read_more, read_rows, read_table};
use row_model::{Matrix, NoMemory, Read};
use std::alloc::Global;
use std::process::Abort;

// As what a file is read.
#[derive(Clone, Copy, Debug)]
pub enum Form {
    Dense,
    Rows,
    // Further rows of three columns.
    More,
    Table,
    Clones,
    Graph,
    Bigraph,
    Distances,
}

// Asserts what is read from the text.
fn assert_told(
    rt: &impl Abort,
    alloc: Global,
    form: Form,
    text: &[u8],
    wanted: &str,
) -> Result<(), NoMemory> {
    let told = text_told(alloc, form, text)?;
    assert_same(rt, told.as_str(), wanted, (form, text));
    Ok(())
}

// Asserts of each text, as a file of its form, what is read from it.
pub fn assert_read(
    rt: &impl Abort,
    alloc: Global,
    cases: &[(Form, &[u8], &str)],
) -> Result<(), NoMemory> {
    for (form, text, wanted) in cases {
        assert_told(rt, alloc, *form, text, wanted)?;
    }
    Ok(())
}

fn text_told(alloc: Global, form: Form, text: &[u8]) -> Result<String, NoMemory> {
    match form {
        Form::Dense => read_told(alloc, read_dense(alloc, text)),
        Form::Rows => read_told(alloc, read_rows(alloc, text)),
        Form::More => read_told(alloc, read_more(alloc, text, 3)),
        Form::Table => read_told(alloc, read_table(alloc, text)),
        Form::Clones => read_told(alloc, read_clones(alloc, text)),
        Form::Graph => read_told(alloc, read_graph(alloc, text)),
        Form::Bigraph => read_told(alloc, read_bigraph(alloc, text, LEFT_BOUND)),
        Form::Distances => read_told(alloc, read_distances(alloc, text)),
    }
}

pub fn read_told<T: Told + Drop>(
    alloc: Global,
    read: Result<Read<T>, NoMemory>,
) -> Result<String, NoMemory> {
    match read? {
        Read::Refused(refusal) => {
            format!(in alloc; "refused {} in line {}", refusal.code, refusal.line)
        }
        Read::Ok(value) => value_told(alloc, &value),
    }
}

fn value_told<T: Told>(alloc: Global, value: &T) -> Result<String, NoMemory> {
    let mut text = String::new(alloc);
    value.tell(&mut text)?;
    Ok(text)
}

// A value that is told by its sizes and its rows.
pub trait Told {
    fn tell(&self, text: &mut String) -> Result<(), NoMemory>;
}

impl Told for Matrix {
    fn tell(&self, text: &mut String) -> Result<(), NoMemory> {
        write!(text, "{}:", self.columns())?;
        for k in 0..self.rows() {
            push_list(text, self.row(k + 1))?;
        }
        Ok(())
    }
}

impl Told for Graph {
    fn tell(&self, text: &mut String) -> Result<(), NoMemory> {
        write!(text, "{}:", self.vertices())?;
        for v in 0..self.vertices() {
            push_list(text, self.neighbours(v + 1))?;
        }
        Ok(())
    }
}

impl Told for Bigraph {
    fn tell(&self, text: &mut String) -> Result<(), NoMemory> {
        write!(text, "{} to {}:", self.left(), self.right())?;
        for x in 0..self.left() {
            push_list(text, self.neighbours(x + 1))?;
        }
        Ok(())
    }
}

impl Told for Distances {
    fn tell(&self, text: &mut String) -> Result<(), NoMemory> {
        write!(text, "{}:", self.items())?;
        for x in 0..self.items() {
            for y in 0..self.items() {
                push_number(text, self.at(x + 1, y + 1))?;
            }
        }
        Ok(())
    }
}

fn push_list(text: &mut String, list: &[u32]) -> Result<(), NoMemory> {
    text.push_str(" [")?;
    for number in list {
        push_number(text, u64::from(*number))?;
    }
    text.push_str(" ]")
}

fn push_number(text: &mut String, number: u64) -> Result<(), NoMemory> {
    write!(text, " {number}")
}
