// Labels, and what they read as from left to right.
ghost use Rattle.std.specs.Prelude.{◌≡◌, ◌≤◌, ◌<◌, ◌+◌, ◌-◌, ◌^◌, ◌↔◌, IsTrue, List, [], ◌∷◌, map, length, IfSome};
ghost use Rattle.pq_tree.specs.Outline.{Outline};
ghost use Rattle.tree_theory.specs.Labels.{partials};
ghost use Rattle.pq_plain.specs.Cuts.{IsRunCut};
ghost use Rattle.pq_plain.specs.Seen.{label_seen, empties, fulls, whole_label, whole_front, cut_front};

use pq_tree::Tree;

// The partial `[e f]`: a Q-shape whose run of empty trees is followed by its run of full trees.
#[derive(Drop)]
pub struct Halves {
    // The empty trees, none of whose columns is in the row.
    pub empty: Vec<Tree>,
    // The full trees, all of whose columns are in the row.
    pub full: Vec<Tree>,
}

// What a row makes of a tree below the pertinent root.
#[derive(Drop)]
pub enum Label {
    // No column of the tree is in the row.
    Empty,
    // All columns of the tree are in the row.
    Full,
    // Some are and some are not, and the templates make this of the tree.
    Partial(Halves),
}

// A label of a tree that has all its columns on one side: in the row, or outside of it.
#[derive(Clone, Copy)]
pub enum Whole {
    Empty,
    Full,
}

impl Whole {
    // Whether it is this label.
    pub fn is(self, label: &Label) -> bool
        ensures { IsTrue result ↔ label.now ≡ whole_label self }
    {
        match self {
            Whole::Empty => matches!(label, Label::Empty),
            Whole::Full => matches!(label, Label::Full),
        }
    }
}

// How many labels there are of each kind.
#[derive(Clone, Copy)]
pub struct Kinds {
    // How many are `Empty`.
    pub empty: usize,
    // How many are `Full`.
    pub full: usize,
    // How many are `Partial`.
    pub partial: usize,
}

impl Kinds {
    // Counts one label more.
    fn add(&mut self, label: &Label)
        requires empty { self.old.empty < 2 ^ 64 - 1 }
        requires full { self.old.full < 2 ^ 64 - 1 }
        requires partial { self.old.partial < 2 ^ 64 - 1 }
        ensures empty { self.new.empty ≡ self.old.empty + empties (label_seen label.now ∷ []) }
        ensures full { self.new.full ≡ self.old.full + fulls (label_seen label.now ∷ []) }
        ensures partial { self.new.partial ≡ self.old.partial + length (partials (label_seen label.now ∷ [])) }
    {
        match label {
            Label::Empty => self.empty += 1,
            Label::Full => self.full += 1,
            Label::Partial(_) => self.partial += 1,
        }
    }
}

// Counts the labels of each kind.
pub fn count_kinds(labels: &[Label]) -> Kinds
    ensures empty { result.empty ≡ empties (map label_seen labels.now) }
    ensures full { result.full ≡ fulls (map label_seen labels.now) }
    ensures partial { result.partial ≡ length (partials (map label_seen labels.now)) }
{
    let mut kinds = Kinds {
        empty: 0,
        full: 0,
        partial: 0,
    };
    for label in labels {
        kinds.add(label);
    }
    kinds
}

// How many labels at the beginning are this one.
pub fn leading(labels: &[Label], wanted: Whole) -> usize
    ensures count { result ≡ whole_front wanted (map label_seen labels.now) }
    ensures within { result ≤ length labels.now }
{
    for i in 0..labels.len() {
        if !wanted.is(&labels[i]) {
            return i;
        }
    }
    labels.len()
}

// One if the first label is partial, else zero.
pub fn leading_partial(labels: &[Label]) -> usize
    ensures count { result ≡ cut_front (map label_seen labels.now) }
    ensures within { result ≤ length labels.now }
{
    match labels {
        [Label::Partial(_), ..] => 1,
        _ => 0,
    }
}

// Where children that read empty, at most one partial, full are cut.
#[derive(Clone, Copy)]
pub struct Run {
    // How many empty children come first.
    pub before: usize,
    // How many children stand before the full ones.
    pub behind: usize,
}

// Where the labels read empty, at most one partial, full, if they do.
pub fn find_run(labels: &[Label]) -> Option<Run>
    ensures cut { (ts : List Outline) → length ts ≡ length labels.now → IsRunCut ts (map label_seen labels.now) result }
    ensures within { IfSome result (λ run. (run.before ≤ run.behind) × (run.behind ≤ length labels.now)) }
{
    let before = leading(labels, Whole::Empty);
    let behind = before + leading_partial(&labels[before..]);
    if behind + leading(&labels[behind..], Whole::Full) == labels.len() {
        Some(Run { before, behind })
    } else {
        None
    }
}
