// Verdicts that are printed from values and read back.
ghost use Rattle.std.specs.Prelude.{◌≤◌};

use pq_tree::PqTree;
use row_model::{
    COLUMN_BOUND, Interval, Intervals, Kind, Line, Lines, NoMemory, Pair, Place, Places, Span,
    Spans, Why,
};
use std::alloc::Global;
use std::process::Abort;
use verdict_text::{Columns, NoPart, Part, Verdict, Version, YesPart, parse, print};

const PATH: &[u8] =
    b"pq-verdict 1\nkind proper\ncolumns 4\nanswer yes\ntree [1 2 3 4]\norder 1 2 3 4\ninterval 1 5 11\ninterval 2 10 17\ninterval 3 15 23\ninterval 4 20 24\nend\n";

const CLONES: &[u8] =
    b"pq-verdict 2\nkind clones\ncolumns 5\nanswer yes\ntree ([1 2 3] 4 5)\norder 1 2 3 4 5\nplaces 4\nplace 1 1 2\nplace 2 2 3\nplace 3 none\nplace 4 4 4\ncontigs 3\ncontig 1 3\ncontig 4 4\ncontig 5 5\nend\n";

const TRIANGLE: &[u8] =
    b"pq-verdict 1\nkind matrix\ncolumns 3\nanswer no\nside 1\ncycle 3\n1 3 row 1\n3 2 row 3\n2 1 row 2\nend\n";

const BOTH_SIDES: &[u8] =
    b"pq-verdict 2\nkind doubly\ncolumns 2 2\nanswer yes\ntree (1 2)\norder 1 2\ntree (1 2)\norder 1 2\nend\n";

// The tree with this text and an order, as those of a side.
fn side(
    rt: &impl Abort,
    alloc: Global,
    text: &[u8],
    c: u32,
    order: &[u32],
) -> Result<(PqTree, Vec<u32>), NoMemory>
    requires { (1 ≤ c) × (c ≤ COLUMN_BOUND) }
{
    let order = order.to_vec(alloc)?;
    let tree = PqTree::parse(alloc, text, c)?.expect(rt, "a tree");
    Ok((tree, order))
}

fn printed(alloc: Global, v: &Verdict) -> Result<Vec<u8>, NoMemory> {
    let mut text = Vec::new(alloc);
    print(v, &mut text)?;
    Ok(text)
}

fn assert_prints(rt: &impl Abort, alloc: Global, v: &Verdict, text: &[u8]) -> Result<(), NoMemory> {
    let printed = printed(alloc, v)?;
    assert_eq!(rt; printed.as_slice(), text);
    Ok(())
}

// Asserts that a text is read, and printed as it was.
fn assert_read(rt: &impl Abort, alloc: Global, text: &[u8]) -> Result<(), NoMemory> {
    let v = parse(alloc, text)?.expect(rt, "a verdict");
    assert_prints(rt, alloc, &v, text)
}

// Asserts that a verdict is printed as this text, which is read and printed as it was.
fn assert_printed(
    rt: &impl Abort,
    alloc: Global,
    v: &Verdict,
    text: &[u8],
) -> Result<(), NoMemory> {
    assert_prints(rt, alloc, v, text)?;
    assert_read(rt, alloc, text)
}

fn intervals(alloc: Global) -> Result<Intervals, NoMemory> {
    let intervals = vec![in alloc;
        Interval { left: 5, right: 11 },
        Interval {
            left: 10,
            right: 17
        },
        Interval {
            left: 15,
            right: 23
        },
        Interval {
            left: 20,
            right: 24
        },
    ]?;
    Ok(Intervals::from_vec(intervals))
}

fn path_part(rt: &impl Abort, alloc: Global) -> Result<YesPart, NoMemory> {
    let intervals = intervals(alloc)?;
    let (tree, order) = side(rt, alloc, b"[1 2 3 4]", 4, &[1, 2, 3, 4])?;
    let (places, contigs) = (Places::new(alloc), Spans::new(alloc));
    Ok(YesPart::one(tree, order, intervals, places, contigs))
}

#[test]
fn intervals_of_a_path(rt: HostRuntime) -> Result<(), NoMemory> {
    let alloc = rt.alloc();
    let v = Verdict {
        version: Version::One,
        kind: Kind::Proper,
        columns: Columns::One(4),
        part: Part::Yes(path_part(&rt, alloc)?),
    };
    assert_printed(&rt, alloc, &v, PATH)
}

fn places_and_contigs(alloc: Global) -> Result<(Places, Spans), NoMemory> {
    let places = vec![in alloc;
        Place::At { first: 1, last: 2 },
        Place::At { first: 2, last: 3 },
        Place::Nowhere,
        Place::At { first: 4, last: 4 },
    ]?;
    let contigs = vec![in alloc;
        Span { first: 1, last: 3 },
        Span { first: 4, last: 4 },
        Span { first: 5, last: 5 },
    ]?;
    Ok((Places::from_vec(places), Spans::from_vec(contigs)))
}

fn clones_part(rt: &impl Abort, alloc: Global) -> Result<YesPart, NoMemory> {
    let (places, contigs) = places_and_contigs(alloc)?;
    let (tree, order) = side(rt, alloc, b"([1 2 3] 4 5)", 5, &[1, 2, 3, 4, 5])?;
    Ok(YesPart::one(tree, order, Intervals::new(alloc), places, contigs))
}

#[test]
fn places_and_contigs_of_clones(rt: HostRuntime) -> Result<(), NoMemory> {
    let alloc = rt.alloc();
    let v = Verdict {
        version: Version::Two,
        kind: Kind::Clones,
        columns: Columns::One(5),
        part: Part::Yes(clones_part(&rt, alloc)?),
    };
    assert_printed(&rt, alloc, &v, CLONES)
}

fn line(a: u32, b: u32, row: u32) -> Line {
    Line {
        pair: Pair { a, b },
        why: Why::Row(row),
    }
}

#[test]
fn cycle_of_a_triangle(rt: HostRuntime) -> Result<(), NoMemory> {
    let alloc = rt.alloc();
    let lines = vec![in alloc; line(1, 3, 1), line(3, 2, 3), line(2, 1, 2)]?;
    let v = Verdict {
        version: Version::One,
        kind: Kind::Matrix,
        columns: Columns::One(3),
        part: Part::No(NoPart {
            side: 1,
            lines: Lines::from_vec(lines),
        }),
    };
    assert_printed(&rt, alloc, &v, TRIANGLE)
}

// A yes with two sides of two columns, of whose orders none is left out.
fn both_sides(rt: &impl Abort, alloc: Global) -> Result<YesPart, NoMemory> {
    let (first, first_order) = side(rt, alloc, b"(1 2)", 2, &[1, 2])?;
    let (second, second_order) = side(rt, alloc, b"(1 2)", 2, &[1, 2])?;
    Ok(YesPart::two(first, first_order, second, second_order))
}

#[test]
fn two_sides(rt: HostRuntime) -> Result<(), NoMemory> {
    let alloc = rt.alloc();
    let yes = both_sides(&rt, alloc)?;
    assert_eq!(rt; yes.sides(), 2);
    let v = Verdict {
        version: Version::Two,
        kind: Kind::Doubly,
        columns: Columns::Two(2, 2),
        part: Part::Yes(yes),
    };
    assert_printed(&rt, alloc, &v, BOTH_SIDES)
}

#[test]
fn a_cycle_of_side_2(rt: HostRuntime) -> Result<(), NoMemory> {
    let no =
        b"pq-verdict 2\nkind doubly\ncolumns 3 4\nanswer no\nside 2\ncycle 2\n1 3 flip\n3 1 flip\nend\n";
    assert_read(&rt, rt.alloc(), no)
}

// The version of the verdict with this text, if it is one.
fn version_of(alloc: Global, text: &[u8]) -> Result<Option<Version>, NoMemory> {
    match parse(alloc, text)? {
        None => Ok(None),
        Some(v) => Ok(Some(v.version)),
    }
}

fn assert_no_verdict(rt: &impl Abort, alloc: Global, texts: &[&[u8]]) -> Result<(), NoMemory> {
    for text in texts {
        let version = version_of(alloc, text)?;
        assert!(rt; version.is_none(), "{text:?}");
    }
    Ok(())
}

#[test]
fn outside_the_grammar(rt: HostRuntime) -> Result<(), NoMemory> {
    assert_no_verdict(
        &rt,
        rt.alloc(),
        &[
            b"",
            b"pq-verdict 0\nkind matrix\ncolumns 1\nanswer yes\ntree 1\norder 1\nend\n",
            b"pq-verdict 3\nkind matrix\ncolumns 1\nanswer yes\ntree 1\norder 1\nend\n",
            b"pq-verdict 02\nkind matrix\ncolumns 1\nanswer yes\ntree 1\norder 1\nend\n",
            b"pq-verdict 2\r\nkind matrix\r\ncolumns 1\r\nanswer yes\r\ntree 1\r\norder 1\r\nend\r\n",
            b"pq-verdict 1\r\nkind matrix\r\ncolumns 1\r\nanswer yes\r\ntree 1\r\norder 1\r\nend\r\n",
            b"pq-verdict 1\nkind matrix\ncolumns 1\nanswer yes\ntree 1\norder 1\nend\n\n",
            b"pq-verdict 1\nkind matrix\ncolumns 1\nanswer yes\ntree 1\norder 1\nend",
            b"pq-verdict 1\nkind matrix\ncolumns 01\nanswer yes\ntree 1\norder 1\nend\n",
            b"pq-verdict 1\nkind matrix\ncolumns 0\nanswer yes\ntree 1\norder 1\nend\n",
            b"pq-verdict 1\nkind matrix\ncolumns 2049\nanswer no\nside 1\ncycle 0\nend\n",
            b"pq-verdict 1\nkind matrix\ncolumns 1\nanswer yes\ntree 1\norder\nend\n",
            b"pq-verdict 1\nkind matrix\ncolumns 1\nanswer yes\ntree 1\norder 4294967296\nend\n",
            b"pq-verdict 1\nkind proper\ncolumns 1\nanswer yes\ntree 1\norder 1\ninterval 0 0 0\nend\n",
            b"pq-verdict 1\nkind matrix\ncolumns 3\nanswer no\nside 2\ncycle 0\nend\n",
            b"pq-verdict 1\nkind matrix\ncolumns 3\nanswer no\nside 1\ncycle 4294967295\n1 2 flip\nend\n",
        ],
    )
}

// Asserts the version of the verdict with this text, which is read and printed as it was.
fn assert_version(
    rt: &impl Abort,
    alloc: Global,
    text: &[u8],
    version: Version,
) -> Result<(), NoMemory> {
    assert_eq!(rt; version_of(alloc, text)?, Some(version));
    assert_read(rt, alloc, text)
}

#[test]
fn the_first_line_tells_the_version(rt: HostRuntime) -> Result<(), NoMemory> {
    let one = b"pq-verdict 1\nkind matrix\ncolumns 1\nanswer yes\ntree 1\norder 1\nend\n";
    assert_version(&rt, rt.alloc(), one, Version::One)?;
    let two = b"pq-verdict 2\nkind matrix\ncolumns 1\nanswer yes\ntree 1\norder 1\nend\n";
    assert_version(&rt, rt.alloc(), two, Version::Two)
}
