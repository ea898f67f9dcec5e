// Ways that end at one pair, and the odd circle that some of them close with a row.
ghost use Rattle.std.specs.Prelude.{◌≡◌, ◌+◌, ◌<◌, ◌≤◌, length, IfOk, IfSome};

use crate::sample::Sample;
use crate::ways::{Front, end_of};
use row_model::{NoMemory, Pair};
use std::alloc::Global;
use step_count::{Ledger, Steps};

/// The most pivots of a sample.
const MOST_PIVOTS: usize = 32;

/// Two pairs from which the ways end at one pair.
#[derive(Clone, Copy)]
pub struct Link {
    /// The one pair.
    pub one: Pair,
    /// The other.
    pub other: Pair,
}

// Where the way from a column that the row has and a pivot, a column that it lacks, begins and ends.
#[derive(Clone, Copy)]
struct Course {
    pivot: u32,
    begin: Pair,
    end: Pair,
    turned: bool,
}

// A pivot that is reached from another by a link.
#[derive(Clone, Copy)]
struct Reached {
    pivot: u32,
    odd: bool,
    parent: usize,
    link: Link,
}

// A link between two pivots that are reached, by which an odd circle closes.
#[derive(Clone, Copy)]
struct OddLink {
    link: Link,
    one: usize,
    other: usize,
}

/// Links that close an odd circle by way of the row, each with the pivot first at which the one before it ends, or none
/// where the sample shows no such circle.
///
/// All pairs of a pivot with columns of the row are an even number of steps from each other by the row alone, and so
/// are the pairs of a link. The pairs of a way are written with the column first that stands first in the order, so a
/// link may join a pair with its pivot first to one with its pivot second. A circle is odd where an odd number of its
/// links do.
///
/// # Errors
///
/// `NoMemory`.
pub fn odd_links<L: Ledger>(
    alloc: Global,
    front: &Front,
    sample: &Sample,
    left: &mut u64,
    steps: &mut Steps<L>,
) -> Result<Vec<Link>, NoMemory>
    requires order { length front.now.gaps.now.order ≡ front.now.m.now.columns }
    requires few { (length sample.now.members.items ≤ 32) × (length sample.now.pivots.items ≤ 32) }
    ensures ticks { steps.new + left.new ≡ steps.old + left.old }
    ensures few { IfOk result (λ links. length links.items ≤ 63) }
{
    let mut ways: Vec<Course> = Vec::new(alloc);
    for pivot in &sample.pivots {
        for member in &sample.members {
            let way = way_of(front, *pivot, *member, left, steps);
            match ended_there(&ways, way) {
                None => ways.push(way)?,
                Some(other) => {
                    if other.turned != way.turned {
                        let link = Link {
                            one: other.begin,
                            other: way.begin,
                        };
                        return Ok(vec![in alloc; link]?);
                    }
                }
            }
        }
    }
    odd_circle(alloc, &sample.pivots, &ways)
}

// The way from a pair of a pivot and a member.
fn way_of<L: Ledger>(
    front: &Front,
    pivot: u32,
    member: u32,
    left: &mut u64,
    steps: &mut Steps<L>,
) -> Course
    requires { length front.now.gaps.now.order ≡ front.now.m.now.columns }
    ensures ticks { steps.new + left.new ≡ steps.old + left.old }
{
    let turned = front.position_of(pivot) < front.position_of(member);
    let begin = if turned {
        Pair {
            a: pivot,
            b: member,
        }
    } else {
        Pair {
            a: member,
            b: pivot,
        }
    };
    let end = end_of(front, begin, left, steps);
    Course {
        pivot,
        begin,
        end,
        turned,
    }
}

// The first way of the same pivot that ends at the same pair. By a link of the two an odd circle closes where the one
// has its pivot first and the other second.
fn ended_there(ways: &[Course], way: Course) -> Option<Course>
    requires few { length ways.now ≤ 1024 }
{
    for other in ways {
        if other.pivot == way.pivot && other.end == way.end {
            return Some(*other);
        }
    }
    None
}

// Reaches each pivot from another by links, as far as they go, and gives the links that close an odd circle if there is
// one.
fn odd_circle(alloc: Global, pivots: &[u32], ways: &[Course]) -> Result<Vec<Link>, NoMemory>
    requires few { (length pivots.now ≤ 32) × (length ways.now ≤ 1024) }
    ensures few { IfOk result (λ links. length links.items ≤ 63) }
{
    let mut reached: Vec<Reached> = Vec::new(alloc);
    for head in 0..pivots.len() {
        if head >= reached.len() {
            match first_left(pivots, &reached) {
                None => return Ok(Vec::new(alloc)),
                Some(pivot) => reached.push(root(pivot, head))?,
            }
        }
        if let Some(odd) = spread(ways, head, &mut reached)? {
            return circle_by(alloc, &reached, odd);
        }
    }
    Ok(Vec::new(alloc))
}

// The links from the first pivot of a tree to one that is reached, by a link to another that is reached, and back to
// the first.
fn circle_by(alloc: Global, reached: &[Reached], odd: OddLink) -> Result<Vec<Link>, NoMemory>
    ensures few { IfOk result (λ links. length links.items ≤ odd.one + 1 + odd.other) }
{
    let mut links = path_up(alloc, reached, odd.one)?;
    links.reverse();
    links.push(odd.link)?;
    for link in &path_up(alloc, reached, odd.other)? {
        links.push(Link {
            one: link.other,
            other: link.one,
        })?;
    }
    Ok(links)
}

// The first pivot that is not reached.
fn first_left(pivots: &[u32], reached: &[Reached]) -> Option<u32> {
    for pivot in pivots {
        if place_among(reached, *pivot).is_none() {
            return Some(*pivot);
        }
    }
    None
}

// Where a pivot stands among those that are reached.
fn place_among(reached: &[Reached], pivot: u32) -> Option<usize>
    ensures { IfSome result (λ place. place < length reached.now) }
{
    reached.iter().position(|one| one.pivot == pivot)
}

// Reaches the pivots that links lead to from the one at the place `head`. The answer is a link between two that are
// reached already, if an odd circle closes by it.
fn spread(
    ways: &[Course],
    head: usize,
    reached: &mut Vec<Reached>,
) -> Result<Option<OddLink>, NoMemory>
    requires few { (length ways.now ≤ 1024) × (length reached.old.items ≤ 32) }
    ensures few { length reached.new.items ≤ 32 }
    ensures within { IfOk result (λ odd. IfSome odd (λ link. (link.one < 32) × (link.other < 32))) }
{
    let Some(here) = reached.get(head).copied() else {
        return Ok(None);
    };
    for way in ways {
        if way.pivot != here.pivot {
            continue;
        }
        for other in ways {
            if other.end == way.end {
                let next = Reached {
                    pivot: other.pivot,
                    odd: here.odd != (way.turned != other.turned),
                    parent: head,
                    link: Link {
                        one: way.begin,
                        other: other.begin,
                    },
                };
                let place = place_among(reached, next.pivot);
                if let Some(odd) = reach(reached, next, place)? {
                    return Ok(Some(odd));
                }
            }
        }
    }
    Ok(None)
}

// Adds a pivot that stands at no place among those that are reached, unless these are the most already. The answer is
// the link by which one that stands there is reached, if an odd circle closes by it. No clause says either.
fn reach(
    reached: &mut Vec<Reached>,
    next: Reached,
    place: Option<usize>,
) -> Result<Option<OddLink>, NoMemory>
    requires few { (length reached.old.items ≤ 32) × (next.parent < 32) }
    requires place { IfSome place (λ there. there < length reached.old.items) }
    ensures few { length reached.new.items ≤ 32 }
    ensures within { IfOk result (λ odd. IfSome odd (λ link. (link.one < 32) × (link.other < 32))) }
{
    match place {
        None => {
            if reached.len() < MOST_PIVOTS {
                reached.push(next)?;
            }
            Ok(None)
        }
        Some(there) => {
            if reached[there].odd == next.odd {
                Ok(None)
            } else {
                Ok(Some(OddLink {
                    link: next.link,
                    one: next.parent,
                    other: there,
                }))
            }
        }
    }
}

// The links by which a pivot was reached, from the last to the first.
fn path_up(alloc: Global, reached: &[Reached], from: usize) -> Result<Vec<Link>, NoMemory>
    ensures few { IfOk result (λ links. length links.items ≤ from) }
{
    let mut links = Vec::new(alloc);
    let mut at = from;
    while at < reached.len() && reached[at].parent < at {
        links.push(reached[at].link)?;
        at = reached[at].parent;
    }
    Ok(links)
}

// A pivot that is reached from no other.
fn root(pivot: u32, place: usize) -> Reached {
    let nowhere = Pair { a: 0, b: 0 };
    Reached {
        pivot,
        odd: false,
        parent: place,
        link: Link {
            one: nowhere,
            other: nowhere,
        },
    }
}
