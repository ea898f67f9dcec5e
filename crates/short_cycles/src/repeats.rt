// Closed walks that are folded.
ghost use Rattle.std.specs.Prelude.{◌≤◌, length};

use odd_cycle::{lesser_first, sorted_columns, turned_if};
use row_model::{Line, NoMemory, Pair, Why};
use std::alloc::Global;

/// Of a closed walk of odd length a short one, as [`short_cycle`](odd_cycle::short_cycle) folds it: a flip is left out
/// by turning what is behind it, and the walk is cut where two columns come again. No table of each pair of columns is
/// kept.
pub fn without_repeats(alloc: Global, lines: &[Line]) -> Result<Vec<Line>, NoMemory> {
    let columns = sorted_columns(alloc, lines)?;
    let mut places = vec![in alloc; 0; columns.len()]?;
    let mut path: Vec<Line> = Vec::new(alloc);
    let mut turned = false;
    for line in lines {
        let v = turned_if(line.pair, turned);
        if line.why == Why::Flip {
            turned = !turned;
        } else if let Ok(number) = columns.binary_search(&lesser_first(v))
            && number < places.len()
        {
            let (keep, back) = place_on(&path, places[number], v);
            if ((path.len() - keep) % 2 == 1) != back {
                let part = path.split_off(keep)?;
                return closed(part, v, back);
            }
            turned = turned != back;
            path.truncate(keep);
            places[number] = path.len();
            path.push(Line {
                pair: turned_if(v, back),
                ..*line
            })?;
        }
    }
    let end = match lines.first() {
        Some(line) => turned_if(line.pair, turned),
        None => return Ok(path),
    };
    closed(path, end, turned)
}

// Where on the path the two columns of the pair stand, and whether turned: at this place or nowhere. Then it is the end of
// the path, not turned.
fn place_on(path: &[Line], place: usize, v: Pair) -> (usize, bool)
    ensures { result.0 ≤ length path.now }
{
    match path.get(place) {
        Some(line) if lesser_first(line.pair) == lesser_first(v) => (place, line.pair != v),
        _ => (path.len(), false),
    }
}

// The path, with a flip from its end where that is its first pair turned.
fn closed(mut path: Vec<Line>, end: Pair, turned: bool) -> Result<Vec<Line>, NoMemory> {
    if turned {
        path.push(Line {
            pair: end,
            why: Why::Flip,
        })?;
    }
    Ok(path)
}
