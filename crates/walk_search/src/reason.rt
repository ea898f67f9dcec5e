// The reason for which two pairs are joined.
ghost use Rattle.std.specs.Prelude.{◌≡◌, ◌≢◌, ◌⊎◌, ◌↔◌, MatchOption, IsTrue};
ghost use Rattle.row_model.specs.Graph.{Joined};
ghost use Rattle.walk_search.specs.Reasons.{IsFirstReason};

use row_model::{Matrix, Pair, Why, joined_by};

/// A reason for which the incompatibility graph of the matrix joins the two pairs: `Flip` where it joins them, else the
/// least row that does. `None` where nothing joins them.
pub fn joined(m: &Matrix, v: Pair, w: Pair) -> Option<Why>
    ensures { MatchOption result (¬ Joined m.now.columns m.now.rows v w) (IsFirstReason m.now.columns m.now.rows v w) }
{
    if joined_by(m, v, w, Why::Flip) {
        return Some(Why::Flip);
    }
    if !share_a_column(v, w) {
        return None;
    }
    for row in 0..m.rows() {
        let why = Why::Row(row + 1);
        if joined_by(m, v, w, why) {
            return Some(why);
        }
    }
    None
}

// Whether one pair is (a,b) and the other is (b,d), with a and d distinct. No row joins other pairs.
fn share_a_column(v: Pair, w: Pair) -> bool
    ensures { IsTrue result ↔ (((v.b ≡ w.a) × (v.a ≢ w.b)) ⊎ ((w.b ≡ v.a) × (w.a ≢ v.b))) }
{
    v.b == w.a && v.a != w.b || w.b == v.a && w.a != v.b
}
