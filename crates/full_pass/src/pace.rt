// On which rows the pass that keeps runs goes on.

use crate::settled::Settled;

// The most passes in vain that count.
const MOST_IN_VAIN: u32 = 4;

// Where a pass that counts leaves a row open, and a Q-node may be full, a pass that keeps runs may still settle the row.
// Where that was in vain again and again, it is left out on some such rows: on 1, 3 and then 7 after each further one.
// No clause rests on this, since a row is reduced alike with such a pass and without one.
#[derive(Clone, Copy)]
pub struct Pace {
    // How many passes in turn were in vain, up to the most that count.
    in_vain: u32,
    // On how many of the next rows the pass is left out.
    left_out: u32,
}

impl Pace {
    // The pass goes on at the next row.
    pub fn new() -> Self {
        Pace {
            in_vain: 0,
            left_out: 0,
        }
    }

    // Whether the pass goes on at this row.
    pub fn is_next(&mut self) -> bool {
        if self.left_out == 0 {
            return true;
        }
        self.left_out -= 1;
        false
    }

    // What the pass found of its row.
    pub fn note(&mut self, found: Settled) {
        match found {
            Settled::Open => self.was_in_vain(),
            Settled::Kept | Settled::Group(_) | Settled::Beside(_) | Settled::Between(_, _) => {
                self.in_vain = 0
            }
        }
    }

    // A pass was in vain.
    fn was_in_vain(&mut self) {
        if self.in_vain < MOST_IN_VAIN {
            self.in_vain += 1;
        }
        self.left_out = match self.in_vain {
            0 | 1 => 0,
            2 => 1,
            3 => 3,
            _ => 7,
        };
    }
}
