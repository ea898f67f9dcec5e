// Unit models of the path of four vertices, worked by hand.
ghost use Rattle.std.specs.Prelude.{◌≡◌, length};

use super::small::chain;
use row_model::NoMemory;
use std::alloc::Global;
use unit_model::UnitText;
use verdict_check::{UnitChecked, check_unit};

// What is said of intervals of length 4 with these left ends.
fn judged(alloc: Global, vertices: u32, lefts: &[u64]) -> Result<UnitChecked, NoMemory>
    requires { length lefts.now ≡ vertices }
{
    let text = UnitText::new(vertices, 4, lefts.to_vec(alloc)?);
    Ok(check_unit(&chain(alloc)?, &text))
}

#[test]
fn a_unit_model_is_judged(rt: HostRuntime) -> Result<(), NoMemory> {
    let said = [
        judged(rt.alloc(), 4, &[3, 6, 9, 13])?,
        judged(rt.alloc(), 4, &[3, 6, 9, 14])?,
        judged(rt.alloc(), 3, &[3, 6, 9])?,
    ];
    let wanted = [
        UnitChecked::Valid,
        UnitChecked::Model,
        UnitChecked::Vertices,
    ];
    assert_eq!(rt; said, wanted);
    Ok(())
}
