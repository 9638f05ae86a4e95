// Sessions about polynomial constraints.
ghost use Rattle.std.specs.Prelude.{◌≤◌};
ghost use Rattle.zk_model.specs.Files.{AreParams};

use crate::dialogue::{Held, hold};
use crate::given::{DIRECT, EXTENDED, digest_of};
use mersenne_field::Fe;
use poly_model::MAX_VARIABLES;
use poly_session::PolyWitness;
use poly_text::read;
use std::alloc::{AllocError, Global};
use std::test::Fail;
use std::thread::Threads;
use zk_model::Params;

/// The constraints that each of so many values is the square of the one before, and 3 more.
fn squares_text(alloc: Global, count: u32) -> Result<String, AllocError> {
    let mut text = format!(in alloc; "{count} {}\n", count.saturating_sub(1))?;
    for next in 1..count {
        let i = next - 1;
        let line = format!(in alloc; "3 1 2 {i} {i} 2305843009213693950 1 {next} 3 0\n")?;
        text.push_str(&line)?;
    }
    Ok(text)
}

/// Values that meet them, from this one on.
fn squares(alloc: Global, first: u64, count: u32) -> Result<Vec<Fe>, AllocError> {
    let mut values = Vec::new(alloc);
    let mut value = Fe::from_word(first);
    for _ in 0..count {
        values.push(value)?;
        value = value * value + Fe::from_word(3);
    }
    Ok(values)
}

/// A session about so many values, with these.
fn held<R: Threads + Sync>(
    rt: &R,
    alloc: Global,
    params: &Params,
    count: u32,
    values: &[Fe],
) -> Result<Held, Fail>
    requires { AreParams params.now }
{
    let text = squares_text(alloc, count)?;
    let Ok(polys) = read(alloc, text.as_bytes()) else {
        return Err(Fail::new("no constraints"));
    };
    if polys.variables() > MAX_VARIABLES || values.len() != polys.variables() as usize {
        return Err(Fail::new("another number of values"));
    }
    let witness = PolyWitness::new(&polys, digest_of(text.as_bytes()), values);
    hold(rt, alloc, &witness, params, 64)
}

/// Values that meet thousands of constraints are accepted, over dealt correlations and over extended ones.
#[test]
fn values_that_meet_all_are_accepted(rt: HostRuntime) -> Result<(), Fail> {
    let alloc: Global = rt.alloc();
    let values = squares(alloc, 5, 3000)?;
    assert!(rt; held(&rt, alloc, &DIRECT, 3000, &values)? == Held::both(0, 0));
    let values = squares(alloc, 2, 40)?;
    assert!(rt; held(&rt, alloc, &EXTENDED, 40, &values)? == Held::both(0, 0));
    Ok(())
}

/// One value that is another is found.
#[test]
fn a_value_that_misses_one_is_rejected(rt: HostRuntime) -> Result<(), Fail> {
    let alloc: Global = rt.alloc();
    let mut values = squares(alloc, 5, 3000)?;
    if let Some(value) = values.get_mut(1700) {
        *value = *value + Fe::ONE;
    }
    assert!(rt; held(&rt, alloc, &DIRECT, 3000, &values)? == Held::both(1, 0));
    Ok(())
}
