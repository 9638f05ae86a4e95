// Texts with each fault, and texts of thousands of terms.
use super::*;
use mersenne_field::Fe;
use poly_model::Polys;
use std::alloc::Global;
use std::test::Fail;

/// Texts, and the first fault of each.
const FAULTS: &[(&'static [u8], PolyFault)] = &[
    (b"", PolyFault::ShortText { token: 0 }),
    (b"1 1 2 1 2 0", PolyFault::ShortText { token: 6 }),
    (b"1 -1", PolyFault::BadNumber { token: 1 }),
    (b"1 1 1 0x1 9", PolyFault::BadNumber { token: 3 }),
    (b"65537 x", PolyFault::TooLarge { token: 0 }),
    (b"65536 65537 x", PolyFault::TooLarge { token: 1 }),
    (b"65536 65536 4097 x", PolyFault::TooLarge { token: 2 }),
    (
        b"1 1 1 2305843009213693951 9",
        PolyFault::TooLarge { token: 3 },
    ),
    (
        b"1 1 1 2305843009213693950 9 1",
        PolyFault::TooLarge { token: 4 },
    ),
    (
        b"1 1 1 18446744073709551617 0",
        PolyFault::TooLarge { token: 3 },
    ),
    (b"2 1 1 7 2 2 x", PolyFault::VarRange { token: 5 }),
    (b"1 1 1 0 0 0 0", PolyFault::ExtraText { token: 5 }),
];

/// How many constraints a chain has.
const LINKS: u32 = 2000;

#[test]
fn first_faults(rt: HostRuntime) {
    for (text, fault) in FAULTS {
        let error = read(rt.alloc(), text).err();
        assert!(rt; error == Some(ReadError::Fault(*fault)), "{fault}");
    }
}

/// The text of a chain: each value is the square of the one before and its number more.
fn chain_text(alloc: Global) -> Result<String, Fail> {
    let mut text = format!(in alloc; "{} {LINKS}\n", LINKS + 1)?;
    for i in 0..LINKS {
        let line = format!(in alloc;
            "3  1 2 {i} {i}\t{i} 0  2305843009213693950 1 {}\r\n",
            i + 1
        )?;
        text.push_str(&line)?;
    }
    Ok(text)
}

/// The values of a chain whose first is 3. The one of this number is 1 more than it should be.
fn chain_values(alloc: Global, wrong: Option<u32>) -> Result<Vec<Fe>, Fail> {
    let mut values = Vec::new(alloc);
    let mut value = Fe::from_word(3);
    for i in 0..LINKS {
        values.push(value)?;
        value = value * value + Fe::from_word(u64::from(i));
        if wrong == Some(i + 1) {
            value = value + Fe::ONE;
        }
    }
    values.push(value)?;
    Ok(values)
}

/// What is read of a text.
fn polys_of(alloc: Global, text: &str) -> Result<Polys, Fail> {
    match read(alloc, text.as_bytes()) {
        Ok(polys) => Ok(polys),
        Err(_) => Err(Fail::new("a text is refused")),
    }
}

#[test]
fn chain_is_met(rt: HostRuntime) -> Result<(), Fail> {
    let text = chain_text(rt.alloc())?;
    let polys = polys_of(rt.alloc(), &text)?;
    assert!(rt; polys.degree() == 2 && polys.variables() == LINKS + 1);
    let met = chain_values(rt.alloc(), None)?;
    assert!(rt; holds(&polys, &met) == None);
    let unmet = chain_values(rt.alloc(), Some(1500))?;
    assert!(rt; holds(&polys, &unmet) == Some(1499));
    Ok(())
}

/// The text of one constraint of 4,096 terms: 4,095 times the eighth power of the one value, less 4,095.
fn power_text(alloc: Global) -> Result<String, Fail> {
    let mut text = "1 1 4096".to_string(alloc)?;
    for _ in 0..4095 {
        text.push_str(" 1 8 0 0 0 0 0 0 0 0")?;
    }
    text.push_str(" 2305843009213689856 0")?;
    Ok(text)
}

#[test]
fn longest_constraint_is_met(rt: HostRuntime) -> Result<(), Fail> {
    let text = power_text(rt.alloc())?;
    let polys = polys_of(rt.alloc(), &text)?;
    assert!(rt; polys.degree() == 8);
    assert!(rt; holds(&polys, &[Fe::ONE]) == None);
    assert!(rt; holds(&polys, &[Fe::from_word(2)]) == Some(0));
    Ok(())
}
