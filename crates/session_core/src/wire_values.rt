// What makes a program's given values, where it is known.
ghost use Rattle.std.specs.Prelude.{◌≡◌, ◌≤◌, length, IfOk, All};
ghost use Rattle.zk_model.specs.Field.{IsElement};
ghost use Rattle.zk_model.specs.HonestProver.{honest_corrections};
ghost use Rattle.session_core.specs.Jobs.{AreFor, given_by};

use field_program::FieldProgram;
use mersenne_field::{Fe, Pair};
use std::alloc::{AllocError, Global};
use wire_auth::{bit_corrections, given_corrections};

/// What makes the given values of a program: the bits of all wires, wire by wire, where a circuit is Boolean, or the given values themselves.
#[derive(Debug, Drop)]
pub enum WireValues {
    Bits(Vec<bool>),
    Given(Vec<Fe>),
}

/// The corrections that turn dealt pairs into those of the given values that these make.
pub(crate) fn known_corrections(
    alloc: Global,
    program: &FieldProgram,
    values: &WireValues,
    dealt: &[Pair],
) -> Result<Vec<Fe>, AllocError>
    requires values { AreFor program.now values.now }
    requires dealt { program.now.givens ≤ length dealt.now }
    ensures corrections { IfOk result (λ v. v.items
        ≡ honest_corrections (given_by program.now values.now) dealt.now) }
    ensures one_each { IfOk result (λ v. length v.items ≡ length (given_by program.now values.now)) }
    ensures elements { IfOk result (λ _. All IsElement (given_by program.now values.now)) }
{
    let _givens = program.givens();
    match values {
        WireValues::Bits(bits) => bit_corrections(alloc, program, bits, dealt),
        WireValues::Given(given) => {
            let copied = given.to_vec(alloc)?;
            Ok(given_corrections(copied, dealt))
        }
    }
}

/// The same, in the places of given values, which are given up.
pub(crate) fn taken_corrections(
    alloc: Global,
    program: &FieldProgram,
    values: WireValues,
    dealt: &[Pair],
) -> Result<Vec<Fe>, AllocError>
    requires values { AreFor program.now values }
    requires dealt { program.now.givens ≤ length dealt.now }
    ensures corrections { IfOk result (λ v. v.items
        ≡ honest_corrections (given_by program.now values) dealt.now) }
    ensures one_each { IfOk result (λ v. length v.items ≡ length (given_by program.now values)) }
    ensures elements { IfOk result (λ _. All IsElement (given_by program.now values)) }
{
    let _givens = program.givens();
    match values {
        WireValues::Bits(bits) => bit_corrections(alloc, program, &bits, dealt),
        WireValues::Given(given) => Ok(given_corrections(given, dealt)),
    }
}
