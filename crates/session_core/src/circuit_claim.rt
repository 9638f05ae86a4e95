// The claim that some inputs make a circuit give outputs.
ghost use Rattle.std.specs.Prelude.{◌≡◌, ◌≤◌, ◌++◌, ◌-◌, length, replicate, IfOk};
ghost use Rattle.zk_model.specs.Bytes.{AreBytes};
ghost use Rattle.zk_model.specs.Statement.{arith_statement, circuit_statement};
ghost use Rattle.session_core.specs.Jobs.{ElementsProve, InputBitsProve};

use crate::statement::{Statement, bits_digest, elements_digest, elements_of};
use arith_laws::arith_is_statement;
use arith_reader::Arith;
use bristol_reader::Circuit;
use circuit_laws::circuit_is_statement;
use field_program::{FieldProgram, SlotPlan};
use gate_translate::{translate_arith, translate_public};
use mersenne_field::Fe;
use std::alloc::{AllocError, Global};
use std::marker::Model;
use wire_auth::bits_make_products;
use zk_model::StatementKind;

/// What the opened wires of an arithmetic circuit are claimed to have, so many in all: the outputs, and 0 where it is asserted.
fn claimed_values(alloc: Global, outputs: &[Fe], opened: usize) -> Result<Vec<Fe>, AllocError>
    requires { length outputs.now ≤ opened }
    ensures { IfOk result (λ claims.
        claims.items ≡ outputs.now ++ replicate (opened - length outputs.now) 0) }
{
    let mut claims = outputs.to_vec(alloc)?;
    claims.resize(opened, Fe::ZERO)?;
    Ok(claims)
}

/// The claim that with some public input bits some private ones make a Boolean circuit give these output bits, or that some elements make an
/// arithmetic circuit give these output elements and meet its assertions: its program with a plan, and what a hello says of it. Contracts
/// see the statement.
#[derive(Debug, Drop)]
pub struct CircuitClaim {
    kind: StatementKind,
    program: FieldProgram,
    plan: SlotPlan,
    public: Vec<Fe>,
    claims: Vec<Fe>,
    circuit: [u8; 32],
    outputs: [u8; 32],
    public_digest: [u8; 32],
}

impl Model for CircuitClaim {
    ghost use Rattle.zk_model.specs.Slots.{IsPlanOf};
    ghost use Rattle.zk_model.specs.Statement.{IsStatement};
    ghost use Rattle.zk_model.specs.Statement as model;
    ghost use Rattle.session_core.specs.Jobs.{statement_of};

    ghost Value = { model.Statement };

    ghost view = { λ c.
        statement_of c.kind c.program c.public.items c.claims.items c.circuit c.outputs c.public_digest };

    ghost invariant = { λ c. IsPlanOf c.program c.plan × IsStatement
        (statement_of c.kind c.program c.public.items c.claims.items c.circuit c.outputs c.public_digest) };
}

impl CircuitClaim {
    /// The claim that the circuit, of whose text this is the digest, gives these outputs, as many as it has, with these
    /// public bits for its first inputs. The circuit's gates become the program's steps.
    pub fn new(
        alloc: Global,
        circuit: Circuit,
        digest: [u8; 32],
        public: &[bool],
        outputs: &[bool],
    ) -> Result<Self, AllocError>
        requires digest { AreBytes 32 digest }
        requires public { length public.now ≤ circuit.inputs }
        requires outputs { length outputs.now ≡ circuit.outputs }
        ensures { IfOk result (λ claim.
            claim ≡ circuit_statement circuit digest public.now outputs.now) }
    {
        circuit_is_statement();
        let _wires = circuit.wires();
        let _inputs = circuit.inputs();
        let program = translate_public(alloc, circuit, public.len() as u32)?;
        let plan = SlotPlan::of(alloc, &program)?;
        let values = elements_of(alloc, public)?;
        let claims = elements_of(alloc, outputs)?;
        let claimed = bits_digest(alloc, outputs)?;
        let named = bits_digest(alloc, public)?;
        Ok(CircuitClaim {
            kind: StatementKind::Boolean,
            program,
            plan,
            public: values,
            claims,
            circuit: digest,
            outputs: claimed,
            public_digest: named,
        })
    }

    /// The claim that the arithmetic circuit, of whose text this is the digest, gives these outputs, as many as it has, and meets its
    /// assertions. The circuit's gates become the program's steps.
    pub fn of_arith(
        alloc: Global,
        circuit: Arith,
        digest: [u8; 32],
        outputs: &[Fe],
    ) -> Result<Self, AllocError>
        requires digest { AreBytes 32 digest }
        requires outputs { length outputs.now ≡ circuit.outputs }
        ensures { IfOk result (λ claim. claim ≡ arith_statement circuit digest outputs.now) }
    {
        arith_is_statement();
        let _wires = circuit.wires();
        let program = translate_arith(alloc, circuit)?;
        let plan = SlotPlan::of(alloc, &program)?;
        let claims = claimed_values(alloc, outputs, program.opened().len())?;
        let claimed = elements_digest(alloc, outputs)?;
        let named = bits_digest(alloc, &[])?;
        Ok(CircuitClaim {
            kind: StatementKind::Arithmetic,
            program,
            plan,
            public: Vec::new(alloc),
            claims,
            circuit: digest,
            outputs: claimed,
            public_digest: named,
        })
    }

    /// The statement.
    pub fn statement(&self) -> Statement<'_>
        ensures { result ≡ self.now }
    {
        Statement::new(
            self.kind,
            &self.program,
            &self.plan,
            &self.public,
            &self.claims,
            self.circuit,
            self.outputs,
            self.public_digest,
        )
    }
}

/// A prover of a claim about a circuit whose private inputs are bits has for given values the products of the bits that the circuit
/// has on all its wires then. It does nothing.
pub fn input_bits_prove()
    ensures { InputBitsProve }
{
    bits_make_products();
}

/// The elements that an arithmetic circuit computes on all wires make the given values that its inputs make. It does nothing.
pub fn computed_elements_prove()
    ensures { ElementsProve }
{}
