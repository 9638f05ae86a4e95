// What a session is to prove.
ghost use Rattle.std.specs.Prelude.{◌≡◌, ◌++◌, length, map, flat_map, All, IfOk, OnOk};
ghost use Rattle.zk_model.specs.Bytes.{element_bytes};
ghost use Rattle.zk_model.specs.Field.{IsElement};
ghost use Rattle.zk_model.specs.Bits.{digits_of, from_bit};
ghost use Rattle.session_core.specs.Cores.{digests_of};
ghost use Rattle.session_core.specs.Jobs.{statement_of};
ghost use Rattle.zk_model.specs.Slots.{IsPlanOf};
ghost use Rattle.zk_model.specs.Statement.{IsStatement};
ghost use Rattle.zk_model.specs.Audit.{hello_place};
ghost use Rattle.proof_frames.specs.Readings.{IsShortPlace};
ghost use Rattle.zk_model.specs.Transcript.{wanted_hello, digest_sent, version_of};
ghost use Rattle.sha2.specs.Sha256.{sha256};

use crate::fault::Digests;
use field_program::{FieldProgram, SlotPlan};
use mersenne_field::Fe;
use proof_frames::Hello;
use sha2::{Digest, Sha256};
use std::alloc::{AllocError, Global};
use std::marker::Model;
use zk_model::{Expect, StatementKind};

/// What a session is to prove: its kind; a program, the values of its public wires and the claimed values of the wires that it opens;
/// and the digests by which its hello names them. With it goes a plan of the program, along which both ends walk.
#[derive(Debug, Drop)]
pub struct Statement<'a> {
    kind: StatementKind,
    program: &'a FieldProgram,
    plan: &'a SlotPlan,
    public: &'a [Fe],
    claims: &'a [Fe],
    circuit: [u8; 32],
    outputs: [u8; 32],
    public_digest: [u8; 32],
}

impl<'a> Model for Statement<'a> {
    ghost use Rattle.zk_model.specs.Slots.{IsPlanOf};
    ghost use Rattle.zk_model.specs.Statement.{IsStatement};
    ghost use Rattle.zk_model.specs.Statement as model;
    ghost use Rattle.session_core.specs.Jobs.{statement_of};

    ghost Value = { model.Statement };

    ghost view = { λ s.
        statement_of s.kind s.program.now s.public.now s.claims.now s.circuit s.outputs s.public_digest };

    ghost invariant = { λ s. IsPlanOf s.program.now s.plan.now × IsStatement
        (statement_of s.kind s.program.now s.public.now s.claims.now s.circuit s.outputs s.public_digest) };
}

impl<'a> Statement<'a> {
    /// A statement of these parts: a kind, a program and a plan of it, as many public values and claims as the program has public and
    /// opened wires, and the digests of the circuit, of the claims and of the public values: of the empty text, where there are none, as in
    /// a statement about an arithmetic circuit.
    pub fn new(
        kind: StatementKind,
        program: &'a FieldProgram,
        plan: &'a SlotPlan,
        public: &'a [Fe],
        claims: &'a [Fe],
        circuit: [u8; 32],
        outputs: [u8; 32],
        public_digest: [u8; 32],
    ) -> Self
        requires plan { IsPlanOf program.now plan.now }
        requires stated { IsStatement
            (statement_of kind program.now public.now claims.now circuit outputs public_digest) }
        ensures { result
            ≡ statement_of kind program.now public.now claims.now circuit outputs public_digest }
    {
        Statement {
            kind,
            program,
            plan,
            public,
            claims,
            circuit,
            outputs,
            public_digest,
        }
    }

    /// Its kind.
    pub fn kind(&self) -> StatementKind
        ensures kind { result ≡ self.now.kind }
        ensures stated { IsStatement self.now }
    {
        self.kind
    }

    /// The place of a hello about it: about a Boolean circuit it may be of either form.
    pub fn hello_place(&self) -> Expect
        ensures place { result ≡ hello_place self.now.kind }
        ensures short { IsShortPlace result }
    {
        match self.kind {
            StatementKind::Boolean => Expect::Hello,
            StatementKind::Arithmetic => Expect::ShortHello,
        }
    }

    /// The program.
    pub fn program(&self) -> &'a FieldProgram
        ensures program { result.now ≡ self.now.program }
        ensures stated { IsStatement self.now }
    {
        self.program
    }

    /// The plan of its program.
    pub fn plan(&self) -> &'a SlotPlan
        ensures plan { IsPlanOf self.now.program result.now }
    {
        self.plan
    }

    /// The values of its public wires.
    pub fn public(&self) -> &'a [Fe]
        ensures public { result.now ≡ self.now.public }
        ensures stated { IsStatement self.now }
    {
        self.public
    }

    /// The claimed values of the wires that it opens.
    pub fn claims(&self) -> &'a [Fe]
        ensures claims { result.now ≡ self.now.claims }
        ensures stated { IsStatement self.now }
    {
        self.claims
    }

    /// The digests by which a hello names it.
    pub fn digests(&self) -> Digests
        ensures { result ≡ digests_of self.now }
    {
        Digests {
            circuit: self.circuit,
            outputs: self.outputs,
            public: self.public_digest,
        }
    }

    /// The digest of the public values that a prover sends: none where there are none.
    fn digest_sent(&self) -> Option<[u8; 32]>
        ensures { result ≡ digest_sent self.now.public self.now.public_digest }
    {
        match self.public {
            [] => None,
            [_, ..] => Some(self.public_digest),
        }
    }

    /// The hello that a prover sends for the files of this id and the statement.
    pub fn hello(&self, id: [u8; 32]) -> Hello
        ensures { result ≡ wanted_hello id self.now }
    {
        let public = self.digest_sent();
        Hello {
            id,
            circuit: self.circuit,
            outputs: self.outputs,
            version: version_of(self.kind, public),
            public,
        }
    }
}

/// The version of a hello about a statement of this kind: 1 without a digest of public bits, 2 with one; 4 about an arithmetic circuit.
pub(crate) fn version_of(kind: StatementKind, public: Option<[u8; 32]>) -> u8
    ensures { result ≡ version_of kind public }
{
    match (kind, public) {
        (StatementKind::Boolean, None) => 1,
        (StatementKind::Boolean, Some(_)) => 2,
        (StatementKind::Arithmetic, _) => 4,
    }
}

/// Bits as elements.
pub fn elements_of(alloc: Global, bits: &[bool]) -> Result<Vec<Fe>, AllocError>
    ensures { IfOk result (λ elements. elements.items ≡ map from_bit bits.now) }
{
    bits.iter().map(|bit| Fe::from_bit(*bit)).collect(alloc)
}

/// The digest of bits, written 0 and 1.
pub fn bits_digest(alloc: Global, bits: &[bool]) -> Result<[u8; 32], AllocError>
    ensures { IfOk result (λ digest. digest ≡ sha256 (digits_of bits.now)) }
{
    let digits: Vec<u8> = bits
        .iter()
        .map(|bit| if *bit { b'1' } else { b'0' })
        .collect(alloc)?;
    Ok(Sha256::digest(&digits))
}

/// Appends elements, 8 bytes each.
fn push_elements(bytes: &mut Vec<u8>, elements: &[Fe]) -> Result<(), AllocError>
    ensures bytes { OnOk result (bytes.new.items ≡ bytes.old.items ++ flat_map element_bytes elements.now) }
    ensures range { OnOk result (All IsElement elements.now) }
{
    for element in elements {
        bytes.extend_from_slice(&element.to_le())?;
    }
    Ok(())
}

/// The digest of elements, 8 bytes each.
pub fn elements_digest(alloc: Global, elements: &[Fe]) -> Result<[u8; 32], AllocError>
    ensures digest { IfOk result (λ digest. digest ≡ sha256 (flat_map element_bytes elements.now)) }
    ensures range { OnOk result (All IsElement elements.now) }
{
    let mut bytes = Vec::new(alloc);
    push_elements(&mut bytes, elements)?;
    Ok(Sha256::digest(&bytes))
}
