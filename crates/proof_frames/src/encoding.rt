// Frames as bytes.
ghost use Rattle.std.specs.Prelude.{◌≡◌, ◌*◌, ◌+◌, ◌≤◌, ◌++◌, ◌∷◌, [], unwrap_or, length, flat_map, All, IfOk, OnOk};
ghost use Rattle.std.specs.Int.{w32, to_le_bytes};
ghost use Rattle.zk_model.specs.Bytes.{element_bytes};
ghost use Rattle.zk_model.specs.Field.{IsElement};
ghost use Rattle.zk_model.specs.Frames.{frame_spelling};
ghost use Rattle.zk_model.specs.Transcript.{kind_number, frame_bytes, hello_frame, grant_frame, ask_frame, reply_frame, sums_frame, verdict_frame};
ghost use Rattle.zk_model.specs.Messages.{want_frame, block_frame, out_frame};
ghost use Rattle.proof_frames.specs.Frames.{frame_value, ask_bytes, reply_bytes, IsShort, IsRanged};
ghost use Rattle.zk_model.specs.declared.limits.TheConstants.{MAX_PAYLOAD};

use crate::frame::{Frame, Grant, Hello, number_of};
use crate::spelling::{Spelled, push_all};
use mersenne_field::Fe;
use std::alloc::{AllocError, Global};
use tree_messages::{TreeAsk, TreeReply};
use zk_model::{Block, FrameKind, LONG_HELLO_LENGTH, Out, Want};

/// A frame of this kind whose payload will have so many bytes, without the payload.
fn begin(alloc: Global, kind: FrameKind, length: usize) -> Result<Vec<u8>, AllocError>
    requires { length ≤ MAX_PAYLOAD }
    ensures { IfOk result (λ bytes. bytes.items ≡ kind_number kind ∷ to_le_bytes w32 length) }
{
    let mut bytes = Vec::with_capacity(alloc, length + 5)?;
    bytes.push(number_of(kind))?;
    bytes.extend_from_slice(&(length as u32).to_le_bytes())?;
    Ok(bytes)
}

/// A frame of this kind and payload.
fn framed(alloc: Global, kind: FrameKind, payload: &[u8]) -> Result<Vec<u8>, AllocError>
    requires { length payload.now ≤ MAX_PAYLOAD }
    ensures { IfOk result (λ bytes. bytes.items ≡ frame_bytes kind payload.now) }
{
    let mut bytes = begin(alloc, kind, payload.len())?;
    bytes.extend_from_slice(payload)?;
    Ok(bytes)
}

/// A frame of this kind whose payload is values of so many bytes.
fn encode_all<T: Spelled>(
    alloc: Global,
    kind: FrameKind,
    size: usize,
    items: &[T],
) -> Result<Vec<u8>, AllocError>
    requires sized { length (flat_map T.spelling items.now) ≡ size }
    requires short { size ≤ MAX_PAYLOAD }
    ensures bytes { IfOk result (λ bytes. bytes.items
        ≡ frame_bytes kind (flat_map T.spelling items.now)) }
    ensures range { OnOk result (All T.ranged items.now) }
{
    let mut bytes = begin(alloc, kind, size)?;
    push_all(&mut bytes, items)?;
    Ok(bytes)
}

/// A frame of this kind whose payload is trees.
fn encode_trees<T: Spelled>(
    alloc: Global,
    kind: FrameKind,
    trees: &[T],
) -> Result<Vec<u8>, AllocError>
    requires { length (flat_map T.spelling trees.now) ≤ MAX_PAYLOAD }
    ensures bytes { IfOk result (λ bytes. bytes.items
        ≡ frame_bytes kind (flat_map T.spelling trees.now)) }
    ensures range { OnOk result (All T.ranged trees.now) }
{
    let mut payload = Vec::new(alloc);
    push_all(&mut payload, trees)?;
    framed(alloc, kind, &payload)
}

/// Appends a digest, if there is one.
fn push_digest(bytes: &mut Vec<u8>, digest: Option<[u8; 32]>) -> Result<(), AllocError>
    ensures bytes { OnOk result (bytes.new.items ≡ bytes.old.items ++ unwrap_or digest []) }
    ensures most { OnOk result (length bytes.new.items ≤ length bytes.old.items + 32) }
{
    if let Some(digest) = digest {
        bytes.extend_from_slice(&digest)?;
    }
    Ok(())
}

/// The prover's greeting, as it is sent: a payload of 97 bytes, or in the long form of 129.
///
/// # Errors
///
/// Only where memory runs out.
pub fn encode_hello(alloc: Global, hello: &Hello) -> Result<Vec<u8>, AllocError>
    ensures { IfOk result (λ bytes. bytes.items ≡ hello_frame hello.now) }
{
    let mut payload = Vec::with_capacity(alloc, LONG_HELLO_LENGTH)?;
    payload.extend_from_slice(&hello.id)?;
    payload.extend_from_slice(&hello.circuit)?;
    payload.extend_from_slice(&hello.outputs)?;
    payload.push(hello.version)?;
    push_digest(&mut payload, hello.public)?;
    framed(alloc, FrameKind::Hello, &payload)
}

/// A grant, as it is sent: a payload of 16 bytes.
///
/// # Errors
///
/// Only where memory runs out.
pub fn encode_grant(alloc: Global, grant: &Grant) -> Result<Vec<u8>, AllocError>
    ensures { IfOk result (λ bytes. bytes.items ≡ grant_frame grant.now) }
{
    let mut bytes = begin(alloc, FrameKind::Grant, 16)?;
    bytes.extend_from_slice(&grant.start.to_le_bytes())?;
    bytes.extend_from_slice(&grant.count.to_le_bytes())?;
    bytes.extend_from_slice(&grant.section.to_le_bytes())?;
    Ok(bytes)
}

/// What the prover asks for the trees of a unit, as it is sent: for each tree a byte for each flip, and 8 bytes for the
/// correction.
///
/// # Errors
///
/// Only where memory runs out.
pub fn encode_asks(alloc: Global, asks: &[TreeAsk]) -> Result<Vec<u8>, AllocError>
    requires { length (flat_map ask_bytes asks.now) ≤ MAX_PAYLOAD }
    ensures bytes { IfOk result (λ bytes. bytes.items ≡ ask_frame asks.now) }
    ensures range { OnOk result (All (λ ask. IsElement ask.base_correction) asks.now) }
{
    encode_trees(alloc, FrameKind::ExtendAsk, asks)
}

/// What the verifier replies for the trees of a unit, as it is sent: for each tree 32 bytes for the messages of each level,
/// and 8 bytes for the offset.
///
/// # Errors
///
/// Only where memory runs out.
pub fn encode_replies(alloc: Global, replies: &[TreeReply]) -> Result<Vec<u8>, AllocError>
    requires { length (flat_map reply_bytes replies.now) ≤ MAX_PAYLOAD }
    ensures bytes { IfOk result (λ bytes. bytes.items ≡ reply_frame replies.now) }
    ensures range { OnOk result (All (λ reply. IsElement reply.leaf_offset) replies.now) }
{
    encode_trees(alloc, FrameKind::ExtendReply, replies)
}

/// A frame of elements, as it is sent: corrections, a challenge, openings or the sums of constraints, 8 bytes for each element.
///
/// # Errors
///
/// Only where memory runs out.
pub fn encode_elements(
    alloc: Global,
    kind: FrameKind,
    elements: &[Fe],
) -> Result<Vec<u8>, AllocError>
    requires { 8 * length elements.now ≤ MAX_PAYLOAD }
    ensures bytes { IfOk result (λ bytes. bytes.items
        ≡ frame_bytes kind (flat_map element_bytes elements.now)) }
    ensures range { OnOk result (All IsElement elements.now) }
{
    encode_all(alloc, kind, 8 * elements.len(), elements)
}

/// The sums of all sections, as they are sent: U and V, 16 bytes for each section.
///
/// # Errors
///
/// Only where memory runs out.
pub fn encode_sums(alloc: Global, sums: &[(Fe, Fe)]) -> Result<Vec<u8>, AllocError>
    requires { 16 * length sums.now ≤ MAX_PAYLOAD }
    ensures bytes { IfOk result (λ bytes. bytes.items ≡ sums_frame sums.now) }
    ensures range { OnOk result (All (λ both. IsElement both.0 × IsElement both.1) sums.now) }
{
    encode_all(alloc, FrameKind::Sums, 16 * sums.len(), sums)
}

/// A verdict, as it is sent: a payload of 5 bytes.
///
/// # Errors
///
/// Only where memory runs out.
pub fn encode_verdict(alloc: Global, code: u8, number: u32) -> Result<Vec<u8>, AllocError>
    ensures { IfOk result (λ bytes. bytes.items ≡ verdict_frame code number) }
{
    let [n0, n1, n2, n3] = number.to_le_bytes();
    framed(alloc, FrameKind::Verdict, &[code, n0, n1, n2, n3])
}

/// A node's want, as it is sent: a payload of 16 bytes.
fn encode_want(alloc: Global, want: &Want) -> Result<Vec<u8>, AllocError>
    ensures { IfOk result (λ bytes. bytes.items ≡ want_frame want.now) }
{
    let mut bytes = begin(alloc, FrameKind::Want, 16)?;
    bytes.extend_from_slice(&want.node.to_le_bytes())?;
    bytes.extend_from_slice(&want.number.to_le_bytes())?;
    bytes.extend_from_slice(&want.count.to_le_bytes())?;
    Ok(bytes)
}

/// A broker's block, as it is sent: a payload of 24 bytes.
fn encode_block(alloc: Global, block: &Block) -> Result<Vec<u8>, AllocError>
    ensures { IfOk result (λ bytes. bytes.items ≡ block_frame block.now) }
{
    let mut bytes = begin(alloc, FrameKind::Block, 24)?;
    bytes.extend_from_slice(&block.node.to_le_bytes())?;
    bytes.extend_from_slice(&block.number.to_le_bytes())?;
    bytes.extend_from_slice(&block.start.to_le_bytes())?;
    bytes.extend_from_slice(&block.count.to_le_bytes())?;
    Ok(bytes)
}

/// That no units are left, as it is sent: a payload of 20 bytes.
fn encode_out(alloc: Global, out: &Out) -> Result<Vec<u8>, AllocError>
    ensures { IfOk result (λ bytes. bytes.items ≡ out_frame out.now) }
{
    let mut bytes = begin(alloc, FrameKind::Out, 20)?;
    bytes.extend_from_slice(&out.node.to_le_bytes())?;
    bytes.extend_from_slice(&out.number.to_le_bytes())?;
    bytes.extend_from_slice(&out.at.to_le_bytes())?;
    Ok(bytes)
}

/// A frame, as it is sent.
///
/// # Errors
///
/// Only where memory runs out.
pub fn encode(alloc: Global, frame: &Frame) -> Result<Vec<u8>, AllocError>
    requires { IsShort (frame_value frame.now) }
    ensures bytes { IfOk result (λ bytes. bytes.items ≡ frame_spelling (frame_value frame.now)) }
    ensures range { OnOk result (IsRanged (frame_value frame.now)) }
{
    let bytes = match frame {
        Frame::Hello(hello) => encode_hello(alloc, hello)?,
        Frame::Grant(grant) => encode_grant(alloc, grant)?,
        Frame::ExtendAsk(asks) => encode_asks(alloc, asks)?,
        Frame::ExtendReply(replies) => encode_replies(alloc, replies)?,
        Frame::Corrections(elements) => encode_elements(alloc, FrameKind::Corrections, elements)?,
        Frame::Challenge(element) => encode_elements(alloc, FrameKind::Challenge, &[*element])?,
        Frame::Sums(sums) => encode_sums(alloc, sums)?,
        Frame::Openings(macs) => encode_elements(alloc, FrameKind::Openings, macs)?,
        Frame::Verdict { code, number } => encode_verdict(alloc, *code, *number)?,
        Frame::Refuse { code } => framed(alloc, FrameKind::Refuse, &[*code])?,
        Frame::Want(want) => encode_want(alloc, want)?,
        Frame::Block(block) => encode_block(alloc, block)?,
        Frame::Out(out) => encode_out(alloc, out)?,
        Frame::PolySums(sums) => encode_elements(alloc, FrameKind::Sums, sums)?,
    };
    Ok(bytes)
}
