// Frames from the bytes that are held.
ghost use Rattle.std.specs.Prelude.{◌≡◌, ℕ, ◌*◌, ◌≤◌, ◌<◌, length, vec_capacity, []};
ghost use Rattle.zk_model.specs.Frames as model;
ghost use Rattle.proof_frames.specs.Frames.{frame_value, flattened, digest_in, hello_in, grant_or_refusal_in, verdict_in, want_in, block_or_out_in};
ghost use Rattle.proof_frames.specs.Holding.{bytes_of, Holds};
ghost use Rattle.proof_frames.specs.Rooms.{HasRooms};
ghost use Rattle.proof_frames.specs.Rows.{row_of, payload_length};

use crate::frame::{Frame, Grant, Hello};
use crate::held::Held;
use crate::rooms::Rooms;
use crate::spelling::{array, trees_of};
use mersenne_field::Fe;
use std::alloc::Global;
use std::mem;
use zk_model::{Block, Expect, Out, Want};

/// The digest of public bits, if all of it is there.
fn digest_of(bytes: &[u8]) -> Option<[u8; 32]>
    ensures { result ≡ digest_in bytes.now }
{
    if bytes.len() == 32 {
        Some(array(bytes))
    } else {
        None
    }
}

/// The greeting that a payload says.
fn hello_of(payload: &[u8]) -> Hello
    requires { 97 ≤ length payload.now }
    ensures { result ≡ hello_in payload.now }
{
    let (id, rest) = payload.split_at(32);
    let (circuit, rest) = rest.split_at(32);
    let (outputs, rest) = rest.split_at(32);
    let (version, public) = rest.split_at(1);
    Hello {
        id: array(id),
        circuit: array(circuit),
        outputs: array(outputs),
        version: version[0],
        public: digest_of(public),
    }
}

/// The grant that a payload says, or after a refusal's kind the refusal.
fn grant_or_refusal_of(kind: u8, payload: &[u8]) -> Frame
    requires { length payload.now ≡ payload_length (row_of Expect.Grant kind).payload }
    ensures { frame_value result ≡ grant_or_refusal_in kind payload.now }
{
    if kind == 10 {
        return Frame::Refuse { code: payload[0] };
    }
    let (start, rest) = payload.split_at(8);
    let (count, section) = rest.split_at(4);
    Frame::Grant(Grant {
        start: u64::from_le_bytes(array(start)),
        count: u32::from_le_bytes(array(count)),
        section: u32::from_le_bytes(array(section)),
    })
}

/// The verdict that a payload says.
fn verdict_of(payload: &[u8]) -> Frame
    requires { length payload.now ≡ 5 }
    ensures { frame_value result ≡ verdict_in payload.now }
{
    let [code, number @ ..] = payload else {
        return Frame::Verdict { code: 0, number: 0 };
    };
    Frame::Verdict {
        code: *code,
        number: u32::from_le_bytes(array(number)),
    }
}

/// The want that a payload says.
fn want_of(payload: &[u8]) -> Want
    requires { length payload.now ≡ 16 }
    ensures { result ≡ want_in payload.now }
{
    let (node, rest) = payload.split_at(4);
    let (number, count) = rest.split_at(8);
    Want {
        node: u32::from_le_bytes(array(node)),
        number: u64::from_le_bytes(array(number)),
        count: u32::from_le_bytes(array(count)),
    }
}

/// The block that a payload says, or after an out's kind the out.
fn block_or_out_of(kind: u8, payload: &[u8]) -> Frame
    requires { length payload.now ≡ payload_length (row_of Expect.Block kind).payload }
    ensures { frame_value result ≡ block_or_out_in kind payload.now }
{
    let (node, rest) = payload.split_at(4);
    let (number, rest) = rest.split_at(8);
    let node = u32::from_le_bytes(array(node));
    let number = u64::from_le_bytes(array(number));
    if kind == 13 {
        let at = u64::from_le_bytes(array(rest));
        return Frame::Out(Out { node, number, at });
    }
    let (start, count) = rest.split_at(8);
    Frame::Block(Block {
        node,
        number,
        start: u64::from_le_bytes(array(start)),
        count: u32::from_le_bytes(array(count)),
    })
}

/// Elements two by two, in the room that there is for the pairs.
fn pairs_of(alloc: Global, elements: &[Fe], pairs: &mut Vec<(Fe, Fe)>) -> Vec<(Fe, Fe)>
    requires empty { pairs.old.items ≡ [] }
    requires room { length elements.now ≤ 2 * vec_capacity pairs.old }
    ensures { (count : ℕ) → length elements.now ≡ 2 * count
        → (elements.now ≡ flattened result.items) × (length result.items ≡ count) }
{
    let mut rest = elements;
    while let [constant, linear, behind @ ..] = rest {
        pairs.push_reserved((*constant, *linear));
        rest = behind;
    }
    mem::replace(pairs, Vec::new(alloc))
}

/// The frame that is held whole. Its elements are handed out.
pub(crate) fn whole_frame(alloc: Global, place: Expect, held: &mut Held, rooms: &mut Rooms) -> Frame
    requires holds { Holds place held.old }
    requires whole { length (bytes_of held.old) ≡ model.frame_length place (bytes_of held.old) }
    requires rooms { HasRooms place rooms.old }
    ensures { model.IsWhole place (bytes_of held.old) (frame_value result) }
{
    match place {
        Expect::Hello => Frame::Hello(hello_of(held.payload())),
        Expect::ShortHello => Frame::Hello(hello_of(held.payload())),
        Expect::Grant => grant_or_refusal_of(held.start[0], held.payload()),
        Expect::Ask { height, .. } => {
            Frame::ExtendAsk(trees_of(alloc, held.payload(), height, &mut rooms.asks))
        }
        Expect::Reply { height, .. } => {
            let trees = trees_of(alloc, held.payload(), height, &mut rooms.replies);
            Frame::ExtendReply(trees)
        }
        Expect::Corrections { .. } => Frame::Corrections(held.give_elements(alloc)),
        Expect::Challenge => Frame::Challenge(held.elements[0]),
        Expect::Sums { .. } => Frame::Sums(pairs_of(alloc, &held.elements, &mut rooms.pairs)),
        Expect::Openings { .. } => Frame::Openings(held.give_elements(alloc)),
        Expect::Verdict => verdict_of(held.payload()),
        Expect::PolySums { .. } => Frame::PolySums(held.give_elements(alloc)),
        Expect::PolyVerdict => verdict_of(held.payload()),
        Expect::Want => Frame::Want(want_of(held.payload())),
        Expect::Block => block_or_out_of(held.start[0], held.payload()),
    }
}
