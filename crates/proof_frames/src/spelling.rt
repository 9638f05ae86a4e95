// Values as the bytes of a payload, and trees from them.
ghost use Rattle.std.specs.Prelude.{◌≡◌, ℕ, List, ◌+◌, ◌*◌, ◌≤◌, ◌++◌, ◌∷◌, [], length, flat_map, All, OnOk, vec_capacity};
ghost use Rattle.zk_model.specs.Bits.{from_bit};
ghost use Rattle.zk_model.specs.Bytes.{element_bytes, AreBothBytes};
ghost use Rattle.zk_model.specs.Field.{IsElement};
ghost use Rattle.zk_model.specs.Transcript.{IsTreeAsk, IsTreeReply};
ghost use Rattle.proof_frames.specs.Frames.{ask_bytes, message_bytes, reply_bytes};
ghost use Rattle.proof_frames.specs.Rooms.{HasTreeRooms};
ghost use Rattle.proof_frames.specs.Rows.{AreWithin, SpellElement, FitsFields, repeat, tree_fields};

use crate::rooms::TreeRooms;
use mersenne_field::Fe;
use std::alloc::{AllocError, Global};
use std::mem;
use tree_messages::{TreeAsk, TreeReply};
use zk_model::BlockPair;

/// A value that stands in a payload.
pub(crate) trait Spelled {
    ghost spelling: { Self → List ℕ };

    /// Its elements are elements.
    ghost ranged: { Self → Type 0 };

    /// Appends its bytes.
    fn push(&self, bytes: &mut Vec<u8>) -> Result<(), AllocError>
        ensures bytes { OnOk result (bytes.new.items ≡ bytes.old.items ++ spelling self.now) }
        ensures range { OnOk result (ranged self.now) };
}

/// A level of a tree: so many bytes, each up to the most.
pub(crate) trait Level: Spelled {
    ghost SIZE: { ℕ };

    ghost most: { ℕ };

    ghost fits: { Self → Type 0 };

    const SIZE: usize;

    /// The level of as many bytes.
    fn read(bytes: &[u8]) -> Self
        requires { AreWithin SIZE 0 most bytes.now }
        ensures spelled { Self.spelling result ≡ bytes.now }
        ensures fits { fits result };
}

/// A tree: its levels, and an element.
pub(crate) trait Tree<L: Level>: Spelled {
    ghost is_tree: { ℕ → Self → Type 0 };

    /// The tree of these levels and this element.
    fn of(levels: Vec<L>, element: Fe) -> Self
        ensures spelled { Self.spelling result ≡ flat_map L.spelling levels.items ++ element_bytes element }
        ensures fits { All L.fits levels.items → IsElement element
            → is_tree (length levels.items) result };
}

/// The bytes as an array of so many.
pub(crate) fn array<const N: usize>(bytes: &[u8]) -> [u8; N]
    requires { length bytes.now ≡ N }
    ensures { result ≡ bytes.now }
{
    let mut array = [0; N];
    array.copy_from_slice(bytes);
    array
}

/// Appends the bytes of values.
pub(crate) fn push_all<T: Spelled>(bytes: &mut Vec<u8>, items: &[T]) -> Result<(), AllocError>
    ensures bytes { OnOk result (bytes.new.items ≡ bytes.old.items ++ flat_map T.spelling items.now) }
    ensures range { OnOk result (All T.ranged items.now) }
{
    for item in items {
        item.push(bytes)?;
    }
    Ok(())
}

impl Spelled for Fe {
    ghost spelling = { element_bytes };

    ghost ranged = { IsElement };

    #[inline]
    fn push(&self, bytes: &mut Vec<u8>) -> Result<(), AllocError> {
        bytes.extend_from_slice(&self.to_le())?;
        Ok(())
    }
}

impl Spelled for bool {
    ghost spelling = { λ bit. from_bit bit ∷ [] };

    ghost ranged = { λ bit. Unit {0} };

    fn push(&self, bytes: &mut Vec<u8>) -> Result<(), AllocError> {
        bytes.push(u8::from(*self))?;
        Ok(())
    }
}

impl Spelled for (Fe, Fe) {
    ghost spelling = { λ both. element_bytes both.0 ++ element_bytes both.1 };

    ghost ranged = { λ both. IsElement both.0 × IsElement both.1 };

    #[inline]
    fn push(&self, bytes: &mut Vec<u8>) -> Result<(), AllocError> {
        self.0.push(bytes)?;
        self.1.push(bytes)
    }
}

impl Spelled for BlockPair {
    ghost spelling = { message_bytes };

    ghost ranged = { λ both. Unit {0} };

    fn push(&self, bytes: &mut Vec<u8>) -> Result<(), AllocError> {
        bytes.extend_from_slice(&self.left)?;
        bytes.extend_from_slice(&self.right)?;
        Ok(())
    }
}

impl Spelled for TreeAsk {
    ghost spelling = { ask_bytes };

    ghost ranged = { λ ask. IsElement ask.base_correction };

    fn push(&self, bytes: &mut Vec<u8>) -> Result<(), AllocError> {
        push_all(bytes, &self.flips)?;
        self.base_correction.push(bytes)?;
        Ok(())
    }
}

impl Spelled for TreeReply {
    ghost spelling = { reply_bytes };

    ghost ranged = { λ reply. IsElement reply.leaf_offset };

    fn push(&self, bytes: &mut Vec<u8>) -> Result<(), AllocError> {
        push_all(bytes, &self.messages)?;
        self.leaf_offset.push(bytes)
    }
}

impl Level for bool {
    ghost SIZE = { 1 };

    ghost most = { 1 };

    ghost fits = { λ bit. Unit {0} };

    const SIZE: usize = 1;

    fn read(bytes: &[u8]) -> Self {
        bytes[0] == 1
    }
}

impl Level for BlockPair {
    ghost SIZE = { 32 };

    ghost most = { 255 };

    ghost fits = { AreBothBytes 16 };

    const SIZE: usize = 32;

    #[tactic(auto, using(crate::proofs::Spells::halves_fit))]
    fn read(bytes: &[u8]) -> Self {
        let (left, right) = bytes.split_at(16);
        BlockPair {
            left: array(left),
            right: array(right),
        }
    }
}

impl Tree<bool> for TreeAsk {
    ghost is_tree = { IsTreeAsk };

    fn of(levels: Vec<bool>, element: Fe) -> Self
        ensures spelled { ask_bytes result
            ≡ flat_map (λ bit. from_bit bit ∷ []) levels.items ++ element_bytes element }
        ensures fits { All (λ bit. Unit {0}) levels.items → IsElement element
            → IsTreeAsk (length levels.items) result }
    {
        TreeAsk {
            flips: levels,
            base_correction: element,
        }
    }
}

impl Tree<BlockPair> for TreeReply {
    ghost is_tree = { IsTreeReply };

    fn of(levels: Vec<BlockPair>, element: Fe) -> Self
        ensures spelled { reply_bytes result
            ≡ flat_map message_bytes levels.items ++ element_bytes element }
        ensures fits { All (AreBothBytes 16) levels.items → IsElement element
            → IsTreeReply (length levels.items) result }
    {
        TreeReply {
            messages: levels,
            leaf_offset: element,
        }
    }
}

/// The element that 8 bytes spell.
fn element_of(bytes: &[u8]) -> Fe
    requires { SpellElement bytes.now }
    ensures spelled { element_bytes result ≡ bytes.now }
    ensures element { IsElement result }
{
    Fe::from_word(u64::from_le_bytes(array(bytes)))
}

/// The levels that bytes say, in the room that there is for them.
fn levels_of<L: Level>(bytes: &[u8], height: usize, mut levels: Vec<L>) -> Vec<L>
    requires bytes { AreWithin (L.SIZE * height) 0 L.most bytes.now }
    requires empty { levels.items ≡ [] }
    requires room { height ≤ vec_capacity levels }
    ensures spelled { flat_map L.spelling result.items ≡ bytes.now }
    ensures count { length result.items ≡ height }
    ensures fits { All L.fits result.items }
{
    let mut rest = bytes;
    for _ in 0..height {
        let (level, behind) = rest.split_at(L::SIZE);
        levels.push_reserved(L::read(level));
        rest = behind;
    }
    levels
}

/// The tree that bytes say, in the room that there is for its levels.
fn tree_of<L: Level, T: Tree<L>>(bytes: &[u8], height: usize, levels: Vec<L>) -> T
    requires tree { FitsFields (tree_fields height L.SIZE L.most) bytes.now }
    requires empty { levels.items ≡ [] }
    requires room { height ≤ vec_capacity levels }
    ensures spelled { T.spelling result ≡ bytes.now }
    ensures fits { T.is_tree height result }
{
    let (front, word) = bytes.split_at(bytes.len() - 8);
    T::of(levels_of(front, height, levels), element_of(word))
}

/// The trees that a payload says, in the room that there is for them.
pub(crate) fn trees_of<L: Level, T: Tree<L>>(
    alloc: Global,
    payload: &[u8],
    height: usize,
    rooms: &mut TreeRooms<L, T>,
) -> Vec<T>
    requires rooms { HasTreeRooms height (length rooms.old.levels.items) rooms.old }
    requires payload { FitsFields
        (repeat (length rooms.old.levels.items) (tree_fields height L.SIZE L.most)) payload.now }
    ensures spelled { flat_map T.spelling result.items ≡ payload.now }
    ensures count { length result.items ≡ length rooms.old.levels.items }
    ensures fits { All (T.is_tree height) result.items }
{
    let mut rest = payload;
    while let Some(levels) = rooms.levels.pop() {
        let (tree, behind) = rest.split_at(L::SIZE * height + 8);
        rooms.trees.push_reserved(tree_of(tree, height, levels));
        rest = behind;
    }
    mem::replace(&mut rooms.trees, Vec::new(alloc))
}
