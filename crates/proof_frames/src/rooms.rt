// Room for what frames hand out.
ghost use Rattle.std.specs.Prelude.{◌≡◌, ◌≤◌, [], length, All, IfOk, vec_capacity};
ghost use Rattle.proof_frames.specs.Rooms.{HasTreeRooms, HasRooms};

use mersenne_field::Fe;
use std::alloc::{AllocError, Global};
use tree_messages::{TreeAsk, TreeReply};
use zk_model::{BlockPair, Expect};

/// Room for trees, and for the levels of each, of which nothing is there yet.
#[derive(Debug, Drop)]
pub(crate) struct TreeRooms<L, T> {
    pub(crate) levels: Vec<Vec<L>>,
    pub(crate) trees: Vec<T>,
}

/// Room for what the frame at a place hands out, but for its elements.
#[derive(Debug, Drop)]
pub(crate) struct Rooms {
    pub(crate) asks: TreeRooms<bool, TreeAsk>,
    pub(crate) replies: TreeRooms<BlockPair, TreeReply>,
    pub(crate) pairs: Vec<(Fe, Fe)>,
}

/// So many empty lists, each with room for so many items.
fn blanks<T: Drop>(alloc: Global, count: usize, items: usize) -> Result<Vec<Vec<T>>, AllocError>
    ensures count { IfOk result (λ rooms. length rooms.items ≡ count) }
    ensures blank { IfOk result (λ rooms.
        All (λ room. (room.items ≡ []) × (items ≤ vec_capacity room)) rooms.items) }
{
    let mut rooms = Vec::with_capacity(alloc, count)?;
    for _ in 0..count {
        rooms.push_reserved(Vec::with_capacity(alloc, items)?);
    }
    Ok(rooms)
}

impl<L: Drop, T: Drop> TreeRooms<L, T> {
    /// Room for so many trees of a height.
    fn of(alloc: Global, height: usize, trees: usize) -> Result<Self, AllocError>
        ensures { IfOk result (λ rooms. HasTreeRooms height trees rooms) }
    {
        let levels = blanks(alloc, trees, height)?;
        let trees = Vec::with_capacity(alloc, trees)?;
        Ok(TreeRooms { levels, trees })
    }

    /// Room for none.
    fn none(alloc: Global) -> Self {
        TreeRooms {
            levels: Vec::new(alloc),
            trees: Vec::new(alloc),
        }
    }
}

impl Rooms {
    /// Room for nothing.
    pub(crate) fn none(alloc: Global) -> Self {
        Rooms {
            asks: TreeRooms::none(alloc),
            replies: TreeRooms::none(alloc),
            pairs: Vec::new(alloc),
        }
    }

    /// Room for the frame at a place.
    pub(crate) fn at(alloc: Global, place: Expect) -> Result<Self, AllocError>
        ensures { IfOk result (λ rooms. HasRooms place rooms) }
    {
        let mut rooms = Rooms::none(alloc);
        match place {
            Expect::Ask { height, trees, .. } => {
                rooms.asks = TreeRooms::of(alloc, height, trees)?;
            }
            Expect::Reply { height, trees, .. } => {
                rooms.replies = TreeRooms::of(alloc, height, trees)?;
            }
            Expect::Sums { sections } => rooms.pairs = Vec::with_capacity(alloc, sections)?,
            _ => {}
        }
        Ok(rooms)
    }
}
