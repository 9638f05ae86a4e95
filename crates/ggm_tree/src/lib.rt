//! Binary trees of nodes of 16 bytes that grow from a seed by SHA-256 (Goldreich, Goldwasser and Micali, How to
//! Construct Random Functions, 1986; FIPS 180-4), and such trees without the path to one leaf (Boyle and others, 2019).
//! The children of a node are the two halves of its digest, and a leaf stands for the element of its first 8 bytes, the
//! low one first. A tree is walked in depth, so that no list of a level's nodes is held: from the fourth level on eight
//! neighbours go side by side, and their children are hashed at once.
//!
//! `doubling` has `double` and `double_eight`, which alone hash, and `steps` counts what they do. `walking` has
//! `walk_sums` and `walker` has `Walker`, which take no memory, `growing` has `expand`, `level_sums` and `grow`,
//! `puncturing` has `puncture`. Below them `writing` and `summing` walk over nodes of a level, for their leaves and for
//! the sum of these; `levels` goes one level down, and `nodes` has the XOR and the leaf's element. `laws` says that both
//! ways to grow a tree give the same leaves.
//!
//!     let sums = walk_sums(&root, height, &mut steps);    // all sums, in 2^height - 1 steps
//!     let grown = grow(alloc, &root, height)?;            // all leaves, and the sums of each level's sides
//!     let found = puncture(alloc, height, place, &sums)?; // all leaves but that at `place`, which is 0
//!     let leaf = walker.next_leaf();                      // one leaf after another
#![tactic(auto)]

mod doubling;
mod growing;
mod laws;
mod levels;
mod nodes;
mod puncturing;
mod steps;
mod summing;
mod walker;
mod walking;
mod writing;

pub use doubling::{double, double_eight};
pub use growing::{GrownTree, expand, grow, level_sums};
pub use laws::punctured_is_grown;
pub use puncturing::puncture;
pub use steps::Steps;
pub use walker::Walker;
pub use walking::{WalkSums, walk_sums};
