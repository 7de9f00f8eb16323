//! What waits for a part.

ghost use Rattle.std.specs.Prelude.{◌≡◌, [], ◌∷◌, Ok as OkOf, reverse};
ghost use Rattle.cc_tree.specs.Depth.{depth as depth_of};
ghost use Rattle.cc_tree.specs.Reading.{Gives};

use crate::depth::nodes;
use cc_num::Boxed;
use cc_tree::state::Frame;
use cc_tree::stop::Stop;
use std::alloc::Global;

/// At most so many constructs wait. Those that are nodes of the tree are never as many; structures in structures are
/// none, and a tree with so many of them is let go within 512 KiB of stack.
const MOST_WAITING: usize = 1000;

/// What waits for a part, the innermost last, and how many nodes of the tree it is.
#[derive(Drop)]
pub struct Waiting {
    frames: Vec<Boxed<Frame>>,
    nodes: usize,
    ghost counts: { nodes ≡ depth_of (reverse frames.items) },
}

impl Waiting {
    ghost use Rattle.cc_machine.specs.Taken.{popped};
    ghost use Rattle.cc_machine.specs.Waits.{waiting};

    /// Nothing waits.
    #[tactic(auto, using(crate::proofs::Waits::of_waiting), unfolding(crate::specs::Waits::waiting))]
    pub fn new(alloc: Global) -> Waiting
        ensures { waiting result ≡ [] }
    {
        Waiting {
            frames: Vec::new(alloc),
            nodes: 0,
        }
    }

    /// How many nodes of the tree wait.
    #[tactic(auto, unfolding(crate::specs::Waits::waiting))]
    pub fn depth(&self) -> usize
        ensures { result ≡ depth_of (waiting self.now) }
    {
        self.nodes
    }

    /// One that waits more.
    #[tactic(auto, using(crate::proofs::Waits::of_waiting), unfolding(crate::specs::Waits::waiting))]
    pub fn push(&mut self, frame: Boxed<Frame>) -> Result<(), Stop>
        ensures { Gives (λ _. waiting self.new) result (OkOf (frame ∷ waiting self.old)) }
    {
        if self.frames.len() >= MOST_WAITING {
            return Err(Stop::NoMemory);
        }
        let more = nodes(frame.get());
        self.frames.push(frame)?;
        self.nodes += more;
        Ok(())
    }

    /// What waits innermost, which waits no more.
    #[tactic(auto, using(crate::proofs::Waits::of_waiting), unfolding(crate::specs::Waits::waiting))]
    pub fn pop(&mut self) -> Option<Boxed<Frame>>
        ensures { (result, waiting self.new) ≡ popped (waiting self.old) }
    {
        match self.frames.pop() {
            Some(frame) => {
                self.nodes -= nodes(frame.get());
                Some(frame)
            }
            None => None,
        }
    }
}
