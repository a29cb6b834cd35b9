//! The constructs that a reader has begun, the innermost first.
ghost use Rattle.std.specs.Prelude.{◌≡◌, [], ◌∷◌, OnOk, MatchOption, slice_get};
ghost use Rattle.q4_cond.specs.Machine.{open_count, wanted_level};

use crate::tree::Frame;
use q4_value::NoMemory;
use std::alloc::Global;
use std::marker::Model;

/// A stack of frames. A contract sees their list, the innermost first.
#[derive(Drop)]
pub struct Frames {
    frames: Vec<Frame>,
}

impl Model for Frames {
    ghost use Rattle.std.specs.Prelude.{List, reverse};
    ghost use Rattle.q4_cond.specs.declared.tree.Frame.{Frame as Begun};

    ghost Value = { List Begun };

    ghost view = { λ a. reverse a.frames.items };
}

impl Frames {
    pub fn new(alloc: Global) -> Frames
        ensures { result ≡ [] }
    {
        Frames {
            frames: Vec::new(alloc),
        }
    }

    pub fn push(&mut self, frame: Frame) -> Result<(), NoMemory>
        ensures { OnOk result (self.new ≡ frame ∷ self.old) }
    {
        match self.frames.push(frame) {
            Ok(()) => Ok(()),
            Err(_) => Err(NoMemory),
        }
    }

    pub fn pop(&mut self) -> Option<Frame>
        ensures { MatchOption result ((self.old ≡ []) × (self.new ≡ [])) (λ frame. self.old ≡ frame ∷ self.new) }
    {
        self.frames.pop()
    }

    pub fn innermost(&self) -> Option<Frame>
        ensures { result ≡ slice_get self.now 0 }
    {
        self.frames.last().copied()
    }

    /// How many constructs are open.
    pub fn open_count(&self) -> usize
        ensures { result ≡ open_count self.now }
    {
        let mut count = 0;
        for frame in &self.frames {
            count += frame.opens();
        }
        count
    }

    /// The level of the operand that the innermost frame wants.
    pub fn wanted_level(&self) -> usize
        ensures { result ≡ wanted_level self.now }
    {
        match self.innermost() {
            None | Some(Frame::Group) => 1,
            Some(Frame::Pending(operator)) => operator.level() + 1,
            Some(Frame::Inverting) => 3,
            Some(Frame::Negating) => 7,
        }
    }
}
