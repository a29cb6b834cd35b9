//! Reads tokens one after the other, and puts a condition's nodes in postfix order.
ghost use Rattle.std.specs.Prelude.{◌≡◌, Some, None, [], ◌∷◌, ◌++◌, OnOk, IfOk, MatchOption, slice_get};
ghost use Rattle.q4_cond.specs.Machine.{Wants, Has, open_count, wanted_level, kept_frames, closed_nodes, state_of, finished, StepSays, OpenSays};

use crate::frames::Frames;
use crate::tree::{Atom, Frame, Node, Operator, Token};
use q4_value::NoMemory;
use std::alloc::Global;

/// How many `(`, `not` and unary `-` may be open at one place.
pub const DEPTH: usize = 32;

/// What became of a token.
#[derive(Clone, Copy, Debug, PartialEq, Eq)]
pub enum Step {
    Taken,
    /// It goes on no condition.
    Refused,
    /// It opens a construct within as many as may be open.
    TooDeep,
}

/// The state of reading, between two tokens.
#[derive(Drop)]
pub struct Reader {
    /// An operand is wanted, and not an operator.
    pub wants: bool,
    pub frames: Frames,
    pub nodes: Vec<Node>,
}

/// Closes the frames of this level and of tighter ones over the operand behind them.
fn close_frames(frames: &mut Frames, nodes: &mut Vec<Node>, level: usize) -> Result<(), NoMemory>
    ensures kept { OnOk result (frames.new ≡ kept_frames level frames.old) }
    ensures closed { OnOk result (nodes.new.items ≡ nodes.old.items ++ closed_nodes level frames.old) }
{
    while let Some(frame) = frames.innermost() {
        if frame.level() < level {
            return Ok(());
        }
        let _closed = frames.pop();
        if nodes.push(frame.node()).is_err() {
            return Err(NoMemory);
        }
    }
    Ok(())
}

impl Reader {
    pub fn new(alloc: Global) -> Reader
        ensures { state_of result.wants result.frames result.nodes.items ≡ Wants [] [] }
    {
        Reader {
            wants: true,
            frames: Frames::new(alloc),
            nodes: Vec::new(alloc),
        }
    }

    /// The nodes of the whole condition, if it may end here.
    pub fn finish(mut self) -> Result<Option<Vec<Node>>, NoMemory>
        ensures { IfOk result (λ found. MatchOption found (finished (state_of self.wants self.frames self.nodes.items) ≡ None) (λ nodes. finished (state_of self.wants self.frames self.nodes.items) ≡ Some nodes.items)) }
    {
        if self.wants {
            let empty = self.frames.innermost().is_none() && self.nodes.is_empty();
            return Ok(if empty { Some(self.nodes) } else { None });
        }
        close_frames(&mut self.frames, &mut self.nodes, 1)?;
        let closed = self.frames.innermost().is_none();
        Ok(if closed { Some(self.nodes) } else { None })
    }

    /// Takes one token.
    pub fn take(&mut self, token: Token) -> Result<Step, NoMemory>
        ensures { IfOk result (λ says. StepSays (state_of self.old.wants self.old.frames self.old.nodes.items) token (state_of self.new.wants self.new.frames self.new.nodes.items) says) }
    {
        match token {
            Token::Operand(atom) => self.take_operand(atom),
            Token::Sign(operator) => self.take_sign(operator),
            Token::Not => self.take_not(),
            Token::Open => self.take_open(),
            Token::Close => self.take_close(),
            Token::Bad => Ok(Step::Refused),
        }
    }

    fn take_operand(&mut self, atom: Atom) -> Result<Step, NoMemory>
        ensures { IfOk result (λ says. StepSays (state_of self.old.wants self.old.frames self.old.nodes.items) (Token.Operand atom) (state_of self.new.wants self.new.frames self.new.nodes.items) says) }
    {
        if !self.wants {
            return Ok(Step::Refused);
        }
        if self.nodes.push(Node::Leaf(atom)).is_err() {
            return Err(NoMemory);
        }
        self.wants = false;
        Ok(Step::Taken)
    }

    fn take_sign(&mut self, operator: Operator) -> Result<Step, NoMemory>
        ensures { IfOk result (λ says. StepSays (state_of self.old.wants self.old.frames self.old.nodes.items) (Token.Sign operator) (state_of self.new.wants self.new.frames self.new.nodes.items) says) }
    {
        if !self.wants {
            return self.pend(operator);
        }
        match operator {
            Operator::Subtract => self.open(Frame::Negating),
            _ => Ok(Step::Refused),
        }
    }

    fn take_not(&mut self) -> Result<Step, NoMemory>
        ensures { IfOk result (λ says. StepSays (state_of self.old.wants self.old.frames self.old.nodes.items) Token.Not (state_of self.new.wants self.new.frames self.new.nodes.items) says) }
    {
        if !self.wants || self.frames.wanted_level() > 3 {
            return Ok(Step::Refused);
        }
        self.open(Frame::Inverting)
    }

    fn take_open(&mut self) -> Result<Step, NoMemory>
        ensures { IfOk result (λ says. StepSays (state_of self.old.wants self.old.frames self.old.nodes.items) Token.Open (state_of self.new.wants self.new.frames self.new.nodes.items) says) }
    {
        if !self.wants {
            return Ok(Step::Refused);
        }
        self.open(Frame::Group)
    }

    fn take_close(&mut self) -> Result<Step, NoMemory>
        ensures { IfOk result (λ says. StepSays (state_of self.old.wants self.old.frames self.old.nodes.items) Token.Close (state_of self.new.wants self.new.frames self.new.nodes.items) says) }
    {
        if self.wants {
            return Ok(Step::Refused);
        }
        close_frames(&mut self.frames, &mut self.nodes, 1)?;
        match self.frames.pop() {
            Some(Frame::Group) => Ok(Step::Taken),
            _ => Ok(Step::Refused),
        }
    }

    /// An operator behind an operand.
    fn pend(&mut self, operator: Operator) -> Result<Step, NoMemory>
        ensures { IfOk result (λ says. StepSays (Has self.old.frames self.old.nodes.items) (Token.Sign operator) (state_of self.new.wants self.new.frames self.new.nodes.items) says) }
    {
        close_frames(&mut self.frames, &mut self.nodes, operator.left_level())?;
        if self.frames.wanted_level() > operator.level() {
            return Ok(Step::Refused);
        }
        self.frames.push(Frame::Pending(operator))?;
        self.wants = true;
        Ok(Step::Taken)
    }

    /// Opens a construct, where an operand is wanted.
    fn open(&mut self, frame: Frame) -> Result<Step, NoMemory>
        ensures { IfOk result (λ says. OpenSays frame self.old.frames self.old.nodes.items (state_of self.new.wants self.new.frames self.new.nodes.items) says) }
    {
        if self.frames.open_count() >= DEPTH {
            return Ok(Step::TooDeep);
        }
        self.frames.push(frame)?;
        self.wants = true;
        Ok(Step::Taken)
    }
}
