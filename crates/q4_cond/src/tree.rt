ghost use Rattle.std.specs.Prelude.{◌≡◌, ◌≤◌, ◌+◌, ◌∷◌, List};
ghost use Rattle.q4_cond.specs.Tree.{level_of, left_level};
ghost use Rattle.q4_cond.specs.Machine.{frame_level, frame_node, open_count};

use q4_value::Bytes;

/// An operator between two operands.
#[derive(Clone, Copy, Debug, PartialEq, Eq)]
pub enum Operator {
    Or,
    And,
    Equal,
    Unequal,
    Below,
    AtMost,
    Above,
    AtLeast,
    Add,
    Subtract,
    Multiply,
    Divide,
    Remainder,
}

impl Operator {
    /// The operator's level in the grammar, from 1 for `or` to 6 for products.
    pub fn level(self) -> usize
        ensures { result ≡ level_of self }
    {
        match self {
            Operator::Or => 1,
            Operator::And => 2,
            Operator::Equal
            | Operator::Unequal
            | Operator::Below
            | Operator::AtMost
            | Operator::Above
            | Operator::AtLeast => 4,
            Operator::Add | Operator::Subtract => 5,
            Operator::Multiply | Operator::Divide | Operator::Remainder => 6,
        }
    }

    /// The level of the left operand.
    pub fn left_level(self) -> usize
        ensures { result ≡ left_level self }
    {
        let level = self.level();
        if level == 4 { 5 } else { level }
    }
}

/// What stands for itself in a condition.
#[derive(Drop)]
pub enum Atom {
    /// The place of a column, from 0. It is the number of columns for a word that names none.
    Column(usize),
    /// A number, at most 2^127 - 1.
    Number(i128),
    /// The bytes of a text.
    Text(Bytes),
}

/// A step of a condition in postfix order: an atom, or an operator behind its operands.
#[derive(Drop)]
pub enum Node {
    Leaf(Atom),
    Binary(Operator),
    Inverted,
    Negated,
}

/// A token of a condition's text.
#[derive(Drop)]
pub enum Token {
    Operand(Atom),
    Sign(Operator),
    Not,
    Open,
    Close,
    /// No token of the language.
    Bad,
}

/// A token at the front of a text, and how many bytes it has.
#[derive(Drop)]
pub struct Front {
    pub token: Token,
    pub size: usize,
}

/// What is begun and waits for the operand behind it.
#[derive(Clone, Copy, Debug, PartialEq, Eq)]
pub enum Frame {
    /// An operator whose left operand is complete.
    Pending(Operator),
    /// A `not`.
    Inverting,
    /// A `-` before its operand.
    Negating,
    /// An open parenthesis.
    Group,
}

impl Frame {
    /// The level of the phrase that the frame makes, 0 for a parenthesis.
    pub fn level(self) -> usize
        ensures { result ≡ frame_level self }
    {
        match self {
            Frame::Pending(operator) => operator.level(),
            Frame::Inverting => 3,
            Frame::Negating => 7,
            Frame::Group => 0,
        }
    }

    /// 1 for a construct, and 0 for an operator.
    pub fn opens(self) -> usize
        ensures count { (frames : List Frame) → open_count (self ∷ frames) ≡ result + open_count frames }
        ensures at_most_one { result ≤ 1 }
    {
        match self {
            Frame::Pending(_) => 0,
            Frame::Inverting | Frame::Negating | Frame::Group => 1,
        }
    }

    /// The node that closes the frame.
    pub fn node(self) -> Node
        ensures { result ≡ frame_node self }
    {
        match self {
            Frame::Pending(operator) => Node::Binary(operator),
            Frame::Inverting => Node::Inverted,
            Frame::Negating | Frame::Group => Node::Negated,
        }
    }
}
