ghost use Rattle.std.specs.Prelude.{◌≡◌, ◌≤◌, ◌+◌, ℕ, List, length, IfOk, MatchResult};
ghost use Rattle.std.specs.Bool.{Decides};
ghost use Rattle.q4_cond.specs.Condition.{ReadsAs, IsShowable};
ghost use Rattle.q4_cond.specs.Reading.{kinds_of, IsRead, IsFault};
ghost use Rattle.q4_cond.specs.Values.{meets};
ghost use Rattle.q4_cond.specs.Tokens.{names_of};
ghost use Rattle.q4_cond.specs.Shown.{condition_text};
ghost use Rattle.q4_cond.specs.SameTree.{same_tree};

use crate::CondFault;
use crate::kinds::first_misplaced;
use crate::same::same_nodes;
use crate::scan::scan_text;
use crate::steps::Steps;
use crate::tree::{Atom, Node};
use crate::value::{execute, most_operands};
use crate::writing::write_nodes;
use q4_value::{Bytes, Column, Kind, NoMemory, Row, Words};
use std::alloc::Global;
use std::marker::Model;
use std::sync::ledger::Ledger;

/// The most bytes that a condition's text may have.
const LONGEST: usize = 1024;

/// A condition on the rows of a table. A contract sees its tree and the kinds of its columns.
#[derive(Drop)]
pub struct Cond {
    /// The tree in postfix order; none for the empty condition.
    nodes: Vec<Node>,
    kinds: Vec<Kind>,
    /// The most operands that are complete at once while the nodes are executed.
    operands: usize,
}

impl Model for Cond {
    ghost use Rattle.std.specs.Prelude.{◌≡◌, ◌≤◌, length};
    ghost use Rattle.std.specs.Coded.{coded×, coded_list};
    ghost use Rattle.q4_cond.specs.Condition.{Condition, condition_code};
    ghost use Rattle.q4_cond.specs.Postfix.{tree_of, nodes_of};
    ghost use Rattle.q4_cond.specs.Execution.{most_operands};
    ghost use Rattle.q4_cond.specs.contracts.tree.Node as node;
    ghost use Rattle.q4_value.specs.contracts.column.Kind as kind;

    ghost Value = { Condition };

    ghost coded = { condition_code (coded× (coded_list node.the_row.coded) (coded_list kind.the_row.coded)) };

    ghost view = { λ c. record { tree = tree_of c.nodes.items; kinds = c.kinds.items } };

    ghost invariant = { λ c. (nodes_of (tree_of c.nodes.items) ≡ c.nodes.items) × (length c.nodes.items ≤ 1024) × (c.operands ≡ most_operands c.nodes.items 0) };
}

impl Atom {
    fn copy(&self, alloc: Global) -> Result<Atom, NoMemory>
        ensures { IfOk result (λ atom. atom ≡ self.now) }
    {
        match self {
            Atom::Column(column) => Ok(Atom::Column(*column)),
            Atom::Number(number) => Ok(Atom::Number(*number)),
            Atom::Text(text) => {
                let mut copied = Bytes::new(alloc);
                copied.push(text.as_slice())?;
                Ok(Atom::Text(copied))
            }
        }
    }
}

impl Node {
    fn copy(&self, alloc: Global) -> Result<Node, NoMemory>
        ensures { IfOk result (λ node. node ≡ self.now) }
    {
        match self {
            Node::Leaf(atom) => Ok(Node::Leaf(atom.copy(alloc)?)),
            Node::Binary(operator) => Ok(Node::Binary(*operator)),
            Node::Inverted => Ok(Node::Inverted),
            Node::Negated => Ok(Node::Negated),
        }
    }
}

fn copy_nodes(alloc: Global, nodes: &[Node]) -> Result<Vec<Node>, NoMemory>
    ensures { IfOk result (λ copied. copied.items ≡ nodes.now) }
{
    let mut copied = Vec::new(alloc);
    for node in nodes {
        let node = node.copy(alloc)?;
        if copied.push(node).is_err() {
            return Err(NoMemory);
        }
    }
    Ok(copied)
}

fn copy_kinds(alloc: Global, kinds: &[Kind]) -> Result<Vec<Kind>, NoMemory>
    ensures { IfOk result (λ copied. copied.items ≡ kinds.now) }
{
    let mut copied = Vec::new(alloc);
    for kind in kinds {
        if copied.push(*kind).is_err() {
            return Err(NoMemory);
        }
    }
    Ok(copied)
}

fn kinds_of(alloc: Global, columns: &[Column]) -> Result<Vec<Kind>, NoMemory>
    ensures { IfOk result (λ kinds. kinds.items ≡ kinds_of columns.now) }
{
    let mut kinds = Vec::new(alloc);
    for column in columns {
        if kinds.push(column.kind).is_err() {
            return Err(NoMemory);
        }
    }
    Ok(kinds)
}

impl Cond {
    /// The same condition, in memory of its own.
    pub fn copy(&self, alloc: Global) -> Result<Cond, NoMemory>
        ensures { IfOk result (λ cond. cond ≡ self.now) }
    {
        let nodes = copy_nodes(alloc, &self.nodes)?;
        let kinds = copy_kinds(alloc, &self.kinds)?;
        Ok(Cond {
            nodes,
            kinds,
            operands: self.operands,
        })
    }

    /// Whether the condition has the tree of the other. Their texts may differ in spaces and parentheses.
    pub fn has_tree_of(&self, other: &Cond) -> bool
        ensures decided { Decides result (self.now.tree ≡ other.now.tree) }
        ensures tested { result ≡ same_tree self.now.tree other.now.tree }
    {
        same_nodes(&self.nodes, &other.nodes)
    }
}

/// Reads a condition on rows of these columns: its tokens, its grammar and its values are those of the document on
/// formats. A fault tells the first place that is at fault, in bytes from 0.
pub fn read(alloc: Global, text: &str, columns: &[Column]) -> Result<Cond, CondFault>
    ensures { MatchResult result (ReadsAs columns.now text.now) (IsFault columns.now text.now) }
{
    let bytes = text.as_bytes();
    if bytes.len() > LONGEST {
        return Err(CondFault::Long);
    }
    let scan = scan_text(alloc, columns, bytes)?;
    let unknown = scan.unknown;
    let atoms = scan.atoms;
    let Some(nodes) = scan.reader.finish()? else {
        return Err(CondFault::At(bytes.len() as u32));
    };
    if let Some(place) = unknown {
        return Err(CondFault::NoColumn(place));
    }
    let kinds = kinds_of(alloc, columns)?;
    if let Some(place) = first_misplaced(&kinds, &nodes, &atoms) {
        return Err(CondFault::Kinds(place));
    }
    let operands = most_operands(&nodes);
    Ok(Cond {
        nodes,
        kinds,
        operands,
    })
}

/// Whether the row meets the condition: its value is present and not 0. It takes no memory, and looks at each part
/// of the condition once. For a row that fits the columns of the reading, the value is that of the document on formats.
/// Each call is one step.
pub fn met<L: Ledger>(cond: &Cond, row: &Row, steps: &mut Steps<L>) -> bool
    ensures met { result ≡ meets row.now cond.now.tree }
    ensures counted { steps.new ≡ steps.old + 1 }
{
    steps.count_one();
    holds(cond, row)
}

// The stack has room for the operands that the condition needs, since its places are filled before it is used.
fn holds(cond: &Cond, row: &Row) -> bool
    ensures { result ≡ meets row.now cond.now.tree }
{
    let nodes = cond.nodes.as_slice();
    if cond.operands <= 4 {
        execute::<4>(nodes, row)
    } else if cond.operands <= 32 {
        execute::<32>(nodes, row)
    } else {
        execute::<1024>(nodes, row)
    }
}

/// The text of a condition on these columns, which are those that it was read with: parentheses stand only where
/// the grammar needs them, and one space stands between two words or numbers. It reads as the same tree, and no
/// text that does is shorter.
pub fn show(alloc: Global, cond: &Cond, columns: &[Column]) -> Result<Words, NoMemory>
    requires { IsShowable columns.now cond.now.tree }
    ensures text { IfOk result (λ words. words ≡ condition_text (names_of columns.now) cond.now.tree) }
    ensures reads_back { IfOk result (λ words. IsRead columns.now words cond.now.tree) }
    ensures no_longer { IfOk result (λ words. (text : List ℕ) → IsRead columns.now text cond.now.tree → length words ≤ length text) }
{
    let bytes = write_nodes(alloc, &cond.nodes, columns)?;
    let Ok(text) = std::str::from_utf8(bytes.as_slice()) else {
        unreachable!()
    };
    Words::new(alloc, text)
}
