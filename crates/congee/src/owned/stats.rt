//! How the nodes of a tree are spread over levels and forms.
ghost use Rattle.std.specs.Prelude.{◌≡◌, ℕ, ◌*◌, ◌<◌, ◌≤◌, ◌^◌, OnOk, OnErr, Some, vec_len};
ghost use Rattle.congee.specs.owned.StatsText.{hundredths, filled_in, nodes_in, form_text, load_text, level_text, level_line, whole_text, stats_text};

use crate::forms::base_node::{N4_SIZE, N16_SIZE, N48_SIZE, N256_SIZE, NodeType};
use std::alloc::{AllocError, Global};
use std::fmt;

/// The nodes of one form on one level, and their children.
#[derive(Clone, Copy, PartialEq, Eq, Debug)]
pub struct NodeInfo {
    /// How many nodes.
    pub node_count: u64,
    /// How many children these nodes have: values or nodes below.
    pub value_count: u64,
}

/// The nodes of one level by form.
#[derive(Clone, Copy, PartialEq, Eq, Debug)]
pub struct LevelStats {
    pub n4: NodeInfo,
    pub n16: NodeInfo,
    pub n48: NodeInfo,
    pub n256: NodeInfo,
}

/// The nodes of a tree by level, the root's first, and how many pairs it holds.
///
/// Its text has a line for each level and four lines for the whole.
#[derive(Clone, PartialEq, Eq, Debug, Drop)]
pub struct NodeStats {
    pub levels: Vec<LevelStats>,
    pub kv_pairs: u64,
}

const NO_NODES: NodeInfo = NodeInfo {
    node_count: 0,
    value_count: 0,
};

const EMPTY_LEVEL: LevelStats = LevelStats {
    n4: NO_NODES,
    n16: NO_NODES,
    n48: NO_NODES,
    n256: NO_NODES,
};

impl NodeInfo {
    ghost use Rattle.congee.specs.owned.Stats.{capped_info, one_more};
    ghost use Rattle.congee.specs.owned.StatsText.{added};

    /// Counts one more node with its children.
    fn count(&mut self, children: u64)
        ensures { self.new ≡ capped_info (one_more children self.old) }
    {
        self.node_count = self.node_count.saturating_add(1);
        self.value_count = self.value_count.saturating_add(children);
    }

    /// Both counts added; a sum past `u64::MAX` stays there.
    fn plus(self, more: NodeInfo) -> NodeInfo
        ensures { result ≡ capped_info (added self more) }
    {
        NodeInfo {
            node_count: self.node_count.saturating_add(more.node_count),
            value_count: self.value_count.saturating_add(more.value_count),
        }
    }
}

impl LevelStats {
    ghost use Rattle.congee.specs.owned.Stats.{capped_info, info_of, one_more};
    ghost use Rattle.congee.specs.declared.forms.base_node.NodeType.{NodeType};

    /// What the level has of a form.
    fn info(&self, form: NodeType) -> NodeInfo
        ensures { result ≡ info_of form self.now }
    {
        match form {
            NodeType::N4 => self.n4,
            NodeType::N16 => self.n16,
            NodeType::N48 => self.n48,
            NodeType::N256 => self.n256,
        }
    }

    /// Counts one more node with its children.
    fn count(&mut self, form: NodeType, children: u64)
        ensures here { info_of form self.new ≡ capped_info (one_more children (info_of form self.old)) }
        ensures others { (f : NodeType) → (f ≡ form → ⊥) → info_of f self.new ≡ info_of f self.old }
    {
        match form {
            NodeType::N4 => self.n4.count(children),
            NodeType::N16 => self.n16.count(children),
            NodeType::N48 => self.n48.count(children),
            NodeType::N256 => self.n256.count(children),
        }
    }
}

impl NodeStats {
    ghost use Rattle.congee.specs.owned.Stats.{info_at, no_nodes, Counts};
    ghost use Rattle.congee.specs.owned.StatsText.{total, total_of};
    ghost use Rattle.congee.specs.declared.forms.base_node.NodeType.{NodeType};

    /// No nodes and no pairs.
    pub fn new(alloc: Global) -> Self
        ensures nodes { (level : ℕ) (form : NodeType) → info_at result level form ≡ no_nodes }
        ensures levels { vec_len result.levels ≡ 0 }
        ensures pairs { result.kv_pairs ≡ 0 }
    {
        NodeStats {
            levels: Vec::new(alloc),
            kv_pairs: 0,
        }
    }

    /// Counts one more node with its children, at most one level below those counted so far.
    /// A number past `u64::MAX` stays there. It is refused for want of memory alone, and changes nothing then.
    pub fn count(&mut self, level: usize, form: NodeType, children: u64) -> Result<(), AllocError>
        requires next { level ≤ vec_len self.old.levels }
        ensures counted { OnOk result (Counts self.old self.new level form children) }
        ensures unchanged { OnErr result ((self.new.levels.items ≡ self.old.levels.items) × (self.new.kv_pairs ≡ self.old.kv_pairs)) }
    {
        if level == self.levels.len() {
            self.levels.push(EMPTY_LEVEL)?;
        }
        self.levels[level].count(form, children);
        Ok(())
    }

    /// The nodes of a form on all levels, and their children; a sum past `u64::MAX` stays there.
    fn total_of(&self, form: NodeType) -> NodeInfo
        ensures { result ≡ total_of form self.now.levels.items }
    {
        let mut total = NO_NODES;
        for level in &self.levels {
            total = total.plus(level.info(form));
        }
        total
    }

    /// The levels taken together; a sum past `u64::MAX` stays there.
    fn total(&self) -> LevelStats
        ensures { result ≡ total self.now.levels.items }
    {
        LevelStats {
            n4: self.total_of(NodeType::N4),
            n16: self.total_of(NodeType::N16),
            n48: self.total_of(NodeType::N48),
            n256: self.total_of(NodeType::N256),
        }
    }
}

impl LevelStats {
    ghost use Rattle.congee.specs.owned.StatsText.{entries_in, bytes_in};

    /// The nodes of all forms.
    fn node_count(&self) -> u128
        ensures small { result < 2 ^ 66 }
        ensures sum { result ≡ nodes_in self.now }
    {
        self.n4.node_count as u128
            + self.n16.node_count as u128
            + self.n48.node_count as u128
            + self.n256.node_count as u128
    }

    /// The children of the nodes of all forms: values or nodes below.
    fn value_count(&self) -> u128
        ensures { result ≡ entries_in self.now }
    {
        self.n4.value_count as u128
            + self.n16.value_count as u128
            + self.n48.value_count as u128
            + self.n256.value_count as u128
    }

    /// In bytes.
    fn memory_size(&self) -> u128
        ensures { result ≡ bytes_in self.now }
    {
        N4_SIZE as u128 * self.n4.node_count as u128
            + N16_SIZE as u128 * self.n16.node_count as u128
            + N48_SIZE as u128 * self.n48.node_count as u128
            + N256_SIZE as u128 * self.n256.node_count as u128
    }

    /// The children by the places of their nodes' form, in parts of 768.
    fn filled(&self) -> u128
        ensures small { result < 2 ^ 73 }
        ensures sum { result ≡ filled_in self.now }
    {
        192 * self.n4.value_count as u128
            + 48 * self.n16.value_count as u128
            + 16 * self.n48.value_count as u128
            + 3 * self.n256.value_count as u128
    }
}

/// How much of the places is taken, in hundredths, cut off; 0 where there are none.
fn load(taken: u128, places: u128) -> u128
    requires { taken < 2 ^ 100 }
    ensures { result ≡ hundredths taken places }
{
    if places == 0 { 0 } else { taken * 100 / places }
}

// The nodes of one form, with their share of taken places.
#[derive(Clone, Copy)]
struct FormText {
    form: NodeType,
    info: NodeInfo,
}

impl fmt::Display for FormText {
    ghost output = { λ t. Some (form_text t.form t.info) };

    fn fmt<W: fmt::Write>(&self, f: &mut fmt::Formatter<W>) -> fmt::Result {
        let nodes = self.info.node_count;
        let load = load(
            self.info.value_count as u128,
            nodes as u128 * self.form.capacity() as u128,
        );
        write!(f, "{nodes:8}, {:5}.{:02}", load / 100, load % 100)
    }
}

impl fmt::Display for LevelStats {
    ghost output = { λ level. Some (level_text level) };

    #[tactic(auto, unfolding(crate::specs::owned::StatsText::level_text))]
    fn fmt<W: fmt::Write>(&self, f: &mut fmt::Formatter<W>) -> fmt::Result {
        let n4 = FormText {
            form: NodeType::N4,
            info: self.n4,
        };
        let n16 = FormText {
            form: NodeType::N16,
            info: self.n16,
        };
        let n48 = FormText {
            form: NodeType::N48,
            info: self.n48,
        };
        let n256 = FormText {
            form: NodeType::N256,
            info: self.n256,
        };
        write!(
            f,
            "|| N4: {n4} || N16: {n16} || N48: {n48} || N256: {n256} ||"
        )
    }
}

// A level with its number.
#[derive(Clone, Copy)]
struct LevelLine {
    number: usize,
    level: LevelStats,
}

impl fmt::Display for LevelLine {
    ghost output = { λ l. Some (level_line (l.number, l.level)) };

    #[tactic(auto, unfolding(crate::specs::owned::StatsText::level_line))]
    fn fmt<W: fmt::Write>(&self, f: &mut fmt::Formatter<W>) -> fmt::Result {
        writeln!(f, "Level: {} --- {}", self.number, self.level)
    }
}

// How much of all places is taken, with a remark where it is less than half.
#[derive(Clone, Copy)]
struct LoadText {
    total: LevelStats,
}

impl fmt::Display for LoadText {
    ghost output = { λ t. Some (load_text (filled_in t.total) (768 * nodes_in t.total)) };

    fn fmt<W: fmt::Write>(&self, f: &mut fmt::Formatter<W>) -> fmt::Result {
        let load = load(self.total.filled(), 768 * self.total.node_count());
        let remark = if load < 50 { " (too low)" } else { "" };
        write!(f, "{}.{:02}{remark}", load / 100, load % 100)
    }
}

// All levels taken together, with the number of pairs.
#[derive(Clone, Copy)]
struct WholeText {
    total: LevelStats,
    pairs: u64,
}

impl fmt::Display for WholeText {
    ghost output = { λ t. Some (whole_text t.total t.pairs) };

    fn fmt<W: fmt::Write>(&self, f: &mut fmt::Formatter<W>) -> fmt::Result {
        let nodes = self.total.node_count();
        let entries = self.total.value_count();
        let load = LoadText { total: self.total };
        let memory = self.total.memory_size() / 1_048_576;
        writeln!(f, "Overall node count: {nodes}, entry count: {entries}")?;
        writeln!(f, "Load factor: {load}")?;
        writeln!(f, "Active memory usage: {memory} Mb")?;
        writeln!(f, "KV count: {}", self.pairs)
    }
}

impl fmt::Display for NodeStats {
    ghost output = { λ stats. Some (stats_text stats) };

    fn fmt<W: fmt::Write>(&self, f: &mut fmt::Formatter<W>) -> fmt::Result {
        for (number, level) in self.levels.iter().enumerate() {
            let line = LevelLine {
                number,
                level: *level,
            };
            write!(f, "{line}")?;
        }
        let whole = WholeText {
            total: self.total(),
            pairs: self.kv_pairs,
        };
        write!(f, "{whole}")
    }
}
