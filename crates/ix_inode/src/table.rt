ghost use Rattle.std.specs.Prelude.{◌≡◌, IsTrue, IfOk, is_some, Some, None, replicate};
ghost use Rattle.std.specs.Option.{option_copied};
ghost use Rattle.ix_model.specs.world.World.{at, put, lowest_free};
ghost use Rattle.ix_inode.specs.Shown.{taken};

use crate::node::Node;
use ix_model::NoMemory;
use ix_numbers::Numbers;
use std::alloc::Global;
use std::marker::Model;

/// The inodes of one file system, by their numbers in it. A new one takes the lowest free number.
#[derive(Drop)]
pub(crate) struct Table {
    nodes: Vec<Option<Node>>,
    numbers: Numbers,
}

impl Model for Table {
    ghost use Rattle.std.specs.{Prelude.{◌≡◌, List, Option}, Coded.{codes}};
    ghost use Rattle.ix_numbers.specs.Marks.{vacancies};
    ghost use Rattle.ix_inode.specs.declared.node.Node.{Node};
    ghost use Rattle.ix_label.specs.contracts.label.Label as label_type;

    ghost Value = { List (Option Node) };

    ghost coded = { Prim.hlevel (codes, label_type.the_row.coded) };

    ghost view = { λ t. t.nodes.items };

    ghost invariant = { λ t. t.numbers ≡ vacancies t.nodes.items };
}

impl Table {
    /// So many numbers, all free.
    pub(crate) fn new(alloc: Global, inodes: u32) -> Result<Table, NoMemory>
        ensures { IfOk result (λ t. t ≡ replicate inodes None) }
    {
        let mut nodes = Vec::with_capacity(alloc, inodes as usize)?;
        let numbers = Numbers::new(alloc, inodes)?;
        for _n in 0..inodes {
            nodes.push(None)?;
        }
        Ok(Table { nodes, numbers })
    }

    /// The lowest free number; None where none is free.
    pub(crate) fn vacant(&self) -> Option<u32>
        ensures { result ≡ lowest_free self.now }
    {
        self.numbers.first()
    }

    /// Puts a new inode at the lowest free number; None, with no change, where none is free.
    pub(crate) fn take(&mut self, node: Node) -> Option<u32>
        ensures number { result ≡ lowest_free self.old }
        ensures taken { self.new ≡ taken result node self.old }
    {
        let n = self.numbers.take()?;
        self.nodes[n as usize] = Some(node);
        Some(n)
    }

    /// The inode of a number, if one stands there.
    pub(crate) fn get(&self, n: u32) -> Option<&Node>
        ensures { option_copied result ≡ at self.now n }
    {
        match self.nodes.get(n as usize) {
            Some(Some(node)) => Some(node),
            _ => None,
        }
    }

    /// The inode of a number at which one stands.
    pub(crate) fn node(&self, n: u32) -> Node
        requires { IsTrue (is_some (at self.now n)) }
        ensures { at self.now n ≡ Some result }
    {
        match self.get(n) {
            Some(node) => *node,
            None => unreachable!(),
        }
    }

    /// Puts an inode in the place of one.
    pub(crate) fn set(&mut self, n: u32, node: Node)
        requires { IsTrue (is_some (at self.old n)) }
        ensures { self.new ≡ put self.old n (Some node) }
    {
        self.nodes[n as usize] = Some(node);
    }

    /// Lets an inode go; its number is free from then on.
    pub(crate) fn release(&mut self, n: u32)
        requires { IsTrue (is_some (at self.old n)) }
        ensures { self.new ≡ put self.old n None }
    {
        self.nodes[n as usize] = None;
        self.numbers.give(n);
    }
}
