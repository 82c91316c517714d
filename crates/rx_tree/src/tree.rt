ghost use Rattle.std.specs.Prelude.{◌==◌};
ghost use Rattle.rx_tree.specs.Laws.{HaveOneRoot, ReachesItsRoot, RootIsNoFork, IsRootOfThoseBelow};
ghost use Rattle.rx_tree.specs.Laws.{HasFewSteps, JoinsWhatMeets};
ghost use Rattle.rx_tree.specs.Orders.{ListsThoseBelow, up, down};

use crate::fault::TreeFault;
use crate::orders::{levels_down, levels_up};
use crate::roots::{MOST_COLLECTIONS, join, own_roots};
use std::alloc::{AllocError, Global};
use std::marker::Model;

/// For tests, as rx_world has its replications by name: forks, each with its master, in the order
/// in which they became forks. A collection goes by its number in the order of making.
#[derive(Drop)]
pub struct Tree {
    forks: Vec<(u32, u32)>,
    // Of each collection.
    roots: [u32; MOST_COLLECTIONS],
}

impl Model for Tree {
    ghost use Rattle.std.specs.Prelude.{List, ℕ};
    ghost use Rattle.rx_tree.specs.Table.{IsTable};

    ghost Value = { List (ℕ × ℕ) };

    ghost view = { λ t. t.forks.items };

    ghost invariant = { λ t. IsTable t.roots t.forks.items };
}

impl Tree {
    ghost use Rattle.std.specs.Prelude.{◌≡◌, ◌<◌, ◌==◌, ◌++◌, ◌∷◌, [], IfOk, OnOk, OnErr};
    ghost use Rattle.rx_value.specs.Due.{Due};
    ghost use Rattle.rx_tree.specs.Forest.{root_of, is_fork, are_joined};
    ghost use Rattle.rx_tree.specs.Orders.{up, down};
    ghost use Rattle.rx_tree.specs.Table.{IsTree, may_add, most_collections};
    ghost use Rattle.rx_tree.specs.declared.fault.TreeFault.TheVariants.{Memory};

    pub fn new(alloc: Global) -> Tree
        ensures { result ≡ [] }
    {
        Tree {
            forks: Vec::new(alloc),
            roots: own_roots(),
        }
    }

    /// Makes a collection the fork of another.
    pub fn add(&mut self, fork: u32, master: u32) -> Result<(), TreeFault>
        requires fork { fork < most_collections }
        requires master { master < most_collections }
        ensures exact { Due Memory result (may_add self.old fork master) }
        ensures ok { OnOk result (self.new ≡ self.old ++ (fork, master) ∷ []) }
        ensures err { OnErr result (self.new ≡ self.old) }
    {
        if self.is_fork(fork) {
            return Err(TreeFault::Twice);
        }
        let top = self.root(master);
        if top == fork {
            return Err(TreeFault::Cycle);
        }
        let under = self.root(fork);
        self.forks.push((fork, master))?;
        join(&mut self.roots, under, top);
        Ok(())
    }

    pub fn is_fork(&self, collection: u32) -> bool
        ensures { result ≡ is_fork ◌==◌ self.now collection }
    {
        self.forks.iter().any(|pair| pair.0 == collection)
    }

    /// Where going from a fork to its master ends.
    pub fn root(&self, collection: u32) -> u32
        requires { collection < most_collections }
        ensures { result ≡ root_of ◌==◌ self.now collection }
    {
        self.roots[collection as usize]
    }

    /// Whether two collections are of one group, as forks and masters join them.
    pub fn are_joined(&self, first: u32, second: u32) -> bool
        requires first { first < most_collections }
        requires second { second < most_collections }
        ensures { result ≡ are_joined ◌==◌ self.now first second }
    {
        self.root(first) == self.root(second)
    }

    /// The forks below a collection, each after those below it, and by rising number.
    pub fn up(&self, alloc: Global, collection: u32) -> Result<Vec<u32>, AllocError>
        ensures order { IfOk result (λ order. order.items ≡ up self.now collection) }
        ensures lawful { IsTree self.now }
    {
        levels_up(alloc, self.forks.as_slice(), self.forks.len(), collection)
    }

    /// The same, each before those below it.
    pub fn down(&self, alloc: Global, collection: u32) -> Result<Vec<u32>, AllocError>
        ensures order { IfOk result (λ order. order.items ≡ down self.now collection) }
        ensures lawful { IsTree self.now }
    {
        levels_down(alloc, self.forks.as_slice(), self.forks.len(), collection)
    }
}

/// States what holds of every tree, and does nothing.
pub fn tree_laws()
    ensures one_root { HaveOneRoot ◌==◌ }
    ensures reached { ReachesItsRoot ◌==◌ }
    ensures no_fork { RootIsNoFork ◌==◌ }
    ensures below { IsRootOfThoseBelow ◌==◌ }
    ensures few { HasFewSteps ◌==◌ }
    ensures joined { JoinsWhatMeets ◌==◌ }
    ensures up { ListsThoseBelow up }
    ensures down { ListsThoseBelow down }
{}
