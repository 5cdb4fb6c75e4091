// The memory that a step works on.
ghost use Rattle.std.specs.Prelude.{◌≡◌, ◌≤◌, ◌<◌, ◌+◌, ℕ, false, leb, length};
ghost use Rattle.model.specs.Layout.{Memory, top_level, capacity, node_words, version_words, key, newest, next, lock, timestamp, version_at, with_newest, with_next, with_lock, with_node, with_version};
ghost use Rattle.model.specs.Phases.{ahead, used_node, used_version};
ghost use Rattle.model.specs.declared.types.Ahead.TheVariants.{Equal};
ghost use Rattle.tables.specs.Room.{Lent, NodeRoom, VersionRoom, memory};

use crate::versions::{timestamp_at, version_at, versions_full, write_version};
use model::types::{Ahead, Counts, Key, Version};
use tables::nodes::{
    ahead, key_at, lock_at, newest_at, next_at, nodes_full, set_lock, set_newest, set_next,
    write_node,
};

// Both tables, lent to be written, and the nodes and versions in use.
#[derive(Drop)]
pub struct Memory<'a> {
    pub nodes: &'a mut [u32],
    pub versions: &'a mut [u32],
    pub counts: Counts,
    ghost lent: { Lent nodes.now versions.now counts },
}

impl Memory<'_> {
    ghost use Rattle.versiontable.specs.Held.{held, SameTables};

    pub fn key(&self, node: u32) -> Key
        requires { node ≤ self.now.counts.nodes }
        ensures { result ≡ key self.now.nodes.now node }
    {
        key_at(self.nodes, node)
    }

    pub fn newest(&self, node: u32) -> u32
        requires { node ≤ self.now.counts.nodes }
        ensures { result ≡ newest self.now.nodes.now node }
    {
        newest_at(self.nodes, node)
    }

    pub fn next(&self, level: u32, node: u32) -> u32
        requires node { node ≤ self.now.counts.nodes }
        requires level { level ≤ top_level }
        ensures { result ≡ next self.now.nodes.now level node }
    {
        next_at(self.nodes, level, node)
    }

    pub fn lock(&self, level: u32, node: u32) -> u32
        requires node { node ≤ self.now.counts.nodes }
        requires level { level ≤ top_level }
        ensures { result ≡ lock self.now.nodes.now level node }
    {
        lock_at(self.nodes, level, node)
    }

    // Where the link of a node leads, against a key.
    pub fn ahead(&self, level: u32, pred: u32, key: Key) -> Ahead
        requires pred { pred ≤ self.now.counts.nodes }
        requires level { level ≤ top_level }
        ensures ahead { result ≡ ahead (held self.now) level pred key }
        ensures not_head { (node : ℕ) → result ≡ Equal node → 0 < node }
    {
        ahead(self.nodes, self.counts.nodes, level, pred, key)
    }

    pub fn timestamp(&self, version: u32) -> u32
        requires { version ≤ self.now.counts.versions }
        ensures { result ≡ timestamp self.now.versions.now version }
    {
        timestamp_at(self.versions, version)
    }

    pub fn version(&self, version: u32) -> Version
        requires { version ≤ self.now.counts.versions }
        ensures { result ≡ version_at self.now.versions.now version }
    {
        version_at(self.versions, version)
    }

    // Whether a node other than the head is in use.
    pub fn has_node(&self, node: u32) -> bool
        ensures { result ≡ used_node (held self.now) node }
    {
        (1..=self.counts.nodes).contains(&node)
    }

    pub fn has_version(&self, version: u32) -> bool
        ensures { result ≡ used_version (held self.now) version }
    {
        (1..=self.counts.versions).contains(&version)
    }

    // Whether the table has no room for a node after the last one in use.
    pub fn nodes_full(&self) -> bool
        ensures full { result ≡ leb (capacity node_words (length self.now.nodes.now)) self.now.counts.nodes }
        ensures room { result ≡ false → NodeRoom self.now.nodes.now (self.now.counts.nodes + 1) }
    {
        nodes_full(self.nodes, self.counts.nodes)
    }

    pub fn versions_full(&self) -> bool
        ensures full { result ≡ leb (capacity version_words (length self.now.versions.now)) self.now.counts.versions }
        ensures room { result ≡ false → VersionRoom self.now.versions.now (self.now.counts.versions + 1) }
    {
        versions_full(self.versions, self.counts.versions)
    }

    pub fn set_newest(&mut self, node: u32, version: u32)
        requires { node ≤ self.old.counts.nodes }
        ensures memory { held self.new ≡ record (held self.old) { nodes = with_newest self.old.nodes.now node version } }
        ensures tables { SameTables self.old self.new }
    {
        set_newest(self.nodes, node, version);
    }

    pub fn set_next(&mut self, level: u32, node: u32, to: u32)
        requires node { node ≤ self.old.counts.nodes }
        requires level { level ≤ top_level }
        ensures memory { held self.new ≡ record (held self.old) { nodes = with_next self.old.nodes.now level node to } }
        ensures tables { SameTables self.old self.new }
    {
        set_next(self.nodes, level, node, to);
    }

    pub fn set_lock(&mut self, level: u32, node: u32, holder: u32)
        requires node { node ≤ self.old.counts.nodes }
        requires level { level ≤ top_level }
        ensures memory { held self.new ≡ record (held self.old) { nodes = with_lock self.old.nodes.now level node holder } }
        ensures tables { SameTables self.old self.new }
    {
        set_lock(self.nodes, level, node, holder);
    }

    // A version after the last one in use, and its index.
    pub fn add_version(&mut self, value: u32, timestamp: u32, prev: u32) -> u32
        requires { VersionRoom self.old.versions.now (self.old.counts.versions + 1) }
        ensures index { result ≡ self.old.counts.versions + 1 }
        ensures memory { held self.new ≡ memory self.old.nodes.now
            (with_version self.old.versions.now (self.old.counts.versions + 1) (record { value = value; timestamp = timestamp }) prev)
            (record { nodes = self.old.counts.nodes; versions = self.old.counts.versions + 1 }) }
        ensures tables { SameTables self.old self.new }
    {
        let version = self.counts.versions + 1;
        write_version(self.versions, version, value, timestamp, prev);
        self.counts.versions = version;
        version
    }

    // A node after the last one in use, and its index.
    pub fn add_node(&mut self, key: Key, version: u32, top: u32, next: u32) -> u32
        requires { NodeRoom self.old.nodes.now (self.old.counts.nodes + 1) }
        ensures index { result ≡ self.old.counts.nodes + 1 }
        ensures memory { held self.new ≡ memory
            (with_node self.old.nodes.now (self.old.counts.nodes + 1) key version top next) self.old.versions.now
            (record { nodes = self.old.counts.nodes + 1; versions = self.old.counts.versions }) }
        ensures tables { SameTables self.old self.new }
    {
        let node = self.counts.nodes + 1;
        write_node(self.nodes, node, key, version, top, next);
        self.counts.nodes = node;
        node
    }
}
