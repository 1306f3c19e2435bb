use name_map::{NameList, NameMap};
use std::alloc::Global;

/// A node that was opened.
#[derive(Clone, Copy, Drop)]
pub(crate) struct Opened {
    /// The place of its name in its first body.
    pub(crate) at: u32,
    /// How many levels it is below the root.
    pub(crate) depth: u32,
}

/// The pieces of a value: from a place among all pieces to before another.
#[derive(Clone, Copy, Drop)]
pub(crate) struct Span {
    pub(crate) from: usize,
    pub(crate) to: usize,
}

/// What was set. The root is node 0, and the child that came as number k, from 0, is node k + 1.
pub(crate) struct Store {
    /// Where the root's first body stands.
    pub(crate) root_at: Option<u32>,
    /// The nodes but the root, by parent and name.
    pub(crate) children: NameMap<Opened>,
    /// The node of each label, which stands under 0.
    pub(crate) labels: NameMap<u32>,
    /// The values of properties, by node and name.
    pub(crate) properties: NameMap<Span>,
}

impl Drop for Store {
    /// Ends all parts, so that an owner's code has one call for it.
    fn drop(self) {
        let Store {
            root_at: _,
            children: _,
            labels: _,
            properties: _,
        } = self;
    }
}

/// What was set, when nothing more is set: no child is looked up by its name any more, and no label.
pub(crate) struct Settled {
    pub(crate) root_at: Option<u32>,
    pub(crate) children: NameList<Opened>,
    pub(crate) properties: NameMap<Span>,
}

impl Drop for Settled {
    /// Ends all parts, so that an owner's code has one call for it.
    fn drop(self) {
        let Settled {
            root_at: _,
            children: _,
            properties: _,
        } = self;
    }
}

impl Store {
    ghost use Rattle.std.specs.Prelude.{◌≡◌, ◌<◌, [], None, length};
    ghost use Rattle.dts_tree.specs.Content.{child_of, depth_of};
    ghost use Rattle.dts_tree.specs.Inside.Stored.{store_of};

    /// The root alone. Takes no memory.
    pub(crate) fn new(alloc: Global) -> Store
        ensures root_at { result.root_at ≡ None }
        ensures children { result.children ≡ [] }
        ensures labels { result.labels ≡ [] }
        ensures properties { result.properties ≡ [] }
    {
        Store {
            root_at: None,
            children: NameMap::new(alloc),
            labels: NameMap::new(alloc),
            properties: NameMap::new(alloc),
        }
    }

    /// The number of a node's child.
    pub(crate) fn child(&self, parent: u32, name: &[u8]) -> Option<u32>
        requires { length self.now.children < 4294967295 }
        ensures { result ≡ child_of self.now.children parent name.now }
    {
        match self.children.place(parent, name) {
            Some(place) => Some(place + 1),
            None => None,
        }
    }

    /// How many levels a node is below the root.
    pub(crate) fn depth(&self, node: u32) -> u32
        ensures { result ≡ depth_of self.now.children node }
    {
        if node == 0 {
            return 0;
        }
        match self.children.list().value(node as usize - 1) {
            Some(opened) => opened.depth,
            None => 0,
        }
    }

    /// What was set, and the labels.
    pub(crate) fn settled(self) -> (Settled, NameMap<u32>)
        ensures { store_of result.0 result.1 ≡ self }
    {
        let Store {
            root_at,
            children,
            labels,
            properties,
        } = self;
        let children = children.into_list();
        let settled = Settled {
            root_at,
            children,
            properties,
        };
        (settled, labels)
    }
}
