ghost use Rattle.std.specs.Prelude.{◌≡◌, ◌<◌, ◌≤◌, ◌+◌, ◌++◌, ◌∷◌, [], if◌then◌else◌, ◌==◌, ◌||◌, IfNone, IfSome, OnOk, OnErr, vec_len, vec_capacity};
ghost use Rattle.lock_wire.specs.Parts.{IsFirstOn};
ghost use Rattle.lock_wire.specs.Packets.{IsOfResource, is_on, without_posts, first, rest, link_of};
ghost use Rattle.lock_wire.specs.Parts.{links_of};
ghost use Rattle.lock_wire.specs.Machine.{with_cell};

use crate::Packet;
use mdc_types::NodeId;
use std::alloc::{AllocError, Global};
use std::marker::Model;

/// A packet on its way from a node to a node.
#[derive(Clone, Copy)]
pub struct Post {
    pub from: NodeId,
    pub to: NodeId,
    pub packet: Packet,
}

// The links between all pairs of nodes, a node with itself too. Each keeps its packets in order.
#[derive(Drop)]
pub struct Links {
    // All packets, in the order in which they were sent.
    posts: Vec<Post>,
}

impl Model for Links {
    ghost use Rattle.std.specs.Prelude.{◌-◌, vec_len, vec_capacity};
    ghost use Rattle.lock_wire.specs.Packets.{AreOfResources};
    ghost use Rattle.lock_wire.specs.Parts.{Links};

    ghost Value = { Links };

    ghost view = { λ l. record { posts = l.posts.items; room = vec_capacity l.posts - vec_len l.posts } };

    ghost invariant = { λ l. AreOfResources l.posts.items };
}

fn is_on(p: &Post, from: NodeId, to: NodeId) -> bool
    ensures { result ≡ is_on from to p.now }
{
    p.from == from && p.to == to
}

// Where the first packet on the link lies.
fn first_at(posts: &[Post], from: NodeId, to: NodeId) -> Option<usize>
    ensures found { IfSome result (λ i. IsFirstOn posts.now from to i) }
    ensures none { IfNone result (link_of posts.now from to ≡ []) }
{
    for (i, p) in posts.iter().enumerate() {
        if is_on(p, from, to) {
            return Some(i);
        }
    }
    None
}

// Drops all posts from the node and to it.
fn drop_posts(posts: &mut Vec<Post>, n: NodeId)
    ensures items { posts.new.items ≡ without_posts n posts.old.items }
    ensures fewer { vec_len posts.new ≤ vec_len posts.old }
    ensures capacity { vec_capacity posts.new ≡ vec_capacity posts.old }
{
    posts.retain(|p| p.from != n && p.to != n);
}

impl Links {
    // Empty links.
    pub fn new(alloc: Global) -> Links
        ensures { links_of result ≡ (λ a b. []) }
    {
        Links {
            posts: Vec::new(alloc),
        }
    }

    // Makes room for so many more packets.
    pub fn reserve(&mut self, count: usize) -> Result<(), AllocError>
        ensures ok { OnOk result (count ≤ self.new.room) }
        ensures same { links_of self.new ≡ links_of self.old }
        ensures err { OnErr result (self.new ≡ self.old) }
    {
        self.posts.reserve(count)
    }

    // The first packet on the link.
    pub fn first(&self, from: NodeId, to: NodeId) -> Option<Packet>
        ensures first { result ≡ first (links_of self.now from to) }
        ensures range { IfSome result (λ p. IsOfResource p) }
    {
        let at = first_at(&self.posts, from, to)?;
        Some(self.posts[at].packet)
    }

    // Takes the first packet off the link, if there is one.
    pub fn take(&mut self, from: NodeId, to: NodeId)
        ensures taken { let old = links_of self.old in links_of self.new
            ≡ with_cell old from to (rest (old from to)) }
        ensures room { self.old.room ≤ self.new.room }
    {
        if let Some(at) = first_at(&self.posts, from, to) {
            let _ = self.posts.remove(at);
        }
    }

    // Sends a packet, for which there is room.
    pub fn send(&mut self, from: NodeId, to: NodeId, packet: Packet)
        requires room { 0 < self.old.room }
        requires range { IsOfResource packet }
        ensures sent { let old = links_of self.old in links_of self.new
            ≡ with_cell old from to (old from to ++ packet ∷ []) }
        ensures room { self.new.room + 1 ≡ self.old.room }
    {
        self.posts.push_reserved(Post { from, to, packet });
    }

    // Drops all packets from the node and to it.
    pub fn drop_node(&mut self, n: NodeId)
        ensures gone { links_of self.new
            ≡ (λ a b. if (a == n) || (b == n) then [] else links_of self.old a b) }
        ensures room { self.old.room ≤ self.new.room }
    {
        drop_posts(&mut self.posts, n);
    }
}
