//! Nodes of one size under numbers.
ghost use Rattle.std.specs.Prelude.{◌≡◌, ◌≢◌, ◌<◌, ◌≤◌, ◌+◌, ◌-◌, ℕ, None, Some, IsSome, IsSomeAnd, IfSome, OnOk, length, slice_get, slice_set, take};
ghost use Rattle.slab.specs.Slab.{get, Updates, HasRoomFor, slab_len};
ghost use Rattle.node_arena.specs.Arenas.{NodeState, with_elem, without_elem};
ghost use Rattle.node_arena.specs.Stores.{usable, Alters};
ghost use Rattle.node_arena.specs.declared.numbers.TheConstants.{NO_NUMBER};

use crate::elements::Elem;
use crate::numbers::{NO_NUMBER, NodeId};
use crate::sized::Sized;
use slab::Slab;

/// Keeps a node of this kind with these elements and links, and answers its number.
pub(crate) fn make<const E: usize, const L: usize>(
    slab: &mut Slab<Sized<E, L>>,
    kind: u32,
    run: &[Elem],
    links: &[Option<NodeId>],
) -> usize
    requires room { HasRoomFor slab.old 1 }
    requires run { length run.now ≤ E }
    requires links { length links.now ≤ L }
    ensures is_new { get slab.old result ≡ None }
    ensures node { Updates slab.old slab.new result (Some (record { kind = kind; run = run.now; links = links.now })) }
    ensures len { slab_len slab.new ≡ slab_len slab.old + 1 }
    ensures in_range { result < slab.new.capacity }
    ensures capacity { slab.new.capacity ≡ slab.old.capacity }
{
    slab.insert_reserved(Sized::of(kind, run, links))
}

/// Puts a node in the place of another.
pub(crate) fn put<const E: usize, const L: usize>(
    slab: &mut Slab<Sized<E, L>>,
    id: usize,
    kind: u32,
    run: &[Elem],
    links: &[Option<NodeId>],
)
    requires there { IsSome (get slab.old id) }
    requires run { length run.now ≤ E }
    requires links { length links.now ≤ L }
    ensures node { Alters slab.old slab.new id (record { kind = kind; run = run.now; links = links.now }) }
{
    slab[id] = Sized::of(kind, run, links);
}

/// Puts an element into a node, and a link behind the link of that place if one is given.
pub(crate) fn insert<const E: usize, const L: usize>(
    slab: &mut Slab<Sized<E, L>>,
    id: usize,
    place: usize,
    elem: Elem,
    right: Option<NodeId>,
)
    requires there { IsSomeAnd (get slab.old id) (λ n. (place ≤ length n.run) × (length n.run < E)) }
    requires link { IsSomeAnd (get slab.old id) (λ n. IfSome right (λ _. (place < length n.links) × (length n.links < L))) }
    ensures node { IfSome (get slab.old id) (λ n. Alters slab.old slab.new id (with_elem n place elem right)) }
{
    slab[id].insert(place, elem, right);
}

/// Takes an element out of a node, and a link if its place is given.
pub(crate) fn remove<const E: usize, const L: usize>(
    slab: &mut Slab<Sized<E, L>>,
    id: usize,
    place: usize,
    link: Option<usize>,
) -> Elem
    requires there { IsSomeAnd (get slab.old id) (λ n. (place < length n.run) × IfSome link (λ j. j < length n.links)) }
    ensures elem { IfSome (get slab.old id) (λ n. slice_get n.run place ≡ Some result) }
    ensures node { IfSome (get slab.old id) (λ n. Alters slab.old slab.new id (without_elem n place link)) }
{
    slab[id].remove(place, link)
}

/// Puts an element in the place of another.
pub(crate) fn replace<const E: usize, const L: usize>(
    slab: &mut Slab<Sized<E, L>>,
    id: usize,
    place: usize,
    elem: Elem,
)
    requires there { IsSomeAnd (get slab.old id) (λ n. place < length n.run) }
    ensures node { IfSome (get slab.old id) (λ n. Alters slab.old slab.new id (record n { run = slice_set n.run place elem })) }
{
    slab[id].replace(place, elem);
}

/// Keeps the first elements of a node, which has these links then.
pub(crate) fn cut<const E: usize, const L: usize>(
    slab: &mut Slab<Sized<E, L>>,
    id: usize,
    keep: usize,
    links: &[Option<NodeId>],
)
    requires there { IsSome (get slab.old id) }
    requires links { length links.now ≤ L }
    ensures node { IfSome (get slab.old id) (λ n. Alters slab.old slab.new id (record n { run = take keep n.run; links = links.now })) }
{
    slab[id].cut(keep, links);
}

/// A node has these links then.
pub(crate) fn set_links<const E: usize, const L: usize>(
    slab: &mut Slab<Sized<E, L>>,
    id: usize,
    links: &[Option<NodeId>],
)
    requires there { IsSome (get slab.old id) }
    requires links { length links.now ≤ L }
    ensures node { IfSome (get slab.old id) (λ n. Alters slab.old slab.new id (record n { links = links.now })) }
{
    slab[id].set_links(links);
}

/// Takes a node out.
pub(crate) fn free<const E: usize, const L: usize>(slab: &mut Slab<Sized<E, L>>, id: usize)
    requires there { IsSome (get slab.old id) }
    ensures node { Updates slab.old slab.new id None }
    ensures room { slab.old.capacity ≤ NO_NUMBER → usable slab.new.capacity - slab_len slab.new ≡ usable slab.old.capacity - slab_len slab.old + 1 }
    ensures capacity { slab.new.capacity ≡ slab.old.capacity }
{
    slab.remove(id);
}

/// Takes room for so many more nodes, and for as many as there are if that can be had. It takes none where the nodes would be more than the
/// numbers.
pub(crate) fn reserve<const E: usize, const L: usize>(slab: &mut Slab<Sized<E, L>>, nodes: u32)
    ensures slots { slab.new.slots ≡ slab.old.slots }
    ensures capacity { slab.old.capacity ≤ slab.new.capacity }
{
    let nodes = nodes as usize;
    let left = NO_NUMBER as usize - nodes;
    if slab.len() > left {
        return;
    }
    let all = slab.len().max(nodes).min(NO_NUMBER as usize - slab.len());
    if slab.reserve(all).is_err() {
        let _ = slab.reserve(nodes);
    }
}

/// How many more nodes can be made without memory, whose numbers have 32 bits.
pub(crate) fn spare<const E: usize, const L: usize>(slab: &Slab<Sized<E, L>>) -> u32
    ensures value { result ≡ usable slab.now.capacity - slab_len slab.now }
{
    let capacity = slab.capacity();
    if capacity <= NO_NUMBER as usize {
        (capacity - slab.len()) as u32
    } else {
        0
    }
}
