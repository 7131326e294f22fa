//! The run of a node outside of it, with one element more than it may have.
ghost use Rattle.std.specs.Prelude.{◌≡◌, ◌<◌, ◌≤◌, ◌++◌, ◌∷◌, [], length, map};
ghost use Rattle.std.specs.List.{insert};
ghost use Rattle.arrayvec.specs.ArrayVec.{array_vec_len};
ghost use Rattle.node_arena.specs.Insertions.{put_in};
ghost use Rattle.node_arena.specs.Packing.{unpacked};
ghost use Rattle.node_arena.specs.declared.parting.TheConstants.{MOST_TO_PART};

use crate::elements::Elem;
use crate::node_views::NodeView;
use crate::packing::Packed;
use arrayvec::ArrayVec;

/// As many elements as a full run has with one more: `MOST_ELEMENTS`, and 1.
pub const MOST_TO_PART: usize = 17;

/// A copy of a few items.
pub fn copied<T: Copy + Default, const N: usize>(items: &[T]) -> ArrayVec<T, N>
    requires room { length items.now ≤ N }
    ensures items { result.items ≡ items.now }
{
    match ArrayVec::try_from(items) {
        Ok(copy) => copy,
        Err(_) => unreachable!(),
    }
}

/// Puts an item behind the others.
fn push<T: Copy + Default, const N: usize>(list: &mut ArrayVec<T, N>, item: T)
    requires room { array_vec_len list.old < N }
    ensures items { list.new.items ≡ list.old.items ++ item ∷ [] }
{
    list.push(item);
}

/// Puts an item in at a place.
fn put<T: Copy + Default, const N: usize>(list: &mut ArrayVec<T, N>, place: usize, item: T)
    requires room { array_vec_len list.old < N }
    requires within { place ≤ array_vec_len list.old }
    ensures items { list.new.items ≡ insert list.old.items place item }
{
    list.insert(place, item);
}

/// Elements as they are outside of nodes.
fn run_of(packed: &[Packed]) -> ArrayVec<Elem, MOST_TO_PART>
    requires room { length packed.now < MOST_TO_PART }
    ensures value { result.items ≡ map unpacked packed.now }
{
    let mut run = ArrayVec::new();
    for elem in packed {
        push(&mut run, elem.elem());
    }
    run
}

impl<'a> NodeView<'a> {
    /// The elements, with another one at its place. It takes no memory.
    #[tactic(auto, using(crate::proofs::PutInLemmas::run_laws))]
    pub fn run_with(&self, elem: &Elem) -> ArrayVec<Elem, MOST_TO_PART>
        requires room { length self.now.run < MOST_TO_PART }
        ensures value { result.items ≡ put_in elem.now self.now.run }
    {
        let mut run = run_of(self.packed());
        put(&mut run, self.place(elem.at), *elem);
        run
    }
}
