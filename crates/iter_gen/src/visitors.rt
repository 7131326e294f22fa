//! What is handed the elements of a walk.
ghost use Rattle.std.specs.Prelude.{◌≡◌};
ghost use Rattle.node_arena.specs.declared.elements.Elem.{Elem};

use node_arena::Elem;

/// Is handed the elements of a walk, one after another, until it stops the walk.
pub trait Visitor {
    ghost use Rattle.std.specs.Prelude.{Result};
    ghost use Rattle.node_arena.specs.declared.elements.Elem.{Elem};

    /// Why a walk was stopped.
    type Stop;

    /// Whether this element may be handed over.
    ghost allows: { Self → Elem → Type 0 };

    /// A visit of this element, with its answer, and what the visitor is then.
    ghost visits: { Self → Elem → Result (Unit {0}) Self.Stop → Self → Type 0 };

    /// Is handed an element. An `Err` stops the walk.
    fn visit(&mut self, elem: Elem) -> Result<(), Self::Stop>
        requires allowed { allows self.old elem }
        ensures visited { visits self.old elem result self.new }
        ensures kept { (e : Elem) → allows self.old e → allows self.new e };
}
