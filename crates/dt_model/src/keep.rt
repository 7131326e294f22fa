//! What a latch guards.
ghost use Rattle.std.specs.Prelude.{ℕ};
ghost use Rattle.dt_model.specs.declared.declared_tensors.Decls.{Decls};
ghost use Rattle.dt_model.specs.Contents.{Contents};

/// What a latch guards: a store of cells. `content` is the number in each cell of every tensor, 0
/// where the store has none; `sound` says that it has the shape which the declarations give the
/// latch of this number.
pub trait Keep: Drop {
    ghost use Rattle.std.specs.Prelude.{ℕ};
    ghost use Rattle.dt_model.specs.declared.declared_tensors.Decls.{Decls};
    ghost use Rattle.dt_model.specs.Contents.{Contents};

    ghost content: { Self → Contents };

    ghost sound: { Decls → ℕ → Self → Type 0 };
}
