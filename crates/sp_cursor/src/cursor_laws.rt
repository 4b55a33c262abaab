//! A law of cursors: the contract of a function that does nothing of its own.

ghost use Rattle.sp_model.specs.declared.parts.ModelParts.{ModelParts};
ghost use Rattle.sp_tree.specs.Laws.{Extends};
ghost use Rattle.sp_tree.specs.Trees.{TreeOf};
ghost use Rattle.sp_cursor.specs.Cursors.{IsCursorOf};
ghost use Rattle.sp_cursor.specs.declared.cursors.Cursor.{Cursor as CursorOf};

/// A law: a cursor of a tree is one of each later tree.
pub fn cursors_last()
    ensures { (m : ModelParts) (old new : TreeOf) (c : CursorOf) → Extends old new → IsCursorOf m old c
        → IsCursorOf m new c }
{}
