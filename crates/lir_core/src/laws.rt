//! The law that joins allocators and code.

ghost use Rattle.std.specs.Prelude.{ℕ, List};
ghost use Rattle.block_runs.specs.Blocks.{Operation};
ghost use Rattle.lir_core.specs.declared.places.Places.{Places};
ghost use Rattle.lir_core.specs.declared.places.Line.{Line};
ghost use Rattle.lir_core.specs.Lines.{Room, AllBelow};
ghost use Rattle.lir_core.specs.Walks.{Walks};
ghost use Rattle.lir_core.specs.Sound.{AreSoundLines};

/// Lines that the walk by names accepts are sound, for every numbers of values and every contents.
pub fn walks_are_sound()
    ensures { (room : Room) (ops : List Operation) (last : List ℕ) (start : Places) (lines : List Line) (named : List ℕ)
        (end : Places)
        → Walks room ops last start lines named end → AreSoundLines room ops last start lines named end }
{}
