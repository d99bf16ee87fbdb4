//! Where the areas of a program's memory lie, and how large they are.

ghost use Rattle.std.specs.Prelude.{◌≡◌};
ghost use Rattle.a64_memory.specs.Areas.{local_bytes, heap_bytes};

/// Where the globals lie, with the constants behind them.
pub const DATA_BASE: u64 = 0x1000_0000;

/// Where local data lies.
pub const LOCAL_BASE: u64 = 0x2000_0000;

/// Where the frames lie.
pub const FRAMES_BASE: u64 = 0x4000_0000;

/// Where the heap lies.
pub const HEAP_BASE: u64 = 0x8000_0000;

/// How many frames there are: one for each open call, and one for what begins them.
pub const FRAMES: u64 = 8193;

/// How many calls may be open at once.
pub const MOST_CALLS: u64 = 8192;

/// How many words of eight bytes the local data has.
pub const LOCAL_WORDS: u64 = 1_048_576;

/// How many words of eight bytes the heap has.
pub const HEAP_WORDS: u64 = 8_388_608;

/// The bytes of local data.
#[tactic(auto, unfolding(crate::specs::Areas::local_bytes))]
pub fn local_bytes() -> u32
    ensures { result ≡ local_bytes }
{
    8_388_608
}

/// The bytes of the heap.
#[tactic(auto, unfolding(crate::specs::Areas::heap_bytes))]
pub fn heap_bytes() -> u32
    ensures { result ≡ heap_bytes }
{
    67_108_864
}
