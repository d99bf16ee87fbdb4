//! Loads and stores by address.

ghost use Rattle.std.specs.Prelude.{◌≡◌, ℕ, ◌<◌, length, IfSome, true, slice_index_or};
ghost use Rattle.a64_memory.specs.Memory.{Area, lies, covers, place, load8, load1, stored8, stored1};

use crate::region::Region;

/// The eight bytes at the address as a number, lowest first, where they all lie in one region.
pub fn load8(regions: &[Region], address: u64) -> Option<u64>
    ensures { result ≡ load8 regions.now address }
{
    for region in regions {
        if region.has(address, 8) {
            return Some(region.load8(address));
        }
    }
    None
}

/// The byte at the address, where it lies in a region.
pub fn load1(regions: &[Region], address: u64) -> Option<u8>
    ensures { result ≡ load1 regions.now address }
{
    for region in regions {
        if region.has(address, 1) {
            return Some(region.byte(address));
        }
    }
    None
}

/// Stores a value's eight bytes at the address, lowest first, where they all lie in one region, and says whether they do.
pub fn store8(regions: &mut [Region], address: u64, value: u64) -> bool
    ensures done { result ≡ covers regions.old address 8 }
    ensures memory { regions.new ≡ stored8 regions.old address value }
{
    match find(regions, address, 8) {
        Some(i) => {
            regions[i].store(address, &value.to_le_bytes());
            true
        }
        None => false,
    }
}

/// Stores a value's low byte at the address, where it lies in a region, and says whether it does.
pub fn store1(regions: &mut [Region], address: u64, value: u64) -> bool
    ensures done { result ≡ covers regions.old address 1 }
    ensures memory { regions.new ≡ stored1 regions.old address value }
{
    match find(regions, address, 1) {
        Some(i) => {
            regions[i].store(address, &[(value & 0xff) as u8]);
            true
        }
        None => false,
    }
}

/// The first region in which the `count` bytes at the address all lie.
fn find(regions: &[Region], address: u64, count: u64) -> Option<usize>
    ensures first { result ≡ place regions.now 0 address count }
    ensures inside { IfSome result (λ i. i < length regions.now) }
    ensures there { IfSome result (λ i. (d : Area) → lies (slice_index_or regions.now i d) address count ≡ true) }
{
    for i in 0..regions.len() {
        if regions[i].has(address, count) {
            return Some(i);
        }
    }
    None
}
