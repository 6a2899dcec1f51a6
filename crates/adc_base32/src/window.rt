ghost use Rattle.std.specs.Prelude.{◌≡◌, ℕ, ◌+◌, ◌<◌, ◌≤◌, length, List, slice_index_or, false, IfSome, IfNone, ◌||◌, nat_eq};
ghost use Rattle.std.specs.Bool.{Decides};
ghost use Rattle.std.specs.List.{Contains};
ghost use Rattle.adc_base32.specs.Sids.{sid_count};
ghost use Rattle.adc_base32.specs.Turns.{following, IsFirstFree, IsNextFree};

use crate::Sid;

/// The count of numbers that are looked at together. It is above the number of connections of any hub in use,
/// so that one pass over the taken numbers nearly always answers; and it divides 1,048,575.
pub(crate) const WINDOW: u32 = 1_025;

/// The count of windows.
pub(crate) const WINDOWS: u32 = 1_023;

/// Finds the first free number of a window of those that follow `last`; `base` are passed over before it.
pub(crate) fn first_free(last: u32, base: u32, taken: &[Sid]) -> Option<u32>
    requires last_in { last < sid_count }
    requires base_in { base + 1_025 ≤ 1_048_575 }
    ensures found { IfSome result (λ n. IsFirstFree last base taken.now n) }
    ensures full { IfNone result ((j : ℕ) → j < 1_025 → Contains taken.now (following last (base + j))) }
{
    let held = held_in(last, base, taken);
    for step in 0..WINDOW {
        if !held[step as usize] {
            return Some((last + (base + step)) % 1_048_575 + 1);
        }
    }
    None
}

/// Marks the numbers of a window that are taken.
fn held_in(last: u32, base: u32, taken: &[Sid]) -> [bool; 1_025]
    requires last_in { last < sid_count }
    requires base_in { base + 1_025 ≤ 1_048_575 }
    ensures { (k : ℕ) → k < 1_025 → Decides (slice_index_or result k false) (Contains taken.now (following last (base + k))) }
{
    let mut held = [false; 1_025];
    for sid in taken {
        mark(&mut held, last, base, sid.number());
    }
    held
}

/// Marks the number, where it is in the window.
fn mark(held: &mut [bool], last: u32, base: u32, number: u32)
    requires window { length held.old ≡ 1_025 }
    requires last_in { last < sid_count }
    requires base_in { base + 1_025 ≤ 1_048_575 }
    requires number_in { number < sid_count }
    ensures { (k : ℕ) → k < 1_025 → slice_index_or held.new k false ≡ (slice_index_or held.old k false || nat_eq number (following last (base + k))) }
{
    if number == 0 {
        return;
    }
    let passed = (number + 1_048_574 - last) % 1_048_575;
    if passed < base || passed >= base + WINDOW {
        return;
    }
    held[(passed - base) as usize] = true;
}
