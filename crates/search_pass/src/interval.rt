ghost use Rattle.std.specs.Prelude.{◌≡◌};
ghost use Rattle.search_pass.specs.Searches.{may_search};

/// Tests whether a connection may search at the moment `now`, where `last` is the moment of its last search
/// that was let through, and two searches stand at least `interval` apart. All three are in seconds.
///
/// A connection that has not searched yet may. A moment before the last one counts as no time passed,
/// so that a clock that was set back lets nothing through but at an interval of 0.
pub fn may_search(last: Option<u64>, now: u64, interval: u64) -> bool
    ensures { result ≡ may_search last now interval }
{
    match last {
        Some(last) => now.saturating_sub(last) >= interval,
        None => true,
    }
}
