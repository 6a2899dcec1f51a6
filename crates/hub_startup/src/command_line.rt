ghost use Rattle.std.specs.Prelude.{◌↔◌, IsTrue, IfNone, IfSome, map};
ghost use Rattle.std.specs.String.{string_bytes};
ghost use Rattle.hub_startup.specs.Endings.{AsksForStdin, AsksToServe, AsksToServeFile};

/// Tells whether a hub for one connection is asked for.
pub(crate) fn asks_for_stdin(words: &[String]) -> bool
    ensures { IsTrue result ↔ AsksForStdin (map string_bytes words.now) }
{
    match words {
        [word] => word.as_str() == "stdin",
        _ => false,
    }
}

/// Gives the path of the settings file of a server that is asked for. Nothing where none is.
pub fn settings_path(words: &[String]) -> Option<&str>
    ensures path { IfSome result (λ path. AsksToServeFile (map string_bytes words.now) path.now) }
    ensures nothing { IfNone result (AsksToServe (map string_bytes words.now) → ⊥) }
{
    match words {
        [word, path] if word.as_str() == "serve" => Some(path.as_str()),
        _ => None,
    }
}
