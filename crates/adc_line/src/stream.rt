ghost use Rattle.std.specs.Prelude.{◌≡◌, ℕ, List, [], ◌++◌};
ghost use Rattle.std.specs.List.{All};
ghost use Rattle.adc_line.specs.Runs.{FramerCall, Follows, all_fed, all_out};
ghost use Rattle.adc_line.specs.Stream.{lines, joined_lines, IsLine};

/// Says how lines stand in a stream, and that a framer gives them however the stream is cut. It does nothing.
///
/// `in_order`: lines, each ended by a line feed, are the first lines of a stream that begins with them.
/// `conserved`: what was fed is the lines that came out, each with its line feed, and the unread bytes.
/// `prefix`: the lines that came out are the first lines of all bytes that were fed.
pub fn stream_laws()
    ensures in_order { (ended : List (List ℕ)) (rest : List ℕ) → All IsLine ended → lines (joined_lines ended ++ rest) ≡ ended ++ lines rest }
    ensures conserved { (deeds : List FramerCall) (left : List ℕ) → Follows [] deeds left → all_fed deeds ≡ joined_lines (all_out deeds) ++ left }
    ensures prefix { (deeds : List FramerCall) (left : List ℕ) → Follows [] deeds left → lines (all_fed deeds) ≡ all_out deeds ++ lines left }
{}
