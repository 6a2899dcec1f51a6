ghost use Rattle.std.specs.Prelude.{◌≡◌, ℕ, List};
ghost use Rattle.adc_base32.specs.Bits.{HasOneReading, IsBase32};

/// Says that texts and bytes tell one another. It does nothing.
///
/// `one_text`: bytes have one text. `one_reading`: a text has one list of so many bytes.
pub fn codec_laws()
    ensures one_text { (text other bytes : List ℕ) → IsBase32 text bytes → IsBase32 other bytes → other ≡ text }
    ensures one_reading { HasOneReading }
{}
