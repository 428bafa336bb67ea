//! What every slice of bytes holds.

ghost use Rattle.std.specs.Prelude.{◌<◌, All};
ghost use Rattle.hex.specs.Hex.{IsBytes};

// Nothing; a slice of bytes has numbers below 256.
pub(crate) fn are_bytes(bytes: &[u8])
    ensures each { All (λ b. b < 256) bytes.now }
    ensures everywhere { IsBytes bytes.now }
{}
