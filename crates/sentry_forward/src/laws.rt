//! Laws of forwarding.
ghost use Rattle.std.specs.Prelude.{◌≡◌, Bool, List, ℕ, Some, map};
ghost use Rattle.sentry_framing.specs.Framing.{AreFrames, Frame, IsFramed, IsLineAndBody, Reading};
ghost use Rattle.sentry_framing.specs.ItemHeader.{Header, place_of, read_header, stated_length};
ghost use Rattle.sentry_framing.specs.ItemWords.{item_words};
ghost use Rattle.sentry_forward.specs.AnyHeader.{Typed, any_header, any_reading};
ghost use Rattle.sentry_forward.specs.Forward.{ArePieces, Leaves, Piece, joined, kept};

/// What is left of an envelope has the same header line, and its frames are those that were kept,
/// in order.
pub fn kept_frames_are_left()
    ensures line { (reads : Reading) (bytes line : List ℕ) (pieces : List Piece)
        (answers : List Bool) (text : List ℕ) → Leaves reads bytes line pieces answers text →
        IsLineAndBody text line (joined (kept pieces answers)) }
    ensures pieces { (reads : Reading) (bytes line : List ℕ) (pieces : List Piece)
        (answers : List Bool) (text : List ℕ) → Leaves reads bytes line pieces answers text →
        ArePieces reads (joined (kept pieces answers)) (kept pieces answers) }
    ensures frames { (reads : Reading) (bytes line : List ℕ) (pieces : List Piece)
        (answers : List Bool) (text : List ℕ) → Leaves reads bytes line pieces answers text →
        IsFramed reads (joined (kept pieces answers))
        (map (λ piece. piece.frame) (kept pieces answers)) }
{}

/// If all items are kept, all bytes are left.
pub fn all_kept_changes_nothing()
    ensures { (reads : Reading) (bytes line : List ℕ) (pieces : List Piece) (answers : List Bool)
        (text : List ℕ) → Leaves reads bytes line pieces answers text →
        kept pieces answers ≡ pieces → text ≡ bytes }
{}

/// What is left where a test tells which items to keep is left whole if it is forwarded by the same
/// test again.
pub fn twice_is_once()
    ensures { (reads : Reading) (test : Piece → Bool) (bytes line : List ℕ) (pieces : List Piece)
        (text next : List ℕ) (others : List Piece) (last : List ℕ) →
        Leaves reads bytes line pieces (map test pieces) text →
        Leaves reads text next others (map test others) last → last ≡ text }
{}

/// Frames of known types are frames, and headers of known types say the same of any type.
pub fn known_frames_are_frames()
    ensures frames { (body : List ℕ) (frames : List Frame) (rest : List ℕ) →
        AreFrames (stated_length item_words) body frames rest →
        AreFrames any_reading body frames rest }
    ensures headers { (header : List ℕ) (fields : Header) →
        read_header item_words header ≡ Some fields → (typed : Typed)
        × (any_header header ≡ Some typed) × (typed.length ≡ fields.length)
        × (place_of typed.word item_words ≡ Some fields.kind) }
{}
