//! Laws of framing.
ghost use Rattle.std.specs.Prelude.{◌≡◌, ◌⊎◌, ◌++◌, [], List, ℕ, Option, Some};
ghost use Rattle.serde_json.specs.Data.{Data, Members, object};
ghost use Rattle.serde_json.specs.Written.{compact_text};
ghost use Rattle.sentry_json.specs.Balanced.{IsBalanced};
ghost use Rattle.sentry_framing.specs.ItemHeader.{place_of};
ghost use Rattle.sentry_framing.specs.ItemWords.{item_words, kind_of_word, kind_place, kind_word};
ghost use Rattle.sentry_framing.specs.declared.kind.ItemKind.{ItemKind as Kinds};
ghost use Rattle.sentry_framing.specs.Framing.{Reading, Frame, IsFirstFrame, HasOneVerdict, HasSize, IsLineAndBody, with_line};

/// No balanced piece is a proper prefix of another.
pub fn no_piece_begins_another()
    ensures { (p q rest : List ℕ) → IsBalanced p → IsBalanced q → p ++ rest ≡ q → rest ≡ [] }
{}

/// Any bytes begin either with a balanced piece or with none.
pub fn a_piece_or_none()
    ensures { (bytes : List ℕ) → ((piece rest : List ℕ) × IsBalanced piece ×
        (bytes ≡ piece ++ rest))
        ⊎ ((piece rest : List ℕ) → IsBalanced piece → bytes ≡ piece ++ rest → ⊥) }
{}

/// A body has at most one first frame, with one body after the frame.
pub fn one_first_frame()
    ensures { (reads : Reading) (body : List ℕ) (f g : Frame) (r s : List ℕ) →
        IsFirstFrame reads body f r → IsFirstFrame reads body g s → (f ≡ g) × (r ≡ s) }
{}

/// Any body either consists of frames, in exactly one way, or has exactly one error.
pub fn one_verdict()
    ensures { (reads : Reading) (body : List ℕ) → HasOneVerdict reads body }
{}

/// A written header line and any body after it are read as that line and that body.
pub fn a_written_line_is_read()
    ensures { (tree : Data) (body : List ℕ) →
        IsLineAndBody (with_line (compact_text tree) body) (compact_text tree) body }
{}

/// A written item is read as the first frame, whatever body follows the item.
pub fn a_written_item_is_read()
    ensures { (reads : Reading) (members : Members) (stated : Option ℕ) (payload body : List ℕ) →
        reads (compact_text (object members)) ≡ Some stated → HasSize stated payload →
        IsFirstFrame reads (with_line (compact_text (object members)) (with_line payload body))
        (record { header = compact_text (object members); payload = payload }) body }
{}

/// The word of each item type stands first at the place of the type in the list of all words, and
/// names the type.
#[tactic(auto, using(crate::proofs::Words::word_in_place, crate::proofs::Words::word_of_kind))]
pub fn item_words_stand_in_order()
    ensures places { (kind : Kinds) →
        place_of (kind_word kind) item_words ≡ Some (kind_place kind) }
    ensures kinds { (kind : Kinds) → kind_of_word (kind_word kind) ≡ Some kind }
{}
