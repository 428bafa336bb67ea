//! Laws of JSON lines, stated as contracts of functions that do nothing. A sound tree has integers
//! of 64 bits as numbers, UTF-8 strings and keys, and the keys of each object in order.

ghost use Rattle.std.specs.Prelude.{◌≡◌, ◌↔◌, ◌≤◌, List, ℕ, Some, IsUtf8, false};
ghost use Rattle.serde_json.specs.Data.{Data, Members, depth, object};
ghost use Rattle.serde_json.specs.Read.{read};
ghost use Rattle.serde_json.specs.Written.{compact_text, has_float};
ghost use Rattle.sentry_json.specs.Balanced.{IsBalanced};
ghost use Rattle.sentry_json.specs.Line.{HasNoNewline, tree_of};
ghost use Rattle.sentry_json.specs.Sound.{HasTexts, IsRegular, IsSound};

/// A line has a tree if and only if it is UTF-8 and read as that tree, and the tree has no float.
pub fn what_a_line_is()
    ensures { (line : List ℕ) (d : Data) → tree_of line ≡ Some d
        ↔ IsUtf8 line × (read line ≡ Some d) × (has_float d ≡ false) }
{}

/// The tree of a line is sound and nests at most 127 deep; its compact text has the same tree.
#[tactic(auto, using(crate::proofs::Lines::what_a_line_is_read_as))]
pub fn what_a_line_is_read_as()
    ensures sound { (line : List ℕ) (d : Data) → tree_of line ≡ Some d → IsSound d }
    ensures depth { (line : List ℕ) (d : Data) → tree_of line ≡ Some d → depth d ≤ 127 }
    ensures again { (line : List ℕ) (d : Data) → tree_of line ≡ Some d →
        tree_of (compact_text d) ≡ Some d }
{}

/// Round trip: the compact text of a sound tree, at most 127 deep, is a line with that tree.
#[tactic(auto, using(crate::proofs::Lines::tree_of_written))]
pub fn a_written_line_is_read()
    ensures { (d : Data) → IsSound d → depth d ≤ 127 → tree_of (compact_text d) ≡ Some d }
{}

/// Round trip: the compact text of a sound tree, at most 127 deep, is read as that tree.
#[tactic(auto, using(crate::proofs::ReadBack::read_back))]
pub fn read_back()
    ensures { (d : Data) → IsSound d → depth d ≤ 127 → read (compact_text d) ≡ Some d }
{}

/// The compact text of a tree has no newline; the compact text of a sound tree is UTF-8.
#[tactic(auto, using(crate::proofs::Bytes::one_line))]
pub fn one_line()
    ensures text { (d : Data) → IsSound d → IsUtf8 (compact_text d) }
    ensures line { (d : Data) → HasNoNewline (compact_text d) }
{}

/// Two sound trees with the same compact text are equal, at any depth of nesting.
#[tactic(auto, using(crate::proofs::ReadBack::one_tree))]
pub fn one_tree()
    ensures { (a b : Data) → IsSound a → IsSound b → compact_text a ≡ compact_text b → a ≡ b }
{}

/// The compact text of an object is balanced: its first brace is closed by its last, where braces
/// in strings don't count.
#[tactic(auto, using(crate::proofs::Pieces::compact_object))]
pub fn one_piece()
    ensures { (members : Members) → IsBalanced (compact_text (object members)) }
{}

/// A tree that is read from bytes is regular: integers fit 64 bits, and keys are in order. A tree
/// that is read from UTF-8 has only UTF-8 strings and keys.
#[tactic(auto, using(crate::proofs::Texts::what_is_read))]
pub fn what_is_read()
    ensures regular { (text : List ℕ) (d : Data) → read text ≡ Some d → IsRegular d }
    ensures texts { (text : List ℕ) (d : Data) → IsUtf8 text → read text ≡ Some d → HasTexts d }
{}

/// A tree is sound if and only if it is regular, has only UTF-8 strings and keys, and has no float.
#[tactic(auto, using(crate::proofs::Sound::sound_is))]
pub fn what_is_sound()
    ensures { (d : Data) → IsSound d ↔ IsRegular d × HasTexts d × (has_float d ≡ false) }
{}
