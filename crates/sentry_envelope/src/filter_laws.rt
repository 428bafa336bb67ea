//! Laws of filtering.
ghost use Rattle.std.specs.Prelude.{◌≡◌, Bool, List, Option, ◌++◌, length};
ghost use Rattle.std.specs.List.{flat_map};
ghost use Rattle.std.specs.List.Sorted.{IsPermutation};
ghost use Rattle.sentry_items.specs.declared.item.EnvelopeItem.{EnvelopeItem};
ghost use Rattle.sentry_items.specs.Losses.{losses_of_items};
ghost use Rattle.sentry_tables.specs.Cell.{Cell};
ghost use Rattle.sentry_envelope.specs.declared.envelope.Envelope.{Envelope};
ghost use Rattle.sentry_envelope.specs.EnvelopeLosses.{losses_of_envelope, losses_of_left};
ghost use Rattle.sentry_envelope.specs.Filter.{asked_items, chosen, kept, handed, Leaves};

/// Each item is either kept or handed over, exactly once, whatever a filter answers.
pub fn each_item_is_kept_or_handed_over()
    ensures { (items : List EnvelopeItem) (answers : List Bool) → length answers ≡ length items
        → IsPermutation items (kept (chosen items answers) ++ handed items answers) }
{}

/// For any parts of items, as their losses: the parts of the kept items and then of the items that
/// are handed over are a permutation of the parts of all items, whatever a filter answers.
pub fn parts_are_conserved<Part>()
    ensures { (parts : EnvelopeItem → List Part) (items : List EnvelopeItem) (answers : List Bool) →
        length answers ≡ length items
        → IsPermutation (flat_map parts items) (flat_map parts (kept (chosen items answers)) ++
        flat_map parts (handed items answers)) }
{}

/// The losses of the envelope that is left and then of the items that are handed over are a
/// permutation of the losses of the whole envelope, whatever a filter answers.
pub fn losses_are_conserved()
    ensures { (header : Cell) (envelope : Envelope) (answers : List Bool) (left : Option Envelope) →
        length answers ≡ length (asked_items envelope)
        → Leaves header envelope (kept (chosen (asked_items envelope) answers)) left
        → IsPermutation (losses_of_envelope envelope) (losses_of_left left ++
        losses_of_items (handed (asked_items envelope) answers)) }
{}
