//! Archives that are taken while sessions write, or refused.

ghost use Rattle.std.specs.Prelude.{◌≡◌};
ghost use Rattle.ol_worked.specs.Archives.{changed_before, changed_before_prints, changed_behind, changed_behind_prints, changed_over_checkpoint, changed_over_checkpoint_prints, next_level, next_level_prints, no_page, no_page_prints, no_parent, no_parent_prints, one_row, one_row_prints, open_at_cut, open_at_cut_prints, too_many_images, too_many_images_prints};
ghost use Rattle.ol_worked.specs.ArchiveTapes.{ann_page, broken_tape, changed_page, no_page_tape, not_ended_tape, old_and_new_pages, old_page, one_page_tape, open_at_cut_tape, two_levels_spaces, two_levels_tape};
ghost use Rattle.ol_worked.specs.Small.{pages_on, printed, small, spaces_on, taped};

/// What the plays of these lines print.
pub fn archives_print()
    ensures one_row { printed (small 20 2) one_row ≡ one_row_prints }
    ensures no_page { printed (small 20 2) no_page ≡ no_page_prints }
    ensures changed_before { printed (small 20 2) changed_before ≡ changed_before_prints }
    ensures changed_over_checkpoint { printed (small 20 2) changed_over_checkpoint ≡ changed_over_checkpoint_prints }
    ensures changed_behind { printed (small 20 2) changed_behind ≡ changed_behind_prints }
    ensures next_level { printed (small 20 2) next_level ≡ next_level_prints }
    ensures no_parent { printed (small 20 2) no_parent ≡ no_parent_prints }
    ensures open_at_cut { printed (small 20 2) open_at_cut ≡ open_at_cut_prints }
    ensures too_many_images { printed (small 20 1) too_many_images ≡ too_many_images_prints }
{}

/// What the same plays put on drive 1: the heads of the blocks, what the pages hold, and for two levels their bases.
pub fn archives_put()
    ensures one_row { taped (small 20 2) one_row 1 ≡ one_page_tape }
    ensures one_row_pages { pages_on (small 20 2) one_row 1 ≡ ann_page }
    ensures no_page { taped (small 20 2) no_page 1 ≡ no_page_tape }
    ensures changed_before { taped (small 20 2) changed_before 1 ≡ one_page_tape }
    ensures changed_before_pages { pages_on (small 20 2) changed_before 1 ≡ old_page }
    ensures changed_over_checkpoint { taped (small 20 2) changed_over_checkpoint 1 ≡ not_ended_tape }
    ensures changed_over_checkpoint_pages { pages_on (small 20 2) changed_over_checkpoint 1 ≡ old_page }
    ensures changed_behind { taped (small 20 2) changed_behind 1 ≡ two_levels_tape }
    ensures changed_behind_pages { pages_on (small 20 2) changed_behind 1 ≡ old_and_new_pages }
    ensures changed_behind_spaces { spaces_on (small 20 2) changed_behind 1 ≡ two_levels_spaces }
    ensures next_level { taped (small 20 2) next_level 1 ≡ two_levels_tape }
    ensures next_level_pages { pages_on (small 20 2) next_level 1 ≡ old_and_new_pages }
    ensures no_parent { taped (small 20 2) no_parent 1 ≡ no_page_tape }
    ensures open_at_cut { taped (small 20 2) open_at_cut 1 ≡ open_at_cut_tape }
    ensures open_at_cut_pages { pages_on (small 20 2) open_at_cut 1 ≡ changed_page }
    ensures too_many_images { taped (small 20 1) too_many_images 1 ≡ broken_tape }
{}
